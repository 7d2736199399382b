/// How a desk ends.
#[derive(Clone, Copy)]
pub enum DeskEnd {
    /// The input was read to its end, and all replies were written.
    Done,
    Memory,
    /// The input failed.
    ReadFault,
    /// The output failed.
    WriteFault,
    /// A file of the journal failed as the room was opened, or opened again.
    DiskFault,
    /// The journal is damaged: the front or the snapshot of the file (place 0), or the entry whose
    /// gate stands at that place.
    DamagedJournal { file: u32, place: u64 },
    /// The bytes of the input from this offset on begin no request.
    BadInput { offset: u64 },
    /// The clock failed.
    ClockFault,
    /// As many bytes were taken of the input as ever are.
    InputLimit,
}
