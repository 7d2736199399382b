ghost use Rattle.std.specs.Prelude.{◌≡◌};
ghost use Rattle.room_run.specs.Numbers.{exit_number};

use room_base::{Items, Refusal};

/// How the program ended. Each has a number, which is the program's exit status.
#[derive(Drop)]
pub enum Status {
    /// The input was read to its end where the command reads it, and all output was written.
    Done,
    /// The words are no command. `word` is the first that doesn't fit, or empty where one is
    /// missing.
    Usage { word: Items<u8> },
    Memory,
    /// The input failed.
    ReadFault,
    /// The output failed.
    WriteFault,
    /// The folder or one of its files failed.
    DiskFault,
    /// The journal of the catalogue is damaged: the front or the snapshot of the file (place 0), or
    /// the entry whose gate stands at that place.
    DamagedJournal { file: u32, place: u64 },
    /// The bytes of the input from this offset on begin no request.
    BadInput { offset: u64 },
    /// The clock failed.
    ClockFault,
    Refused(Refusal),
    /// As many bytes were taken of the input as ever are.
    InputLimit,
}

impl Status {
    /// The exit status of the program.
    pub fn number(&self) -> u8
        ensures { result ≡ exit_number self.now }
    {
        match self {
            Status::Done => 0,
            Status::Usage { .. } => 2,
            Status::Memory => 3,
            Status::ReadFault => 4,
            Status::WriteFault => 5,
            Status::DiskFault => 6,
            Status::DamagedJournal { .. } => 7,
            Status::BadInput { .. } => 8,
            Status::ClockFault => 10,
            Status::Refused(_) => 11,
            Status::InputLimit => 12,
        }
    }
}
