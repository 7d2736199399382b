use room_base::Volid;

/// Why a byte of a save set's stream can't be had.
#[derive(Clone, Copy)]
pub enum RangeFault {
    /// All that might have it lies on volumes that are in no slot. This is the first of them.
    Offsite { volid: Volid },
    /// No copy at hand has it whole. This is the first block that should have it and isn't valid,
    /// or the first that should have it. Volume 0 and block 0 where no copy says where it lies.
    Damaged { volid: Volid, block: u64 },
    /// A call on this file of the disk failed.
    Failed { file: u32 },
}

/// Why not all of a file was recovered.
#[derive(Clone, Copy)]
pub enum RecoverFault {
    /// A byte of it can't be had.
    Range(RangeFault),
    /// The sink failed.
    SinkFailed,
}
