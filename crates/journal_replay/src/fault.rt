use cat_journal::OpenFault;
use room_base::Memory;

/// Why a journal can't be replayed.
#[derive(Clone, Copy)]
pub enum ReplayFault {
    /// The front or the snapshot of the file is damaged (place 0), or the entry whose gate stands at
    /// that place.
    Damaged { file: u32, place: u64 },
    /// A call on the file failed.
    Failed { file: u32 },
    Memory,
}

impl From<OpenFault> for ReplayFault {
    ghost use Rattle.std.specs.Prelude.{◌≡◌};
    ghost use Rattle.journal_replay.specs.Answers.{replay_fault};

    ghost from_gives = { λ opened fault. fault ≡ replay_fault opened };

    fn from(opened: OpenFault) -> ReplayFault {
        match opened {
            OpenFault::Damaged { file, place } => ReplayFault::Damaged { file, place },
            OpenFault::Failed { file } => ReplayFault::Failed { file },
            OpenFault::Memory => ReplayFault::Memory,
        }
    }
}

impl From<Memory> for ReplayFault {
    ghost use Rattle.std.specs.Prelude.{◌≡◌};
    ghost use Rattle.journal_replay.specs.declared.fault.ReplayFault.TheVariants as faults;

    ghost from_gives = { λ _ fault. fault ≡ faults.Memory };

    fn from(_: Memory) -> ReplayFault {
        ReplayFault::Memory
    }
}
