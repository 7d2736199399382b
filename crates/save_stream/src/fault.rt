use room_base::Memory;
use std::alloc::{AllocError, AllocFailed};

/// Why a piece isn't taken.
#[derive(Clone, Copy)]
pub enum StreamFault {
    /// The piece completes a field that isn't allowed there. Its first byte is at `offset` of the
    /// stream.
    Bad { offset: u64 },
    /// The piece begins one more entry than there may be.
    TooMany { limit: u64 },
    Memory,
}

/// Why bytes don't begin with a head.
#[derive(Clone, Copy)]
pub enum HeadFault {
    /// Its complete fields are allowed, and the bytes end inside it.
    Incomplete,
    /// The first field that isn't allowed begins at `offset` of the bytes.
    Bad { offset: u64 },
    Memory,
}

impl From<Memory> for StreamFault {
    ghost use Rattle.std.specs.Prelude.{◌≡◌};
    ghost use Rattle.save_stream.specs.declared.fault.StreamFault.TheVariants.{Memory};

    ghost from_gives = { λ _ fault. fault ≡ Memory };

    fn from(_: Memory) -> StreamFault {
        StreamFault::Memory
    }
}

impl From<AllocError> for StreamFault {
    ghost use Rattle.std.specs.Prelude.{◌≡◌};
    ghost use Rattle.save_stream.specs.declared.fault.StreamFault.TheVariants.{Memory};

    ghost from_gives = { λ _ fault. fault ≡ Memory };

    fn from(_: AllocError) -> StreamFault {
        StreamFault::Memory
    }
}

impl<T: Drop> From<AllocFailed<T>> for StreamFault {
    ghost use Rattle.std.specs.Prelude.{◌≡◌};
    ghost use Rattle.save_stream.specs.declared.fault.StreamFault.TheVariants.{Memory};

    ghost from_gives = { λ _ fault. fault ≡ Memory };

    fn from(_: AllocFailed<T>) -> StreamFault {
        StreamFault::Memory
    }
}
