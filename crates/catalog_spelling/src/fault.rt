use room_base::Memory;
use std::alloc::{AllocError, AllocFailed};

/// Why bytes aren't read as fields.
#[derive(Clone, Copy)]
pub enum FieldFault {
    /// The first field that isn't allowed begins `behind` bytes before the end.
    Bad { behind: usize },
    Memory,
}

/// Why bytes aren't decoded.
#[derive(Clone, Copy)]
pub enum DecodeFault {
    /// The first field that isn't allowed begins at `place` of the bytes. Bytes behind the last
    /// field are one, and so is a field that the bytes end in.
    Bad { place: u64 },
    Memory,
}

impl From<Memory> for FieldFault {
    ghost use Rattle.std.specs.Prelude.{◌≡◌};
    ghost use Rattle.catalog_spelling.specs.declared.fault.FieldFault.TheVariants.{Memory};

    ghost from_gives = { λ _ fault. fault ≡ Memory };

    fn from(_: Memory) -> FieldFault {
        FieldFault::Memory
    }
}

impl From<AllocError> for FieldFault {
    ghost use Rattle.std.specs.Prelude.{◌≡◌};
    ghost use Rattle.catalog_spelling.specs.declared.fault.FieldFault.TheVariants.{Memory};

    ghost from_gives = { λ _ fault. fault ≡ Memory };

    fn from(_: AllocError) -> FieldFault {
        FieldFault::Memory
    }
}

impl<T: Drop> From<AllocFailed<T>> for FieldFault {
    ghost use Rattle.std.specs.Prelude.{◌≡◌};
    ghost use Rattle.catalog_spelling.specs.declared.fault.FieldFault.TheVariants.{Memory};

    ghost from_gives = { λ _ fault. fault ≡ Memory };

    fn from(_: AllocFailed<T>) -> FieldFault {
        FieldFault::Memory
    }
}
