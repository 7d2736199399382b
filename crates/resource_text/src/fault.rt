use room_base::Name;
use std::alloc::{AllocError, AllocFailed};

/// Why a text of resources wasn't taken.
#[derive(Drop)]
pub enum TextFault {
    /// A field has the wrong form, or isn't known. It is `text` where the text is no TOML, and
    /// `key` where an unknown key is no name of at most 64 bytes.
    Malformed { field: Name },
    Memory,
}

impl From<AllocError> for TextFault {
    ghost use Rattle.std.specs.Prelude.{◌≡◌};
    ghost use Rattle.resource_text.specs.declared.fault.TextFault.TheVariants.{Memory};

    ghost from_gives = { λ _ fault. fault ≡ Memory };

    fn from(_: AllocError) -> TextFault {
        TextFault::Memory
    }
}

impl<T: Drop> From<AllocFailed<T>> for TextFault {
    ghost use Rattle.std.specs.Prelude.{◌≡◌};
    ghost use Rattle.resource_text.specs.declared.fault.TextFault.TheVariants.{Memory};

    ghost from_gives = { λ _ fault. fault ≡ Memory };

    fn from(_: AllocFailed<T>) -> TextFault {
        TextFault::Memory
    }
}
