use room_base::Memory;
use std::alloc::{AllocError, AllocFailed};

/// Why bytes aren't read as a head, an entry or an end.
#[derive(Clone, Copy)]
pub(crate) enum Stop {
    /// Its fields so far are allowed, and the next one isn't complete.
    More,
    /// The first field that isn't allowed begins so many bytes before the end.
    Wrong(usize),
    /// There are as many entries as there may be.
    Full,
    Memory,
}

impl From<Memory> for Stop {
    ghost use Rattle.std.specs.Prelude.{◌≡◌};
    ghost use Rattle.save_stream.specs.declared.stop.Stop.TheVariants.{Memory};

    ghost from_gives = { λ _ stop. stop ≡ Memory };

    fn from(_: Memory) -> Stop {
        Stop::Memory
    }
}
