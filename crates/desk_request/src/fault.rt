use std::alloc::{AllocError, AllocFailed};
use thiserror::Error;

/// Why no request was read.
#[derive(Clone, Copy, Debug, PartialEq, Eq, Error)]
pub enum RequestFault {
    /// There are bytes, and they begin no request.
    #[error("the bytes begin no request")]
    Bad,
    /// The source failed before a request was whole.
    #[error("the source of the requests failed")]
    ReadFault,
    #[error("out of memory")]
    Memory,
}

impl From<AllocError> for RequestFault {
    ghost use Rattle.std.specs.Prelude.{◌≡◌};
    ghost use Rattle.desk_request.specs.declared.fault.RequestFault.TheVariants.{Memory};

    ghost from_gives = { λ _ fault. fault ≡ Memory };

    fn from(_: AllocError) -> RequestFault {
        RequestFault::Memory
    }
}

impl<T: Drop> From<AllocFailed<T>> for RequestFault {
    ghost use Rattle.std.specs.Prelude.{◌≡◌};
    ghost use Rattle.desk_request.specs.declared.fault.RequestFault.TheVariants.{Memory};

    ghost from_gives = { λ _ fault. fault ≡ Memory };

    fn from(_: AllocFailed<T>) -> RequestFault {
        RequestFault::Memory
    }
}
