use std::alloc::{AllocError, AllocFailed};

/// An object of the outside (a source, a sink, a clock, a disk) failed in this call. Its count of
/// faults has risen.
#[derive(Clone, Copy)]
pub struct Failed;

/// No memory was to be had. Nothing else is wrong.
#[derive(Clone, Copy)]
pub struct Memory;

impl From<AllocError> for Memory {
    fn from(_: AllocError) -> Memory {
        Memory
    }
}

impl<T: Drop> From<AllocFailed<T>> for Memory {
    fn from(_: AllocFailed<T>) -> Memory {
        Memory
    }
}
