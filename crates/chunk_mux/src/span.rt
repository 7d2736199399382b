/// The data blocks of a buffer that a piece went into, counted from 0.
#[derive(Clone, Copy)]
pub struct Span {
    pub first: u32,
    pub last: u32,
}
