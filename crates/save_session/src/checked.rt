/// What is to be done with bytes that are sent for an ssid at an offset behind the head.
#[derive(Clone, Copy)]
pub enum Checked {
    NotOpen,
    /// All of them were sent before; the next byte belongs at `next`.
    Repeat { next: u64 },
    /// They follow what was sent.
    New,
    /// They don't: the next byte belongs at `expected`.
    Gap { expected: u64 },
}
