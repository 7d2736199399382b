use room_base::{CopyNo, Ssid};

/// What is looked for: the bytes of a copy of a save set's stream from a place on, at most so many.
#[derive(Clone, Copy)]
pub(crate) struct Wanted {
    pub ssid: Ssid,
    pub copy: CopyNo,
    pub place: u64,
    pub most: usize,
}

/// What was found: so many bytes. Where there are none, so many are known to be lacking.
#[derive(Clone, Copy)]
pub(crate) struct Run {
    pub count: usize,
    pub clear: usize,
}
