use crate::Label;
use room_base::{CopyNo, Ssid};

/// The bytes of a label, of a mark, and of each unit of a data block. Blocks are numbered by units.
pub const BLOCK_SIZE: usize = 4096;

/// The most units that a data block has.
pub const MAX_UNITS: u32 = 16;

/// The bytes of the largest data block.
pub const MAX_BLOCK_SIZE: usize = 65_536;

/// The most data blocks behind one mark.
pub const MAX_FILE_BLOCKS: u32 = 64;

/// What a valid block is.
#[derive(Clone, Copy)]
pub enum Block {
    Label(Label),
    /// `count` data blocks of `units` units each follow.
    Mark { count: u32, units: u32 },
    /// The first `used` bytes of the payload are chunks. The block has `units` units.
    Data { used: u32, units: u32 },
}

/// Why bytes are no valid block.
#[derive(Clone, Copy)]
pub struct BadBlock {
    pub why: Reason,
}

/// The part of a block that is wrong. Of several the first in this order is named.
#[derive(Clone, Copy)]
pub enum Reason {
    Kind,
    Form,
    Volid,
    Number,
    Length,
    Digest,
    Payload,
}

/// Where one chunk stands in a data block's payload: `length` bytes of a save set's stream from
/// `offset` on, which stand in the block from byte `start` on. `next` is where the next chunk
/// begins.
#[derive(Clone, Copy)]
pub struct Chunk {
    pub ssid: Ssid,
    pub copy: CopyNo,
    pub offset: u64,
    pub length: u32,
    pub start: u32,
    pub next: u32,
}
