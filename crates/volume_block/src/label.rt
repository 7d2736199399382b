ghost use Rattle.std.specs.Prelude.{◌≡◌, ◌≤◌, ◌↔◌, IsTrue};
ghost use Rattle.volume_block.specs.Valid.{IsRaw, least_capacity};

use crate::block::MAX_FILE_BLOCKS;
use room_base::{Cart, Moment, Volid};

/// There are so many cartridges.
pub const MAX_CART: u32 = 256;

/// The most units that a volume may have.
pub const MAX_CAPACITY: u32 = 1_000_000;

/// Raw volumes have numbers from 2^63 on.
pub const FIRST_RAW_VOLID: u64 = 1 << 63;

/// What a volume's label says. The bytes of `pool` behind its first `pool_length` are zero.
#[derive(Clone, Copy)]
pub struct Label {
    pub volid: Volid,
    pub cart: Cart,
    /// How many units the volume may have.
    pub capacity: u32,
    /// When it was labelled.
    pub made: Moment,
    pub pool_length: u8,
    pub pool: [u8; 64],
    /// How many units each data block of the volume has.
    pub units: u32,
}

/// The fewest units that a volume may have whose data blocks have so many units: a label, and a
/// mark with the most data blocks and the closed block behind them.
pub fn min_capacity(units: u32) -> u32
    requires { units ≤ 16 }
    ensures { result ≡ least_capacity units }
{
    MAX_FILE_BLOCKS * units + 3
}

impl Label {
    /// Whether the volume is raw: it holds files of bytes, and no save sets.
    pub fn is_raw(&self) -> bool
        ensures { IsTrue result ↔ IsRaw self.now }
    {
        self.volid.0 >= FIRST_RAW_VOLID
    }
}
