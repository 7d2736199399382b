ghost use Rattle.std.specs.Prelude.{◌≡◌, ◌≤◌};
ghost use Rattle.room_base.specs.Numbers.{max_moment};
ghost use Rattle.volume_block.specs.Layout.{IsUnits};
ghost use Rattle.volume_block.specs.Valid.{IsLabel};
ghost use Rattle.chunk_mux.specs.Packing.{payload_size, chunk_size};
ghost use Rattle.volume_store.specs.Writes.{IsCart};
ghost use Rattle.room_run.specs.Raw.{raw_label};
ghost use Rattle.room_run.specs.Put.{blocks_for};

use room_base::{Cart, Moment, Volid};
use volume_block::{
    BLOCK_SIZE, CHUNK_HEAD_SIZE, FIRST_RAW_VOLID, Label, MAX_CAPACITY, MAX_FILE_BLOCKS,
    PAYLOAD_START,
};

/// The most bytes of a raw file: 64 data blocks of one unit, each with one chunk.
pub const MAX_FILE_SIZE: usize = MAX_FILE_BLOCKS as usize
    * (BLOCK_SIZE - PAYLOAD_START - CHUNK_HEAD_SIZE);

/// The bytes of a file that a data block of so many units holds.
pub fn chunk_size(units: u32) -> usize
    requires { IsUnits units }
    ensures { result ≡ chunk_size (payload_size units) }
{
    BLOCK_SIZE * units as usize - PAYLOAD_START - CHUNK_HEAD_SIZE
}

/// The label of a raw cartridge.
pub fn raw_label_of(cart: Cart, made: Moment) -> Label
    requires cart { IsCart cart.0 }
    requires made { made.0 ≤ max_moment }
    ensures label { result ≡ raw_label cart.0 made.0 }
    ensures allowed { IsLabel result }
{
    let mut pool = [0; 64];
    pool[0] = b'R';
    pool[1] = b'a';
    pool[2] = b'w';
    Label {
        volid: Volid(FIRST_RAW_VOLID + u64::from(cart.0)),
        cart,
        capacity: MAX_CAPACITY,
        made,
        pool_length: 3,
        pool,
        units: 1,
    }
}

/// How many data blocks of so many units so many bytes of a file take.
pub fn blocks_for(units: u32, size: usize) -> u32
    requires units { IsUnits units }
    requires size { size ≤ 257024 }
    ensures { result ≡ blocks_for units size }
{
    size.div_ceil(chunk_size(units)) as u32
}
