//! Makes the region of a commit of blocks that are filled.

ghost use Rattle.std.specs.Prelude.{◌≡◌, ◌+◌, ◌*◌, ◌≤◌, ◌<◌, ◌^◌, List, length, drop, All};
ghost use Rattle.volume_block.specs.Chunks.{ChunkText};
ghost use Rattle.volume_block.specs.Layout.{IsUnits, data_size, closed};
ghost use Rattle.volume_block.specs.Valid.{IsCount, mark_text};
ghost use Rattle.chunk_mux.specs.Blocks.{buffer_size};
ghost use Rattle.chunk_mux.specs.Text.{Hold};
ghost use Rattle.chunk_mux.specs.Sealing.{SealsRegion, seal_first};

use crate::size::data_size;
use room_base::Volid;
use volume_block::{BLOCK_SIZE, encode_mark, seal_data};

/// Makes the first bytes the region for a volume and a mark place: a closed mark, the data blocks,
/// of whose payloads so many bytes are used, and a closed block.
pub(crate) fn make_region(volid: Volid, mark: u64, units: u32, used: &[u32], bytes: &mut [u8])
    requires volid { 1 ≤ volid.0 }
    requires mark { (1 ≤ mark) × (mark < 2 ^ 32) }
    requires units { IsUnits units }
    requires count { (1 ≤ length used.now) × (length used.now ≤ 64) }
    requires whole { length bytes.old ≡ buffer_size units }
    requires fits { All (λ count. 56 + count ≤ data_size units) used.now }
    ensures { (chunks : List (List ChunkText)) → Hold units chunks used.now (drop 4096 bytes.old)
        → SealsRegion volid.0 mark units used.now bytes.new chunks }
{
    let (front, blocks) = bytes.split_at_mut(BLOCK_SIZE);
    write_mark(volid, mark, used.len() as u32, units, front);
    make_data_blocks(volid, mark + 1, units, used, blocks);
    let end = data_size(units) * used.len();
    blocks[end..end + BLOCK_SIZE].fill(0);
}

// Writes a mark that is still closed.
fn write_mark(volid: Volid, mark: u64, count: u32, units: u32, block: &mut [u8])
    requires volid { 1 ≤ volid.0 }
    requires mark { 1 ≤ mark }
    requires count { IsCount count }
    requires units { IsUnits units }
    requires whole { length block.old ≡ 4096 }
    ensures { block.new ≡ closed (mark_text volid.0 mark count units) }
{
    encode_mark(volid, mark, count, units, block);
    block[0] = 0;
}

// Makes the first blocks data blocks, numbered from `first` on by their units.
fn make_data_blocks(volid: Volid, first: u64, units: u32, used: &[u32], blocks: &mut [u8])
    requires volid { 1 ≤ volid.0 }
    requires first { (1 ≤ first) × (first ≤ 2 ^ 32) }
    requires units { IsUnits units }
    requires count { (data_size units * length used.now ≤ length blocks.old)
        × (length used.now ≤ 64) }
    requires fits { All (λ count. 56 + count ≤ data_size units) used.now }
    ensures { blocks.new ≡ seal_first volid.0 first units used.now blocks.old }
{
    let size = data_size(units);
    for (i, count) in used.iter().enumerate() {
        let number = first + u64::from(units) * i as u64;
        let at = size * i;
        seal_data(volid, number, *count, &mut blocks[at..at + size]);
    }
}
