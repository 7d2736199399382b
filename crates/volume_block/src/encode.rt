//! Writes labels, marks and data blocks. None of these functions takes memory.

ghost use Rattle.std.specs.Prelude.{◌≡◌, ◌≤◌, ◌++◌, ◌+◌, ℕ, List, length, take, drop};
ghost use Rattle.volume_block.specs.Layout.{IsUnits, data_size, block_text};
ghost use Rattle.volume_block.specs.Chunks.{ChunkText, chunk_head};
ghost use Rattle.volume_block.specs.Valid.{IsLabel, IsCount, FillPayload, HoldsChunks, ValidBlock};
ghost use Rattle.volume_block.specs.Valid.{label_fields, label_payload, label_text, mark_text};

use crate::block::BLOCK_SIZE;
use crate::layout::{
    DATA_KIND, LABEL_FIELDS_SIZE, LABEL_KIND, MARK_KIND, MARK_USED, PAYLOAD_START,
};
use crate::sealing::finish_block;
use crate::{Block, Label};
use byteorder::{BigEndian, ByteOrder};
use room_base::{CopyNo, Ssid, Volid};

/// Writes a volume's label.
pub fn encode_label(label: &Label, into: &mut [u8])
    requires allowed { IsLabel label.now }
    requires whole { length into.old ≡ 4096 }
    ensures text { into.new ≡ label_text label.now }
    ensures valid { ValidBlock into.new label.now.volid.0 0 (Block.Label label.now) }
{
    let used = LABEL_FIELDS_SIZE + label.pool_length;
    write_label_payload(label, &mut into[PAYLOAD_START..]);
    finish_block(
        LABEL_KIND,
        label.units,
        label.volid.0,
        0,
        u32::from(used),
        into,
    );
}

// Writes a label's payload.
fn write_label_payload(label: &Label, payload: &mut [u8])
    requires pool { label.now.pool_length ≤ 64 }
    requires room { 81 ≤ length payload.old }
    ensures { payload.new
        ≡ label_payload label.now ++ drop (17 + label.now.pool_length) payload.old }
{
    write_label_fields(label, payload);
    let pool = &label.pool[..label.pool_length as usize];
    let pool_start = LABEL_FIELDS_SIZE as usize;
    payload[pool_start..pool_start + pool.len()].copy_from_slice(pool);
}

// Writes a label's payload up to the length of its pool.
fn write_label_fields(label: &Label, payload: &mut [u8])
    requires { 17 ≤ length payload.old }
    ensures { payload.new ≡ label_fields label.now ++ drop 17 payload.old }
{
    BigEndian::write_u32(payload, label.cart.0);
    BigEndian::write_u32(&mut payload[4..], label.capacity);
    BigEndian::write_u64(&mut payload[8..], label.made.0);
    payload[16] = label.pool_length;
}

/// Writes a mark, behind which `count` data blocks of `units` units each stand.
pub fn encode_mark(volid: Volid, number: u64, count: u32, units: u32, into: &mut [u8])
    requires volume { 1 ≤ volid.0 }
    requires place { 1 ≤ number }
    requires allowed { IsCount count }
    requires units { IsUnits units }
    requires whole { length into.old ≡ 4096 }
    ensures text { into.new ≡ mark_text volid.0 number count units }
    ensures valid { ValidBlock into.new volid.0 number (Block.Mark count units) }
{
    BigEndian::write_u32(&mut into[PAYLOAD_START..], count);
    finish_block(MARK_KIND, units, volid.0, number, MARK_USED, into);
}

/// Makes a data block of the chunks that stand in their place and fill the first `used` bytes of
/// the payload. The bytes behind them become zeros. The block has as many units as `into`.
pub fn seal_data(volid: Volid, number: u64, used: u32, into: &mut [u8])
    requires volume { 1 ≤ volid.0 }
    requires place { 1 ≤ number }
    requires fits { 56 + used ≤ length into.old }
    requires whole { length into.old ≤ 65536 }
    ensures text { (units : ℕ) → length into.old ≡ data_size units
        → into.new ≡ block_text 0x44 units (data_size units) volid.0 number
        (take used (drop 56 into.old)) }
    ensures holds { (units : ℕ) (chunks : List ChunkText) → FillPayload units chunks used into.old
        → HoldsChunks into.new volid.0 number units chunks }
    ensures valid { (units : ℕ) (chunks : List ChunkText) → FillPayload units chunks used into.old
        → ValidBlock into.new volid.0 number (Block.Data used units) }
{
    let units = (into.len() / BLOCK_SIZE) as u32;
    finish_block(DATA_KIND, units, volid.0, number, used, into);
}

/// Writes the bytes of a chunk before those of its stream, of which there are `count`.
pub fn write_chunk_head(ssid: Ssid, copy: CopyNo, offset: u64, count: u32, into: &mut [u8])
    requires { 24 ≤ length into.old }
    ensures { into.new ≡ chunk_head ssid.0 copy.0 offset count ++ drop 24 into.old }
{
    BigEndian::write_u64(into, ssid.0);
    BigEndian::write_u32(&mut into[8..], copy.0);
    BigEndian::write_u64(&mut into[12..], offset);
    BigEndian::write_u32(&mut into[20..], count);
}
