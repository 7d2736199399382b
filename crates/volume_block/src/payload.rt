//! Reads the payloads of labels and marks.

ghost use Rattle.std.specs.Prelude.{◌≡◌, ◌≤◌, ◌-◌, ◌++◌, ◌↔◌, ℕ, length, replicate, IsTrue};
ghost use Rattle.std.specs.Prelude.{MatchOption};
ghost use Rattle.volume_block.specs.Layout.{IsUnits};
ghost use Rattle.volume_block.specs.Valid.{HasRanges};
ghost use Rattle.volume_block.specs.Why.{IsCountIn, IsLabelIn, FitsPool};

use crate::block::MAX_FILE_BLOCKS;
use crate::label::{Label, MAX_CAPACITY, MAX_CART, min_capacity};
use crate::layout::{LABEL_FIELDS_SIZE, MARK_USED};
use byteorder::{BigEndian, ByteOrder};
use room_base::{Cart, MAX_MOMENT, Moment, Volid, name_text};

/// How many data blocks a mark with this payload counts.
pub(crate) fn mark_count(payload: &[u8]) -> Option<u32>
    ensures { MatchOption result ((count : ℕ) → ¬ IsCountIn payload.now count)
        (IsCountIn payload.now) }
{
    if payload.len() != MARK_USED as usize {
        return None;
    }
    let count = BigEndian::read_u32(payload);
    if count == 0 || count > MAX_FILE_BLOCKS {
        None
    } else {
        Some(count)
    }
}

/// What a label of this volume of so many units with this payload says.
pub(crate) fn label_in(units: u32, volid: Volid, payload: &[u8]) -> Option<Label>
    requires units { IsUnits units }
    requires volume { 1 ≤ volid.0 }
    ensures { MatchOption result ((label : Label) → ¬ IsLabelIn units volid.0 payload.now label)
        (IsLabelIn units volid.0 payload.now) }
{
    let pool_place = LABEL_FIELDS_SIZE as usize;
    if payload.len() < pool_place {
        return None;
    }
    let pool_length = payload[16];
    let pool = padded_pool(pool_length, &payload[pool_place..])?;
    let label = Label {
        volid,
        cart: Cart(BigEndian::read_u32(payload)),
        capacity: BigEndian::read_u32(&payload[4..]),
        made: Moment(BigEndian::read_u64(&payload[8..])),
        pool_length,
        pool,
        units,
    };
    if has_ranges(&label) {
        Some(label)
    } else {
        None
    }
}

// A pool's name with zeros behind it, where its length is the one that is told.
fn padded_pool(pool_length: u8, name: &[u8]) -> Option<[u8; 64]>
    ensures { MatchOption result (¬ FitsPool pool_length name.now)
        (λ pool. FitsPool pool_length name.now
        × (pool ≡ name.now ++ replicate (64 - pool_length) 0)) }
{
    if name.len() != usize::from(pool_length) || pool_length > 64 {
        return None;
    }
    let mut pool = [0u8; 64];
    pool[..name.len()].copy_from_slice(name);
    Some(pool)
}

fn has_ranges(label: &Label) -> bool
    requires pool { label.now.pool_length ≤ 64 }
    requires units { IsUnits label.now.units }
    ensures { IsTrue result ↔ HasRanges label.now }
{
    let name = &label.pool[..label.pool_length as usize];
    (1..=MAX_CART).contains(&label.cart.0)
        && (min_capacity(label.units)..=MAX_CAPACITY).contains(&label.capacity)
        && label.made <= MAX_MOMENT
        && label.pool_length >= 1
        && name_text(name).is_some()
}
