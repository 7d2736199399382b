//! Volumes as bytes.

ghost use Rattle.std.specs.Prelude.{◌≡◌, ◌==◌, ◌≤◌, ℕ, List, IfOk};
ghost use Rattle.std.specs.List.{list_any};
ghost use Rattle.catalog_spelling.specs.Reading.{Gives};
ghost use Rattle.catalog_change.specs.Catalogues.{max_number, volume_cart};
ghost use Rattle.media_db.specs.Rows.{AreVolumes, volid_of};
ghost use Rattle.catalog_spelling.specs.Media.{is_free, is_free_cart, is_next_drawn, volume_at};
ghost use Rattle.catalog_spelling.specs.Media.{volumes_at};

use crate::item::{ReadItem, read_items};
use crate::reading::MAX_NUMBER;
use crate::slots::MAX_CART;
use catalog_text::{FieldFault, allow, read_name, read_u32, read_u32_within, read_u64};
use media_db::VolumeRec;
use room_base::{Cart, Items, Volid};
use std::alloc::Global;

/// The least and the greatest capacity of a volume, in blocks of whatever size.
const MIN_CAPACITY: u32 = 67;

const MAX_CAPACITY: u32 = 1_000_000;

/// Volumes that ascend, below the next one, on different cartridges.
#[derive(Clone, Copy)]
struct VolumeReader {
    next_volid: u64,
}

impl ReadItem for VolumeReader {
    type Item = VolumeRec;

    const LEAST: usize = 26;

    ghost at = { λ reader. volume_at reader.next_volid };

    fn read<'a>(
        &self,
        alloc: Global,
        before: &[VolumeRec],
        bytes: &'a [u8],
    ) -> Result<(VolumeRec, &'a [u8]), FieldFault> {
        read_volume(alloc, self.next_volid, before, bytes)
    }
}

/// A list of volumes.
#[tactic(auto, unfolding(catalog_spelling::specs::Lists::list_at))]
fn read_volumes(
    alloc: Global,
    next_volid: u64,
    bytes: &[u8],
) -> Result<(Items<VolumeRec>, &[u8]), FieldFault>
    ensures { Gives (λ x. (x.0, x.1.now)) result (volumes_at next_volid bytes.now) }
{
    let (count, rest) = read_u32_within(0, u32::MAX, bytes)?;
    read_items(&VolumeReader { next_volid }, alloc, count as usize, rest)
}

/// Such a list, in the order of the volids.
pub(crate) fn read_listed_volumes(
    alloc: Global,
    next_volid: u64,
    bytes: &[u8],
) -> Result<(Items<VolumeRec>, &[u8]), FieldFault>
    ensures read { Gives (λ x. (x.0, x.1.now)) result (volumes_at next_volid bytes.now) }
    ensures order { IfOk result (λ x. AreVolumes x.0) }
{
    match read_volumes(alloc, next_volid, bytes) {
        Ok((volumes, rest)) => Ok((volumes, rest)),
        Err(fault) => Err(fault),
    }
}

#[tactic(auto, unfolding(catalog_spelling::specs::Media::volume_at))]
fn read_volume<'a>(
    alloc: Global,
    next_volid: u64,
    before: &[VolumeRec],
    bytes: &'a [u8],
) -> Result<(VolumeRec, &'a [u8]), FieldFault>
    ensures { Gives (λ x. (x.0, x.1.now)) result (volume_at next_volid before.now bytes.now) }
{
    let (volid, at_cart) = read_u64(bytes)?;
    allow(is_next_volid(next_volid, before, volid), bytes)?;
    let (cart, rest) = read_u32(at_cart)?;
    allow(is_free_cart(before, cart), at_cart)?;
    let (pool, rest) = read_name(alloc, 64, rest)?;
    let (capacity, rest) = read_u32_within(MIN_CAPACITY, MAX_CAPACITY, rest)?;
    let (was, rest) = read_u64(rest)?;
    let volume = VolumeRec {
        volid: Volid(volid),
        cart: Cart(cart),
        pool,
        capacity,
        was: Volid(was),
    };
    Ok((volume, rest))
}

fn is_next_volid(next_volid: u64, before: &[VolumeRec], volid: u64) -> bool
    ensures { result ≡ is_next_drawn max_number next_volid volid_of before.now volid }
{
    1 <= volid
        && (volid < next_volid || next_volid == MAX_NUMBER)
        && match before.last() {
            Some(last) => last.volid.0 < volid,
            None => true,
        }
}

fn is_free_cart(before: &[VolumeRec], cart: u32) -> bool
    ensures { result ≡ is_free_cart volume_cart before.now cart }
{
    1 <= cart && cart <= MAX_CART && is_free(before, cart)
}

// No item is on it.
fn is_free(before: &[VolumeRec], cart: u32) -> bool
    ensures { result ≡ is_free volume_cart before.now cart }
{
    !is_taken(before, cart)
}

fn is_taken(before: &[VolumeRec], cart: u32) -> bool
    ensures { result ≡ list_any (λ volume. volume.cart.0 == cart) before.now }
{
    before.iter().any(|volume| volume.cart.0 == cart)
}
