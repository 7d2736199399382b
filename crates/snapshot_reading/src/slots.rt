//! Slots as bytes.

ghost use Rattle.std.specs.Prelude.{◌≡◌, ◌==◌, ◌≤◌, ℕ, List};
ghost use Rattle.std.specs.List.{list_any};
ghost use Rattle.catalog_spelling.specs.Reading.{Gives};
ghost use Rattle.catalog_change.specs.Catalogues.{slot_cart, slot_number};
ghost use Rattle.catalog_spelling.specs.Media.{count_if_at, is_free, is_free_cart, is_next_slot};
ghost use Rattle.catalog_spelling.specs.Media.{slot_at, slots_at};

use crate::item::{ReadItem, read_items};
use catalog_change::FilledSlot;
use catalog_text::{FieldFault, allow, read_u8, read_u32};
use room_base::{Cart, Items};
use std::alloc::Global;

const MAX_SLOT: u8 = 32;

/// The greatest cartridge.
pub(crate) const MAX_CART: u32 = 256;

/// Slots that ascend, on different cartridges.
struct SlotReader;

impl ReadItem for SlotReader {
    type Item = FilledSlot;

    const LEAST: usize = 5;

    ghost at = { λ self. slot_at };

    fn read<'a>(
        &self,
        _alloc: Global,
        before: &[FilledSlot],
        bytes: &'a [u8],
    ) -> Result<(FilledSlot, &'a [u8]), FieldFault> {
        read_slot(before, bytes)
    }
}

/// A list of slots, whose count is allowed where this holds.
#[tactic(auto, unfolding(catalog_spelling::specs::Lists::list_at, catalog_spelling::specs::Media::count_if_at))]
pub(crate) fn read_slots(
    alloc: Global,
    allowed: bool,
    bytes: &[u8],
) -> Result<(Items<FilledSlot>, &[u8]), FieldFault>
    ensures { Gives (λ x. (x.0, x.1.now)) result (slots_at allowed bytes.now) }
{
    let (count, rest) = read_u8(bytes)?;
    allow(allowed, bytes)?;
    read_items(&SlotReader, alloc, usize::from(count), rest)
}

#[tactic(auto, unfolding(catalog_spelling::specs::Media::slot_at))]
fn read_slot<'a>(
    before: &[FilledSlot],
    bytes: &'a [u8],
) -> Result<(FilledSlot, &'a [u8]), FieldFault>
    ensures { Gives (λ x. (x.0, x.1.now)) result (slot_at before.now bytes.now) }
{
    let (slot, at_cart) = read_u8(bytes)?;
    allow(is_next_slot(before, slot), bytes)?;
    let (cart, rest) = read_u32(at_cart)?;
    allow(is_free_cart(before, cart), at_cart)?;
    let filled = FilledSlot {
        slot,
        cart: Cart(cart),
    };
    Ok((filled, rest))
}

fn is_next_slot(before: &[FilledSlot], slot: u8) -> bool
    ensures { result ≡ is_next_slot before.now slot }
{
    1 <= slot
        && slot <= MAX_SLOT
        && match before.last() {
            Some(last) => last.slot < slot,
            None => true,
        }
}

fn is_free_cart(before: &[FilledSlot], cart: u32) -> bool
    ensures { result ≡ is_free_cart slot_cart before.now cart }
{
    1 <= cart && cart <= MAX_CART && is_free(before, cart)
}

// No item is on it.
fn is_free(before: &[FilledSlot], cart: u32) -> bool
    ensures { result ≡ is_free slot_cart before.now cart }
{
    !is_taken(before, cart)
}

fn is_taken(before: &[FilledSlot], cart: u32) -> bool
    ensures { result ≡ list_any (λ filled. filled.cart.0 == cart) before.now }
{
    before.iter().any(|filled| filled.cart.0 == cart)
}
