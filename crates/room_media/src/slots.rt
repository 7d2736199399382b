//! Loading and ejecting.

ghost use Rattle.std.specs.Prelude.{◌≡◌, ◌≤◌, IsTrue};
ghost use Rattle.std.specs.Option.{option_copied};
ghost use Rattle.room_base.specs.Numbers.{max_moment};
ghost use Rattle.room_effects.specs.Checked.{ComesTo};
ghost use Rattle.room_effects.specs.Plans.{Follows};
ghost use Rattle.room_media.specs.Slots.{eject_checks, eject_plan, is_cart, is_slot, load_checks};
ghost use Rattle.room_media.specs.Slots.{load_plan, slot_with};

use crate::drives::free_cart;
use catalog_change::{Change, FilledSlot};
use room_base::{Cart, Moment, Refusal};
use room_checks::{exists, in_use, malformed};
use room_command::{Answer, Reply};
use room_disk::Store;
use room_entering::enter_alone;
use room_state::RoomState;

/// There are so many slots.
const MAX_SLOT: u8 = 32;

/// There are so many cartridges.
const MAX_CART: u32 = 256;

/// Puts a cartridge into a slot.
pub fn load<D: Store>(room: &mut RoomState, store: &mut D, m: Moment, slot: u8, cart: Cart) -> Reply
    requires opens { IsTrue room.old.room.is_open }
    requires moment { m.0 ≤ max_moment }
    ensures { Follows (load_plan m slot cart room.old.room) result
        room.old.room room.new.room (D.view store.old) (D.view store.new) }
{
    match load_checks(room, slot, cart) {
        Ok(()) => enter_alone(room, store, m, Change::Loaded { slot, cart }, Answer::Empty),
        Err(refusal) => Reply::Refused(refusal),
    }
}

fn load_checks(room: &RoomState, slot: u8, cart: Cart) -> Result<(), Refusal>
    ensures { ComesTo (load_checks slot cart.0 room.now.room) result }
{
    let alloc = room.allocator();
    if !is_slot(slot) {
        return Err(malformed(alloc, "slot"));
    }
    if !is_cart(cart) {
        return Err(malformed(alloc, "cart"));
    }
    if room.catalogue().cart_in(slot).is_some() {
        return Err(exists(alloc, "slot", u64::from(slot)));
    }
    match slot_with(room.catalogue().slots(), cart) {
        Some(filled) => Err(in_use(alloc, "slot", u64::from(filled.slot))),
        None => Ok(()),
    }
}

/// Takes the cartridge of a slot away.
pub fn eject<D: Store>(room: &mut RoomState, store: &mut D, m: Moment, slot: u8) -> Reply
    requires opens { IsTrue room.old.room.is_open }
    requires moment { m.0 ≤ max_moment }
    ensures { Follows (eject_plan m slot room.old.room) result
        room.old.room room.new.room (D.view store.old) (D.view store.new) }
{
    match eject_checks(room, slot) {
        Ok(_) => enter_alone(room, store, m, Change::Ejected { slot }, Answer::Empty),
        Err(refusal) => Reply::Refused(refusal),
    }
}

fn eject_checks(room: &RoomState, slot: u8) -> Result<Cart, Refusal>
    ensures { ComesTo (eject_checks slot room.now.room) result }
{
    if !is_slot(slot) {
        return Err(malformed(room.allocator(), "slot"));
    }
    free_cart(room, slot)
}

pub(crate) fn is_slot(slot: u8) -> bool
    ensures { result ≡ is_slot slot }
{
    1 <= slot && slot <= MAX_SLOT
}

fn is_cart(cart: Cart) -> bool
    ensures { result ≡ is_cart cart.0 }
{
    1 <= cart.0 && cart.0 <= MAX_CART
}

// The slot that has a cartridge.
fn slot_with(slots: &[FilledSlot], cart: Cart) -> Option<&FilledSlot>
    ensures { option_copied result ≡ slot_with cart.0 slots.now }
{
    slots.iter().find(|filled| filled.cart.0 == cart.0)
}
