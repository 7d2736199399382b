//! Which drive has a cartridge, and the cartridge of a slot that is in none.

ghost use Rattle.std.specs.Prelude.{◌≡◌, IfOk, None};
ghost use Rattle.volume_store.specs.Writes.{IsCart};
ghost use Rattle.room_effects.specs.Needs.{IsInNoDrive};
ghost use Rattle.room_media.specs.Slots.{drive_with, free_cart};

use room_base::{Cart, Refusal};
use room_state::RoomState;

/// The drive that has the volume of a cartridge.
pub(crate) fn drive_with(room: &RoomState, cart: Cart) -> Option<u8>
    ensures drive { result ≡ drive_with cart.0 room.now.room }
    ensures none { result ≡ None → IsInNoDrive cart.0 room.now.room }
{
    let _is_open = room.is_open();
    room.drive_with(cart)
}

/// The cartridge of a slot, if it has one that is in no drive.
pub(crate) fn free_cart(room: &RoomState, slot: u8) -> Result<Cart, Refusal>
    ensures cart { result ≡ free_cart slot room.now.room }
    ensures free { IfOk result (λ cart. IsCart cart.0 × IsInNoDrive cart.0 room.now.room) }
{
    let catalogue = room.catalogue();
    let _number = catalogue.number();
    match catalogue.cart_in(slot) {
        Some(cart) => match drive_with(room, cart) {
            Some(drive) => Err(Refusal::Mounted { drive }),
            None => Ok(cart),
        },
        None => Err(Refusal::SlotEmpty { slot }),
    }
}
