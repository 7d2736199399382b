//! The inventory.

ghost use Rattle.std.specs.Prelude.{◌≡◌, IfOk, map};
ghost use Rattle.std.specs.Option.{option_copied};
ghost use Rattle.room_effects.specs.Plans.{Follows};
ghost use Rattle.room_media.specs.Inventory.{inventory_plan, slot_line};

use crate::drives::drive_with;
use crate::labels::{volid_or_none, volume_on};
use catalog_change::FilledSlot;
use room_base::{Items, Memory, Refusal};
use room_command::{Answer, Reply, SlotLine};
use room_disk::Store;
use room_state::RoomState;

/// Lists the slots that are filled. The disk isn't asked.
pub fn inventory<D: Store>(room: &RoomState, _store: &D) -> Reply
    ensures { Follows (inventory_plan room.now.room) result
        room.now.room room.now.room (D.view _store.now) (D.view _store.now) }
{
    match slot_lines(room) {
        Ok(lines) => Reply::Done(Answer::Slots(lines)),
        Err(Memory) => Reply::Refused(Refusal::NoMemory),
    }
}

fn slot_lines(room: &RoomState) -> Result<Items<SlotLine>, Memory>
    ensures { IfOk result
        (λ lines. lines ≡ map (slot_line room.now.room) room.now.room.catalogue.slots) }
{
    let mut lines = Vec::new(room.allocator());
    for filled in room.catalogue().slots() {
        lines.push(slot_line(room, filled))?;
    }
    Ok(Items::of(lines))
}

fn slot_line(room: &RoomState, filled: &FilledSlot) -> SlotLine
    ensures { result ≡ slot_line room.now.room filled.now }
{
    SlotLine {
        cart: filled.cart,
        drive: match drive_with(room, filled.cart) {
            Some(drive) => drive,
            None => 0,
        },
        slot: filled.slot,
        volid: volid_or_none(volume_on(room, filled.cart)),
    }
}
