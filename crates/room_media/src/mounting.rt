//! Mounting.

ghost use Rattle.std.specs.Prelude.{◌≡◌, IfOk, IsTrue, None, Result};
ghost use Rattle.std.specs.Option.{option_copied};
ghost use Rattle.media_db.specs.Rows.{volume_on};
ghost use Rattle.volume_store.specs.Writes.{IsCart};
ghost use Rattle.volume_store.specs.declared.commit.Volume.{Volume};
ghost use Rattle.volume_store.specs.declared.label.Found.{Found};
ghost use Rattle.volume_store.specs.declared.marks.MountFault.{MountFault};
ghost use Rattle.slot_changer.specs.Drives.{IsDrive};
ghost use Rattle.room_effects.specs.View.{held_in};
ghost use Rattle.room_effects.specs.Needs.{IsInNoDrive};
ghost use Rattle.room_effects.specs.Checked.{ComesTo};
ghost use Rattle.room_effects.specs.Plans.{Plan, Follows};
ghost use Rattle.room_media.specs.Mounting.{IsMountPlan, cart_plan, is_drive, mount_checks};
ghost use Rattle.room_media.specs.Mounting.{IsLookedAt, volume_plan};

use crate::drives::free_cart;
use crate::labels::{found_own, mounted_own, volume_on};
use crate::slots::is_slot;
use room_base::{Cart, Memory, Refusal};
use room_checks::malformed;
use room_command::{Answer, Reply};
use room_disk::Store;
use room_state::RoomState;
use slot_changer::MAX_DRIVE;

/// Puts the volume in a slot into a drive.
pub fn mount<D: Store>(room: &mut RoomState, store: &mut D, slot: u8, drive: u8) -> Reply
    requires { IsTrue room.old.room.is_open }
    ensures { (plan : Plan) × IsMountPlan slot drive room.old.room plan × Follows plan result
        room.old.room room.new.room (D.view store.old) (D.view store.new) }
{
    match mount_checks(room, slot, drive) {
        Ok(cart) => mount_cart(room, store, drive, cart),
        Err(refusal) => Reply::Refused(refusal),
    }
}

fn mount_checks(room: &RoomState, slot: u8, drive: u8) -> Result<Cart, Refusal>
    ensures checks { ComesTo (mount_checks slot drive room.now.room) result }
    ensures drive { IfOk result (λ cart. IsDrive drive × (held_in room.now.room drive ≡ None)) }
    ensures cart { IfOk result (λ cart. IsCart cart.0 × IsInNoDrive cart.0 room.now.room) }
{
    if !is_slot(slot) {
        return Err(malformed(room.allocator(), "slot"));
    }
    if !is_drive(drive) {
        return Err(malformed(room.allocator(), "drive"));
    }
    match free_cart(room, slot) {
        Ok(cart) => match room.drives().volume(drive) {
            Some(volume) => Err(Refusal::DriveBusy {
                drive,
                volid: volume.label.volid,
            }),
            None => Ok(cart),
        },
        Err(refusal) => Err(refusal),
    }
}

pub(crate) fn is_drive(drive: u8) -> bool
    ensures { result ≡ is_drive drive }
{
    1 <= drive && drive <= MAX_DRIVE
}

// Looks at the label of a cartridge, and goes on where it is that of its volume.
fn mount_cart<D: Store>(room: &mut RoomState, store: &mut D, drive: u8, cart: Cart) -> Reply
    requires opens { IsTrue room.old.room.is_open }
    requires drive { IsDrive drive }
    requires empty { held_in room.old.room drive ≡ None }
    requires cart { IsCart cart.0 }
    requires in_no_drive { IsInNoDrive cart.0 room.old.room }
    ensures { (found : Found) × (answer : Result Volume MountFault)
        × IsLookedAt cart answer × Follows (cart_plan drive found answer
        (volume_on cart.0 room.old.room.catalogue.volumes) cart) result
        room.old.room room.new.room (D.view store.old) (D.view store.new) }
{
    match room.look_for_label(store, cart) {
        Ok(found) => match found_own(volume_on(room, cart), cart, found) {
            Ok(()) => mount_volume(room, store, drive, cart),
            Err(refusal) => Reply::Refused(refusal),
        },
        Err(fault) => Reply::Refused(fault),
    }
}

// Looks at the volume of a cartridge, and puts it in where it is the one on record.
fn mount_volume<D: Store>(room: &mut RoomState, store: &mut D, drive: u8, cart: Cart) -> Reply
    requires opens { IsTrue room.old.room.is_open }
    requires drive { IsDrive drive }
    requires empty { held_in room.old.room drive ≡ None }
    requires cart { IsCart cart.0 }
    requires in_no_drive { IsInNoDrive cart.0 room.old.room }
    ensures { (answer : Result Volume MountFault)
        × IsLookedAt cart answer × Follows (volume_plan drive answer
        (volume_on cart.0 room.old.room.catalogue.volumes) cart) result
        room.old.room room.new.room (D.view store.old) (D.view store.new) }
{
    let _is_open = room.is_open();
    match room.look_for_volume(store, cart) {
        Ok(answer) => match mounted_own(volume_on(room, cart), cart, answer) {
            Ok(volume) => match room.put_in(drive, volume) {
                Ok(()) => Reply::Done(Answer::Mounted {
                    drive,
                    volid: volume.label.volid,
                }),
                Err(Memory) => Reply::Refused(Refusal::NoMemory),
            },
            Err(refusal) => Reply::Refused(refusal),
        },
        Err(fault) => Reply::Refused(fault),
    }
}
