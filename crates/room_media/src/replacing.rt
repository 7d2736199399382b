//! Whether the label of a cartridge may be replaced.

ghost use Rattle.std.specs.Prelude.{◌≡◌, ◌≤◌, IfSome, Option, Result, Some, Ok};
ghost use Rattle.std.specs.Option.{option_copied};
ghost use Rattle.room_base.specs.Numbers.{max_moment};
ghost use Rattle.room_base.specs.declared.numbers.Ssid.{Ssid};
ghost use Rattle.media_db.specs.Rows.{volume_on};
ghost use Rattle.room_effects.specs.View.{IsBetweenCommands};
ghost use Rattle.room_effects.specs.Checked.{ComesTo, unless};
ghost use Rattle.room_base.specs.declared.refusal.Refusal.TheVariants.{Strange};
ghost use Rattle.room_media.specs.Labelling.{IsAsked, is_known_label, label_was, may_replace};
ghost use Rattle.room_media.specs.Labelling.{old_label};

use crate::labels::volume_on;
use dep_chain::may_label;
use media_db::VolumeRec;
use room_base::{Cart, Memory, Moment, Refusal, Volid};
use room_checks::open_sets;
use room_state::RoomState;
use volume_store::Found;

/// The volume that the label of a cartridge names, 0 where there is none, if it may be replaced.
pub(crate) fn old_label(
    room: &RoomState,
    m: Moment,
    cart: Cart,
    found: Found,
) -> Result<Volid, Refusal>
    requires moment { m.0 ≤ max_moment }
    requires between { IsBetweenCommands room.now.room }
    ensures { (asked : Option (Result (Unit {0}) Ssid))
        × IfSome (volume_on cart.0 room.now.room.catalogue.volumes) (IsAsked m asked room.now.room)
        × ComesTo (old_label (volume_on cart.0 room.now.room.catalogue.volumes) found asked)
        result }
{
    match label_was(volume_on(room, cart), found) {
        Ok(was) => match may_replace(room, m, cart) {
            Ok(()) => Ok(was),
            Err(refusal) => Err(refusal),
        },
        Err(refusal) => Err(refusal),
    }
}

fn label_was(volume: Option<&VolumeRec>, found: Found) -> Result<Volid, Refusal>
    ensures { result ≡ label_was (option_copied volume.entry) found }
{
    match found {
        Found::Blank => Ok(Volid(0)),
        Found::Closed => Ok(Volid(0)),
        Found::Damaged(_) => match volume {
            Some(_) => Ok(Volid(0)),
            None => Err(Refusal::DamagedBlock {
                volid: Volid(0),
                block: 0,
            }),
        },
        Found::Labelled(label) => known_label(volume, label.volid),
    }
}

fn known_label(volume: Option<&VolumeRec>, volid: Volid) -> Result<Volid, Refusal>
    ensures { result ≡ unless (is_known_label (option_copied volume.entry) volid)
        (Strange volid) (Ok volid) }
{
    match volume {
        Some(volume) if volid.0 == volume.volid.0 || volid.0 == volume.was.0 => Ok(volid),
        Some(_) => Err(Refusal::Strange { volid }),
        None => Err(Refusal::Strange { volid }),
    }
}

// Whether no set is still needed that lies on the volume of a cartridge alone.
fn may_replace(room: &RoomState, m: Moment, cart: Cart) -> Result<(), Refusal>
    requires moment { m.0 ≤ max_moment }
    requires between { IsBetweenCommands room.now.room }
    ensures { (asked : Option (Result (Unit {0}) Ssid))
        × IfSome (volume_on cart.0 room.now.room.catalogue.volumes) (IsAsked m asked room.now.room)
        × (result ≡ may_replace (volume_on cart.0 room.now.room.catalogue.volumes) asked) }
{
    match volume_on(room, cart) {
        Some(volume) => may_forget(room, m, volume),
        None => Ok(()),
    }
}

fn may_forget(room: &RoomState, m: Moment, volume: &VolumeRec) -> Result<(), Refusal>
    requires moment { m.0 ≤ max_moment }
    requires between { IsBetweenCommands room.now.room }
    ensures { (asked : Option (Result (Unit {0}) Ssid)) × IsAsked m asked room.now.room volume.now
        × (result ≡ may_replace (Some volume.now) asked) }
{
    match open_sets(room) {
        Ok(sets) => match may_label(room.catalogue().db(), sets.as_slice(), volume.volid, m) {
            Ok(()) => Ok(()),
            Err(ssid) => Err(Refusal::Needed { ssid }),
        },
        Err(Memory) => Err(Refusal::NoMemory),
    }
}
