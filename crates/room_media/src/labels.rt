//! What the label of a cartridge is beside its volume on record.

ghost use Rattle.std.specs.Prelude.{◌≡◌, Ok};
ghost use Rattle.std.specs.Option.{option_copied};
ghost use Rattle.media_db.specs.Rows.{volume_on};
ghost use Rattle.room_media.specs.Mounting.{found_own, mounted_own, no_label, own_label};
ghost use Rattle.room_media.specs.Mounting.{volid_or_none};

use media_db::VolumeRec;
use room_base::{Cart, Refusal, Volid};
use room_state::RoomState;
use volume_store::{Found, MountFault, Volume};

/// The volume on record of a cartridge.
pub(crate) fn volume_on(room: &RoomState, cart: Cart) -> Option<&VolumeRec>
    ensures { option_copied result ≡ volume_on cart.0 room.now.room.catalogue.volumes }
{
    room.catalogue().db().volume_at(cart)
}

/// Whether the label that was found on a cartridge is that of its volume.
pub(crate) fn found_own(volume: Option<&VolumeRec>, cart: Cart, found: Found) -> Result<(), Refusal>
    ensures { result ≡ found_own (option_copied volume.entry) cart found }
{
    match found {
        Found::Blank => Err(no_label(volume, cart)),
        Found::Closed => Err(no_label(volume, cart)),
        Found::Damaged(_) => Err(Refusal::DamagedBlock {
            volid: volid_or_none(volume),
            block: 0,
        }),
        Found::Labelled(label) => own_label(volume, label.volid),
    }
}

/// The volume that mounting a cartridge gave, if it is the one on record.
pub(crate) fn mounted_own(
    volume: Option<&VolumeRec>,
    cart: Cart,
    answer: Result<Volume, MountFault>,
) -> Result<Volume, Refusal>
    ensures { result ≡ mounted_own (option_copied volume.entry) cart answer }
{
    match answer {
        Ok(mounted) => match own_label(volume, mounted.label.volid) {
            Ok(()) => Ok(mounted),
            Err(refusal) => Err(refusal),
        },
        Err(MountFault::Unlabelled) => Err(no_label(volume, cart)),
        Err(MountFault::BadBlock { number }) => Err(Refusal::DamagedBlock {
            volid: volid_or_none(volume),
            block: number,
        }),
        Err(MountFault::Failed) => Err(no_label(volume, cart)),
    }
}

fn no_label(volume: Option<&VolumeRec>, cart: Cart) -> Refusal
    ensures { result ≡ no_label (option_copied volume.entry) cart }
{
    match volume {
        Some(volume) => Refusal::LabelPending {
            volid: volume.volid,
            found: Volid(0),
        },
        None => Refusal::Unlabelled { cart },
    }
}

/// The number of a volume on record, 0 for none.
pub(crate) fn volid_or_none(volume: Option<&VolumeRec>) -> Volid
    ensures { result ≡ volid_or_none (option_copied volume.entry) }
{
    match volume {
        Some(volume) => volume.volid,
        None => Volid(0),
    }
}

fn own_label(volume: Option<&VolumeRec>, volid: Volid) -> Result<(), Refusal>
    ensures { result ≡ own_label (option_copied volume.entry) volid }
{
    match volume {
        Some(volume) if volid.0 == volume.volid.0 => Ok(()),
        Some(volume) if volid.0 == volume.was.0 => Err(Refusal::LabelPending {
            volid: volume.volid,
            found: volume.was,
        }),
        Some(_) => Err(Refusal::Strange { volid }),
        None => Err(Refusal::Strange { volid }),
    }
}
