//! Volumes that are laid on cartridges, in place of those that lay there.

ghost use Rattle.std.specs.Prelude.{◌≡◌, ◌+◌, ◌<◌, ◌≤◌, ◌&&◌, ◌==◌, not};
ghost use Rattle.std.specs.List.{list_any};
ghost use Rattle.media_db.specs.Edits.{has_copy_if_complete, is_complete, is_done, is_done_on};
ghost use Rattle.media_db.specs.Edits.{without_copies_on};
ghost use Rattle.media_db.specs.Rows.{put_volume, volume_on};
ghost use Rattle.room_catalog.specs.Changing.{forget_off, forget_row_off, records_off, sets_off};
ghost use Rattle.room_catalog.specs.Changing.{volumes_off};

use client_index::ClientIndex;
use media_db::{CopyState, MediaDb, Record, RecordState, Section, SetCopy, VolumeRec};
use room_base::Volid;

/// Puts a volume on record. The volume on its cartridge goes, if there is one, with the done copies
/// that have a section there, and with the complete records that have no done copy then and their
/// indexes. There is room, and no memory is taken.
pub(crate) fn lay_volume(db: &mut MediaDb, index: &mut ClientIndex, volume: VolumeRec)
    requires { 0 < db.old.volume_room }
    ensures volumes { db.new.volumes
        ≡ put_volume volume (volumes_off (volume_on volume.cart.0 db.old.volumes) db.old.volumes) }
    ensures records { db.new.records
        ≡ records_off (volume_on volume.cart.0 db.old.volumes) db.old.records }
    ensures sets { index.new.sets
        ≡ sets_off (volume_on volume.cart.0 db.old.volumes) db.old.records index.old.sets }
    ensures volume_room { db.old.volume_room ≤ db.new.volume_room + 1 }
    ensures record_room { db.old.record_room ≤ db.new.record_room }
    ensures index_room { index.old.room ≤ index.new.room }
{
    if let Some(gone) = db.volume_at(volume.cart) {
        let gone = gone.volid;
        forget_lost(index, db.records(), gone);
        db.drop_copies_on(gone);
        db.drop_volume(gone);
    }
    db.put_volume(volume);
}

// Forgets the indexes of the records that go with their last done copy on a volume.
fn forget_lost(index: &mut ClientIndex, records: &[Record], gone: Volid)
    ensures sets { index.new.sets ≡ forget_off gone.0 records.now index.old.sets }
    ensures room { index.old.room ≤ index.new.room }
{
    for row in records {
        forget_if_lost(index, row, gone);
    }
}

// Forgets the index of the record, if it goes.
fn forget_if_lost(index: &mut ClientIndex, row: &Record, gone: Volid)
    ensures sets { index.new.sets ≡ forget_row_off gone.0 row.now index.old.sets }
    ensures room { index.old.room ≤ index.new.room }
{
    if !keeps_copy(row, gone) {
        index.forget(row.ssid);
    }
}

// A record that isn't complete, or has a done copy that lies elsewhere.
fn keeps_copy(row: &Record, gone: Volid) -> bool
    ensures { result ≡ has_copy_if_complete (without_copies_on gone.0 row.now) }
{
    !is_complete(row.state) || has_done_off(row.copies.as_slice(), gone)
}

fn is_complete(state: RecordState) -> bool
    ensures { result ≡ is_complete state }
{
    match state {
        RecordState::Begun | RecordState::Aborted => false,
        RecordState::Complete => true,
    }
}

// One of the copies is done, and has no section on the volume.
fn has_done_off(copies: &[SetCopy], gone: Volid) -> bool
    ensures { result ≡ list_any (λ copy. not (is_done_on gone.0 copy) && is_done copy.state)
        copies.now }
{
    copies
        .iter()
        .any(|copy| !is_done_on(copy, gone) && is_done(copy.state))
}

fn is_done(state: CopyState) -> bool
    ensures { result ≡ is_done state }
{
    match state {
        CopyState::Begun => false,
        CopyState::Done => true,
    }
}

fn is_done_on(copy: &SetCopy, gone: Volid) -> bool
    ensures { result ≡ is_done_on gone.0 copy.now }
{
    is_done(copy.state) && has_section_on(copy.sections.as_slice(), gone)
}

fn has_section_on(sections: &[Section], gone: Volid) -> bool
    ensures { result ≡ list_any (λ section. section.volid.0 == gone.0) sections.now }
{
    sections.iter().any(|section| section.volid.0 == gone.0)
}
