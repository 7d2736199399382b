//! Writes slots, volumes and records.

ghost use Rattle.std.specs.Prelude.{◌≡◌, ◌≤◌, ◌<◌, ◌^◌, List, ℕ, length};
ghost use Rattle.std.specs.Io.Iter.{u64_saturate};
ghost use Rattle.std.specs.List.{AllByRecursion};
ghost use Rattle.catalog_change.specs.Catalogues.{AreSlots};
ghost use Rattle.catalog_change.specs.Changes.{AreEntries};
ghost use Rattle.catalog_change.specs.Resources.{IsShortName};
ghost use Rattle.catalog_spelling.specs.Entries.{index_text, FitsEntry};
ghost use Rattle.catalog_text.specs.Writing.{HasRoom, Appends};
ghost use Rattle.client_index.specs.Sets.{entries_or_none};
ghost use Rattle.media_db.specs.Streams.{head_of};
ghost use Rattle.save_stream.specs.Heads.{head_of_parts};
ghost use Rattle.catalog_spelling.specs.Fits.{FitsCopy, FitsNumbers, FitsRecord, FitsRow, FitsVolume};
ghost use Rattle.catalog_spelling.specs.Snapshots.{kept_index};
ghost use Rattle.catalog_spelling.specs.Media.{copies_text, copy_byte, copy_text, slot_text};
ghost use Rattle.catalog_spelling.specs.Media.{slots_text, volume_text, volumes_text};
ghost use Rattle.catalog_spelling.specs.Records.{index_if_text, listed_text, record_text, state_byte};
ghost use Rattle.catalog_spelling.specs.Records.{fields_text, state_text};
ghost use Rattle.snapshot_text.specs.Writing.{CanWriteIndex, CanWriteRow, HasSections, listed_by};
ghost use Rattle.snapshot_text.specs.Writing.{rows_by};

use crate::put_item::{PutItem, items_length, put_items, put_list};
use catalog_change::FilledSlot;
use catalog_text::{
    Entries, Sections, items_length as entries_length, put_bytes, put_flag, put_list_u32, put_text,
    put_u8, put_u32, put_u64,
};
use client_index::ClientIndex;
use media_db::{CopyState, MediaDb, Record, RecordState, SetCopy, VolumeRec};
use room_base::Ssid;
use save_stream::{HeadParts, IndexEntry, encode_head_into, head_length};

struct Slots;

impl PutItem for Slots {
    type Item = FilledSlot;

    ghost text = { λ self. slot_text };

    ghost Is = { λ self filled. Unit {0} };

    fn put(&self, filled: &FilledSlot, into: &mut Vec<u8>) {
        put_slot(into, *filled)
    }

    #[tactic(auto, using(crate::proofs::Lengths::length_slot))]
    fn length(&self, _filled: &FilledSlot) -> u64 {
        5
    }
}

fn put_slot(into: &mut Vec<u8>, filled: FilledSlot)
    requires { HasRoom into.old (slot_text filled) }
    ensures { Appends into.old into.new (slot_text filled) }
{
    put_u8(into, filled.slot);
    put_u32(into, filled.cart.0);
}

/// Appends slots behind one byte of count.
#[tactic(auto, using(snapshot_laws::proofs::SlotCounts::slots_count, crate::proofs::CanWrite::slots_any))]
pub(crate) fn put_slots(into: &mut Vec<u8>, slots: &[FilledSlot])
    requires allowed { AreSlots slots.now }
    requires room { HasRoom into.old (slots_text slots.now) }
    ensures { Appends into.old into.new (slots_text slots.now) }
{
    put_u8(into, slots.len() as u8);
    put_items(&Slots, slots, into);
}

struct Volumes;

impl PutItem for Volumes {
    type Item = VolumeRec;

    ghost text = { λ self. volume_text };

    ghost Is = { λ self volume. IsShortName volume.pool };

    ghost Fits = { λ self. FitsVolume };

    fn put(&self, volume: &VolumeRec, into: &mut Vec<u8>) {
        put_volume(into, volume)
    }

    #[tactic(auto, using(crate::proofs::Lengths::length_volume))]
    fn length(&self, volume: &VolumeRec) -> u64 {
        25 + volume.pool.as_bytes().len() as u64
    }
}

fn put_volume(into: &mut Vec<u8>, volume: &VolumeRec)
    requires allowed { IsShortName volume.now.pool }
    requires room { HasRoom into.old (volume_text volume.now) }
    ensures text { Appends into.old into.new (volume_text volume.now) }
    ensures fits { FitsVolume volume.now }
{
    put_u64(into, volume.volid.0);
    put_u32(into, volume.cart.0);
    put_text(into, &volume.pool);
    put_u32(into, volume.capacity);
    put_u64(into, volume.was.0);
}

struct Copies;

impl PutItem for Copies {
    type Item = SetCopy;

    ghost text = { λ self. copy_text };

    ghost Is = { λ self. HasSections };

    ghost Fits = { λ self. FitsCopy };

    fn put(&self, copy: &SetCopy, into: &mut Vec<u8>) {
        put_copy(into, copy)
    }

    #[tactic(auto, using(crate::proofs::Lengths::length_copy))]
    fn length(&self, copy: &SetCopy) -> u64 {
        9 + 48 * copy.sections.as_slice().len() as u64
    }
}

fn put_copy(into: &mut Vec<u8>, copy: &SetCopy)
    requires allowed { HasSections copy.now }
    requires room { HasRoom into.old (copy_text copy.now) }
    ensures text { Appends into.old into.new (copy_text copy.now) }
    ensures fits { FitsCopy copy.now }
{
    put_u32(into, copy.no.0);
    put_u8(into, copy_byte(copy.state));
    put_list_u32::<Sections>(copy.sections.as_slice(), into);
}

fn copy_byte(state: CopyState) -> u8
    ensures { result ≡ copy_byte state }
{
    match state {
        CopyState::Begun => 0,
        CopyState::Done => 1,
    }
}

fn put_copies(into: &mut Vec<u8>, copies: &[SetCopy])
    requires allowed { AllByRecursion HasSections copies.now }
    requires count { length copies.now ≤ 255 }
    requires room { HasRoom into.old (copies_text copies.now) }
    ensures text { Appends into.old into.new (copies_text copies.now) }
    ensures fits { AllByRecursion FitsCopy copies.now }
{
    put_u8(into, copies.len() as u8);
    put_items(&Copies, copies, into);
}

// Records, each with its index where indexes are written.
#[derive(Clone, Copy)]
struct Records<'a> {
    index: &'a ClientIndex,
    indexed: bool,
}

impl<'a> PutItem for Records<'a> {
    type Item = Record;

    ghost text = { λ writer row. listed_text writer.indexed (listed_by writer.index.now.sets row) };

    ghost Is = { λ writer row. CanWriteRow row × CanWriteIndex writer.index.now.sets row };

    ghost Fits = { λ writer row. FitsRow writer.index.now.sets writer.indexed row };

    fn put(&self, row: &Record, into: &mut Vec<u8>) {
        put_row(into, row);
        put_index(into, self.index, self.indexed, row.ssid);
    }

    #[tactic(auto, using(crate::proofs::Lengths::length_listed))]
    fn length(&self, row: &Record) -> u64 {
        row_length(row).saturating_add(index_length(self.index, self.indexed, row.ssid))
    }
}

fn put_row(into: &mut Vec<u8>, row: &Record)
    requires allowed { CanWriteRow row.now }
    requires room { HasRoom into.old (record_text row.now) }
    ensures text { Appends into.old into.new (record_text row.now) }
    ensures fits { FitsRecord row.now }
{
    encode_head_into(&parts_of(row), into);
    put_fields(into, row);
}

fn put_fields(into: &mut Vec<u8>, row: &Record)
    requires allowed { CanWriteRow row.now }
    requires room { HasRoom into.old (fields_text row.now) }
    ensures text { Appends into.old into.new (fields_text row.now) }
    ensures fits { FitsRecord row.now }
{
    put_state(into, row);
    put_copies(into, row.copies.as_slice());
}

// The head of a record's stream, as the record lends it.
fn parts_of(row: &Record) -> HeadParts<'_>
    ensures { head_of_parts result ≡ head_of row.now }
{
    HeadParts {
        ssid: row.ssid,
        base: row.base,
        level: row.level,
        saved: row.saved,
        browse: row.browse,
        retain: row.retain,
        client: &row.client,
        set: &row.set,
        group: &row.group,
        pool: &row.pool,
    }
}

fn put_state(into: &mut Vec<u8>, row: &Record)
    requires { HasRoom into.old (state_text row.now) }
    ensures text { Appends into.old into.new (state_text row.now) }
    ensures fits { FitsNumbers row.now }
{
    put_flag(into, row.hold);
    put_u8(into, state_byte(row.state));
    put_flag(into, row.purged);
    put_u32(into, row.files);
    put_u64(into, row.bytes);
    put_bytes(into, &row.digest);
    put_u32(into, row.next_copy);
    put_u64(into, row.changed);
}

fn state_byte(state: RecordState) -> u8
    ensures { result ≡ state_byte state }
{
    match state {
        RecordState::Begun => 0,
        RecordState::Complete => 1,
        RecordState::Aborted => 2,
    }
}

// The index of a set, where indexes are written.
fn put_index(into: &mut Vec<u8>, index: &ClientIndex, indexed: bool, ssid: Ssid)
    requires allowed { AreEntries (entries_or_none index.now.sets ssid) }
    requires room { HasRoom into.old (index_if_text indexed (entries_or_none index.now.sets ssid)) }
    ensures text { Appends into.old into.new
        (index_if_text indexed (entries_or_none index.now.sets ssid)) }
    ensures fits { AllByRecursion FitsEntry
        (kept_index indexed (entries_or_none index.now.sets ssid)) }
{
    if !indexed {
        return;
    }
    let entries = entries_of(index, ssid);
    put_list_u32::<Entries>(entries, into);
}

// The entries of a set; a set without an index has none.
fn entries_of(index: &ClientIndex, ssid: Ssid) -> &[IndexEntry]
    ensures { result.now ≡ entries_or_none index.now.sets ssid }
{
    match index.entries(ssid) {
        Some(entries) => entries,
        None => &[],
    }
}

#[tactic(auto, using(crate::proofs::Lengths::length_row))]
fn row_length(row: &Record) -> u64
    requires { CanWriteRow row.now }
    ensures { result ≡ u64_saturate (length (record_text row.now)) }
{
    let head = head_length(&parts_of(row));
    head.saturating_add(28 + digest_length(&row.digest))
        .saturating_add(items_length(&Copies, row.copies.as_slice()))
}

fn digest_length(digest: &[u8; 32]) -> u64
    ensures length { result ≡ length digest.now }
    ensures bound { result ≤ 32 }
{
    digest.len() as u64
}

fn index_length(index: &ClientIndex, indexed: bool, ssid: Ssid) -> u64
    requires { AreEntries (entries_or_none index.now.sets ssid) }
    ensures length { result
        ≡ length (index_if_text indexed (entries_or_none index.now.sets ssid)) }
    ensures bound { result < 2 ^ 60 }
{
    if !indexed {
        return 0;
    }
    list_length(entries_of(index, ssid))
}

#[tactic(auto, using(crate::proofs::Lengths::length_index))]
fn list_length(entries: &[IndexEntry]) -> u64
    requires { AreEntries entries.now }
    ensures length { result ≡ length (index_text entries.now) }
    ensures bound { result < 2 ^ 60 }
{
    4 + entries_length::<Entries>(entries)
}

/// Appends the volumes of a database.
pub(crate) fn put_volumes(into: &mut Vec<u8>, db: &MediaDb)
    requires allowed { AllByRecursion (λ volume. IsShortName volume.pool) db.now.volumes }
    requires count { length db.now.volumes < 2 ^ 32 }
    requires room { HasRoom into.old (volumes_text db.now.volumes) }
    ensures text { Appends into.old into.new (volumes_text db.now.volumes) }
    ensures fits { AllByRecursion FitsVolume db.now.volumes }
{
    put_list(&Volumes, db.volumes(), into);
}

/// Appends the records of a database, each with its index where indexes are written.
pub(crate) fn put_rows(into: &mut Vec<u8>, db: &MediaDb, index: &ClientIndex, indexed: bool)
    requires allowed { AllByRecursion
        (λ row. CanWriteRow row × CanWriteIndex index.now.sets row) db.now.records }
    requires count { length db.now.records < 2 ^ 32 }
    requires room { HasRoom into.old (rows_by index.now.sets indexed db.now.records) }
    ensures text { Appends into.old into.new (rows_by index.now.sets indexed db.now.records) }
    ensures fits { AllByRecursion (FitsRow index.now.sets indexed) db.now.records }
{
    put_list(&Records { index, indexed }, db.records(), into);
}

#[tactic(auto, using(snapshot_laws::proofs::SlotCounts::slots_count, crate::proofs::Lengths::length_slots))]
pub(crate) fn slots_length(slots: &[FilledSlot]) -> u64
    requires { AreSlots slots.now }
    ensures { result ≡ u64_saturate (length (slots_text slots.now)) }
{
    1 + 5 * slots.len() as u64
}

#[tactic(auto, using(crate::proofs::Lengths::length_volumes))]
pub(crate) fn volumes_length(db: &MediaDb) -> u64
    requires { AllByRecursion (λ volume. IsShortName volume.pool) db.now.volumes }
    ensures { result ≡ u64_saturate (length (volumes_text db.now.volumes)) }
{
    4u64.saturating_add(items_length(&Volumes, db.volumes()))
}

#[tactic(auto, using(crate::proofs::Lengths::length_rows))]
pub(crate) fn rows_length(db: &MediaDb, index: &ClientIndex, indexed: bool) -> u64
    requires { AllByRecursion
        (λ row. CanWriteRow row × CanWriteIndex index.now.sets row) db.now.records }
    ensures { result ≡ u64_saturate (length (rows_by index.now.sets indexed db.now.records)) }
{
    4u64.saturating_add(items_length(&Records { index, indexed }, db.records()))
}
