//! Writes the fields of each kind of change.

ghost use Rattle.std.specs.Prelude.{◌≡◌, ◌++◌, length};
ghost use Rattle.save_stream.specs.Spelling.{short_text};
ghost use Rattle.catalog_change.specs.Changes.{IsChange, AreSections};
ghost use Rattle.catalog_change.specs.Resources.{IsShortName};
ghost use Rattle.catalog_change.specs.declared.change.Change.TheVariants as changes;
ghost use Rattle.catalog_spelling.specs.Fields.{number_bytes};
ghost use Rattle.catalog_spelling.specs.Changes.{change_byte, fields_text, stream_text, FitsChange};
ghost use Rattle.catalog_spelling.specs.Changes.{FitsStream};
ghost use Rattle.catalog_spelling.specs.Sections.{sections_text};
ghost use Rattle.catalog_text.specs.Writing.{HasRoom, Appends};

use crate::entry::Entries;
use crate::head::put_head;
use crate::list::put_list_u32;
use crate::put::{put_bytes, put_flag, put_text, put_u8, put_u32, put_u64};
use crate::resource::Resources;
use crate::resource_writing::resource_byte;
use crate::section::Sections;
use crate::ssids::Ssids;
use catalog_change::{Change, ResourceKind};
use media_db::Section;
use room_base::{Cart, CopyNo, Items, Moment, Name, Ssid, Volid};

/// The byte that stands for the kind of a change.
pub(crate) fn change_byte(change: &Change) -> u8
    ensures { result ≡ change_byte change.now }
{
    match change {
        Change::Defined { .. } => 1,
        Change::Dropped { .. } => 2,
        Change::Loaded { .. } => 3,
        Change::Ejected { .. } => 4,
        Change::Labelled { .. } => 5,
        Change::Begun { .. } => 6,
        Change::Finished { .. } => 7,
        Change::Aborted { .. } => 8,
        Change::Amended { .. } => 9,
        Change::Deleted { .. } => 10,
        Change::Purged { .. } => 11,
        Change::CopyBegun { .. } => 12,
        Change::CopyDone { .. } => 13,
        Change::IndexPart { .. } => 14,
        Change::FinishedParts { .. } => 15,
    }
}

/// Appends the fields of a change, for which there is room.
pub(crate) fn put_fields(into: &mut Vec<u8>, change: &Change)
    requires allowed { IsChange change.now }
    requires room { HasRoom into.old (fields_text change.now) }
    ensures text { Appends into.old into.new (fields_text change.now) }
    ensures fits { FitsChange change.now }
{
    match change {
        Change::Defined { resources } => put_list_u32::<Resources>(resources.as_slice(), into),
        Change::Dropped { kind, name } => put_dropped(into, *kind, name),
        Change::Loaded { slot, cart } => put_loaded(into, *slot, *cart),
        Change::Ejected { slot } => put_u8(into, *slot),
        Change::Labelled {
            volid,
            cart,
            pool,
            capacity,
            was,
        } => put_labelled(into, (*volid, *was), *cart, pool, *capacity),
        Change::Begun { head } => put_head(into, head),
        Change::Finished {
            ssid,
            files,
            bytes,
            digest,
            sections,
            index,
        } => {
            put_stream(into, *ssid, (*files, *bytes), digest, sections);
            put_list_u32::<Entries>(index.as_slice(), into);
        }
        Change::Aborted { ssid } => put_u64(into, ssid.0),
        Change::Amended {
            ssid,
            browse,
            retain,
            hold,
        } => put_amended(into, *ssid, *browse, *retain, *hold),
        Change::Deleted { ssid } => put_u64(into, ssid.0),
        Change::Purged { ssids } => put_list_u32::<Ssids>(ssids.as_slice(), into),
        Change::CopyBegun { ssid, copy } => put_copy(into, *ssid, *copy),
        Change::CopyDone {
            ssid,
            copy,
            sections,
            removed,
        } => {
            put_copy(into, *ssid, *copy);
            put_list_u32::<Sections>(sections.as_slice(), into);
            put_u32(into, removed.0);
        }
        Change::IndexPart { ssid, part, index } => {
            put_u64(into, ssid.0);
            put_u32(into, *part);
            put_list_u32::<Entries>(index.as_slice(), into);
        }
        Change::FinishedParts {
            ssid,
            files,
            bytes,
            digest,
            sections,
        } => put_stream(into, *ssid, (*files, *bytes), digest, sections),
    }
}

fn put_dropped(into: &mut Vec<u8>, kind: ResourceKind, name: &Name)
    requires allowed { IsShortName name.now }
    requires room { HasRoom into.old (fields_text (changes.Dropped kind name.now)) }
    ensures { Appends into.old into.new (fields_text (changes.Dropped kind name.now)) }
{
    put_u8(into, resource_byte(kind));
    put_text(into, name);
}

fn put_loaded(into: &mut Vec<u8>, slot: u8, cart: Cart)
    requires { HasRoom into.old (fields_text (changes.Loaded slot cart)) }
    ensures text { Appends into.old into.new (fields_text (changes.Loaded slot cart)) }
    ensures fits { FitsChange (changes.Loaded slot cart) }
{
    put_u8(into, slot);
    put_u32(into, cart.0);
}

// The first volid is that of the volume, the other one that of the label before it.
fn put_labelled(into: &mut Vec<u8>, volids: (Volid, Volid), cart: Cart, pool: &Name, capacity: u32)
    requires allowed { IsShortName pool.now }
    requires room { HasRoom into.old
        (fields_text (changes.Labelled volids.0 cart pool.now capacity volids.1)) }
    ensures text { Appends into.old into.new
        (fields_text (changes.Labelled volids.0 cart pool.now capacity volids.1)) }
    ensures fits { FitsChange (changes.Labelled volids.0 cart pool.now capacity volids.1) }
{
    put_u64(into, volids.0.0);
    put_u32(into, cart.0);
    put_text(into, pool);
    put_u32(into, capacity);
    put_u64(into, volids.1.0);
}

// What a stream of so many files and bytes leaves behind.
fn put_stream(
    into: &mut Vec<u8>,
    ssid: Ssid,
    sizes: (u32, u64),
    digest: &[u8; 32],
    sections: &Items<Section>,
)
    requires allowed { AreSections sections.now }
    requires room { HasRoom into.old
        (stream_text ssid sizes.0 sizes.1 digest.now sections.now) }
    ensures text { Appends into.old into.new
        (stream_text ssid sizes.0 sizes.1 digest.now sections.now) }
    ensures fits { FitsStream ssid sizes.0 sizes.1 digest.now sections.now }
{
    put_u64(into, ssid.0);
    put_u32(into, sizes.0);
    put_u64(into, sizes.1);
    put_bytes(into, digest);
    put_list_u32::<Sections>(sections.as_slice(), into);
}

fn put_amended(into: &mut Vec<u8>, ssid: Ssid, browse: Moment, retain: Moment, hold: bool)
    requires { HasRoom into.old (fields_text (changes.Amended ssid browse retain hold)) }
    ensures text { Appends into.old into.new
        (fields_text (changes.Amended ssid browse retain hold)) }
    ensures fits { FitsChange (changes.Amended ssid browse retain hold) }
{
    put_u64(into, ssid.0);
    put_u64(into, browse.0);
    put_u64(into, retain.0);
    put_flag(into, hold);
}

fn put_copy(into: &mut Vec<u8>, ssid: Ssid, copy: CopyNo)
    requires { HasRoom into.old (fields_text (changes.CopyBegun ssid copy)) }
    ensures text { Appends into.old into.new (fields_text (changes.CopyBegun ssid copy)) }
    ensures fits { FitsChange (changes.CopyBegun ssid copy) }
{
    put_u64(into, ssid.0);
    put_u32(into, copy.0);
}
