//! Reads the fields of each kind of change.

ghost use Rattle.std.specs.Prelude.{◌≡◌};
ghost use Rattle.catalog_spelling.specs.Reading.{Gives};
ghost use Rattle.catalog_spelling.specs.Changes.{defined_at, dropped_at, loaded_at, ejected_at};
ghost use Rattle.catalog_spelling.specs.Changes.{labelled_at, begun_at, finished_at, aborted_at};
ghost use Rattle.catalog_spelling.specs.Changes.{amended_at, deleted_at, purged_at, copy_begun_at};
ghost use Rattle.catalog_spelling.specs.Changes.{copy_done_at, index_part_at, finished_parts_at};
ghost use Rattle.catalog_spelling.specs.Changes.{change_alone_at};

use crate::FieldFault;
use crate::entry::Entries;
use crate::field::{
    read_digest, read_flag, read_u8, read_u32, read_u32_within, read_u64, read_u64_above,
};
use crate::head::read_head;
use crate::list::read_list_u32;
use crate::resource::Resources;
use crate::resource_reading::read_resource_kind;
use crate::section::Sections;
use crate::ssids::Ssids;
use crate::text::read_name;
use catalog_change::Change;
use room_base::{Cart, CopyNo, Moment, Ssid, Volid};
use std::alloc::Global;

/// The least and the greatest capacity of a volume, in blocks of whatever size.
const MIN_CAPACITY: u32 = 67;

const MAX_CAPACITY: u32 = 1_000_000;

/// The most entries of a part of an index.
const MAX_PART: u32 = 10_000;

/// A change, behind the byte of its kind.
#[tactic(auto, unfolding(catalog_spelling::specs::Kinds::by_kind_at))]
pub(crate) fn read_change(alloc: Global, bytes: &[u8]) -> Result<(Change, &[u8]), FieldFault>
    ensures { Gives (λ x. (x.0, x.1.now)) result (change_alone_at bytes.now) }
{
    let (kind, rest) = read_u8(bytes)?;
    match kind {
        1 => read_defined(alloc, rest),
        2 => read_dropped(alloc, rest),
        3 => read_loaded(rest),
        4 => read_ejected(rest),
        5 => read_labelled(alloc, rest),
        6 => read_begun(alloc, rest),
        7 => read_finished(alloc, rest),
        8 => read_aborted(rest),
        9 => read_amended(rest),
        10 => read_deleted(rest),
        11 => read_purged(alloc, rest),
        12 => read_copy_begun(rest),
        13 => read_copy_done(alloc, rest),
        14 => read_index_part(alloc, rest),
        15 => read_finished_parts(alloc, rest),
        _ => Err(FieldFault::Bad {
            behind: bytes.len(),
        }),
    }
}

#[tactic(auto, unfolding(catalog_spelling::specs::Changes::defined_at))]
fn read_defined(alloc: Global, bytes: &[u8]) -> Result<(Change, &[u8]), FieldFault>
    ensures { Gives (λ x. (x.0, x.1.now)) result (defined_at bytes.now) }
{
    let (resources, rest) = read_list_u32::<Resources>(alloc, 0, u32::MAX, bytes)?;
    Ok((Change::Defined { resources }, rest))
}

#[tactic(auto, unfolding(catalog_spelling::specs::Changes::dropped_at))]
fn read_dropped(alloc: Global, bytes: &[u8]) -> Result<(Change, &[u8]), FieldFault>
    ensures { Gives (λ x. (x.0, x.1.now)) result (dropped_at bytes.now) }
{
    let (kind, rest) = read_resource_kind(bytes)?;
    let (name, rest) = read_name(alloc, 64, rest)?;
    Ok((Change::Dropped { kind, name }, rest))
}

#[tactic(auto, unfolding(catalog_spelling::specs::Changes::loaded_at))]
fn read_loaded(bytes: &[u8]) -> Result<(Change, &[u8]), FieldFault>
    ensures { Gives (λ x. (x.0, x.1.now)) result (loaded_at bytes.now) }
{
    let (slot, rest) = read_u8(bytes)?;
    let (cart, rest) = read_u32(rest)?;
    let change = Change::Loaded {
        slot,
        cart: Cart(cart),
    };
    Ok((change, rest))
}

#[tactic(auto, unfolding(catalog_spelling::specs::Changes::ejected_at))]
fn read_ejected(bytes: &[u8]) -> Result<(Change, &[u8]), FieldFault>
    ensures { Gives (λ x. (x.0, x.1.now)) result (ejected_at bytes.now) }
{
    let (slot, rest) = read_u8(bytes)?;
    Ok((Change::Ejected { slot }, rest))
}

#[tactic(auto, unfolding(catalog_spelling::specs::Changes::labelled_at))]
fn read_labelled(alloc: Global, bytes: &[u8]) -> Result<(Change, &[u8]), FieldFault>
    ensures { Gives (λ x. (x.0, x.1.now)) result (labelled_at bytes.now) }
{
    let (volid, rest) = read_u64_above(0, bytes)?;
    let (cart, rest) = read_u32(rest)?;
    let (pool, rest) = read_name(alloc, 64, rest)?;
    let (capacity, rest) = read_u32_within(MIN_CAPACITY, MAX_CAPACITY, rest)?;
    let (was, rest) = read_u64(rest)?;
    let change = Change::Labelled {
        volid: Volid(volid),
        cart: Cart(cart),
        pool,
        capacity,
        was: Volid(was),
    };
    Ok((change, rest))
}

#[tactic(auto, unfolding(catalog_spelling::specs::Changes::begun_at))]
fn read_begun(alloc: Global, bytes: &[u8]) -> Result<(Change, &[u8]), FieldFault>
    ensures { Gives (λ x. (x.0, x.1.now)) result (begun_at bytes.now) }
{
    let (head, rest) = read_head(alloc, bytes)?;
    Ok((Change::Begun { head }, rest))
}

#[tactic(auto, unfolding(catalog_spelling::specs::Changes::finished_at))]
fn read_finished(alloc: Global, bytes: &[u8]) -> Result<(Change, &[u8]), FieldFault>
    ensures { Gives (λ x. (x.0, x.1.now)) result (finished_at bytes.now) }
{
    let (ssid, rest) = read_u64(bytes)?;
    let (files, rest) = read_u32(rest)?;
    let (size, rest) = read_u64(rest)?;
    let (digest, rest) = read_digest(rest)?;
    let (sections, rest) = read_list_u32::<Sections>(alloc, 1, u32::MAX, rest)?;
    let (index, rest) = read_list_u32::<Entries>(alloc, 0, u32::MAX, rest)?;
    let change = Change::Finished {
        ssid: Ssid(ssid),
        files,
        bytes: size,
        digest,
        sections,
        index,
    };
    Ok((change, rest))
}

#[tactic(auto, unfolding(catalog_spelling::specs::Changes::aborted_at))]
fn read_aborted(bytes: &[u8]) -> Result<(Change, &[u8]), FieldFault>
    ensures { Gives (λ x. (x.0, x.1.now)) result (aborted_at bytes.now) }
{
    let (ssid, rest) = read_u64(bytes)?;
    Ok((Change::Aborted { ssid: Ssid(ssid) }, rest))
}

#[tactic(auto, unfolding(catalog_spelling::specs::Changes::amended_at))]
fn read_amended(bytes: &[u8]) -> Result<(Change, &[u8]), FieldFault>
    ensures { Gives (λ x. (x.0, x.1.now)) result (amended_at bytes.now) }
{
    let (ssid, rest) = read_u64(bytes)?;
    let (browse, rest) = read_u64(rest)?;
    let (retain, rest) = read_u64(rest)?;
    let (hold, rest) = read_flag(rest)?;
    let change = Change::Amended {
        ssid: Ssid(ssid),
        browse: Moment(browse),
        retain: Moment(retain),
        hold,
    };
    Ok((change, rest))
}

#[tactic(auto, unfolding(catalog_spelling::specs::Changes::deleted_at))]
fn read_deleted(bytes: &[u8]) -> Result<(Change, &[u8]), FieldFault>
    ensures { Gives (λ x. (x.0, x.1.now)) result (deleted_at bytes.now) }
{
    let (ssid, rest) = read_u64(bytes)?;
    Ok((Change::Deleted { ssid: Ssid(ssid) }, rest))
}

#[tactic(auto, unfolding(catalog_spelling::specs::Changes::purged_at))]
fn read_purged(alloc: Global, bytes: &[u8]) -> Result<(Change, &[u8]), FieldFault>
    ensures { Gives (λ x. (x.0, x.1.now)) result (purged_at bytes.now) }
{
    let (ssids, rest) = read_list_u32::<Ssids>(alloc, 0, u32::MAX, bytes)?;
    Ok((Change::Purged { ssids }, rest))
}

#[tactic(auto, unfolding(catalog_spelling::specs::Changes::copy_begun_at))]
fn read_copy_begun(bytes: &[u8]) -> Result<(Change, &[u8]), FieldFault>
    ensures { Gives (λ x. (x.0, x.1.now)) result (copy_begun_at bytes.now) }
{
    let (ssid, rest) = read_u64(bytes)?;
    let (copy, rest) = read_u32(rest)?;
    let change = Change::CopyBegun {
        ssid: Ssid(ssid),
        copy: CopyNo(copy),
    };
    Ok((change, rest))
}

#[tactic(auto, unfolding(catalog_spelling::specs::Changes::copy_done_at))]
fn read_copy_done(alloc: Global, bytes: &[u8]) -> Result<(Change, &[u8]), FieldFault>
    ensures { Gives (λ x. (x.0, x.1.now)) result (copy_done_at bytes.now) }
{
    let (ssid, rest) = read_u64(bytes)?;
    let (copy, rest) = read_u32(rest)?;
    let (sections, rest) = read_list_u32::<Sections>(alloc, 1, u32::MAX, rest)?;
    let (removed, rest) = read_u32(rest)?;
    let change = Change::CopyDone {
        ssid: Ssid(ssid),
        copy: CopyNo(copy),
        sections,
        removed: CopyNo(removed),
    };
    Ok((change, rest))
}

#[tactic(auto, unfolding(catalog_spelling::specs::Changes::index_part_at))]
fn read_index_part(alloc: Global, bytes: &[u8]) -> Result<(Change, &[u8]), FieldFault>
    ensures { Gives (λ x. (x.0, x.1.now)) result (index_part_at bytes.now) }
{
    let (ssid, rest) = read_u64(bytes)?;
    let (part, rest) = read_u32(rest)?;
    let (index, rest) = read_list_u32::<Entries>(alloc, 1, MAX_PART, rest)?;
    let change = Change::IndexPart {
        ssid: Ssid(ssid),
        part,
        index,
    };
    Ok((change, rest))
}

#[tactic(auto, unfolding(catalog_spelling::specs::Changes::finished_parts_at))]
fn read_finished_parts(alloc: Global, bytes: &[u8]) -> Result<(Change, &[u8]), FieldFault>
    ensures { Gives (λ x. (x.0, x.1.now)) result (finished_parts_at bytes.now) }
{
    let (ssid, rest) = read_u64(bytes)?;
    let (files, rest) = read_u32_within(MAX_PART + 1, u32::MAX, rest)?;
    let (size, rest) = read_u64(rest)?;
    let (digest, rest) = read_digest(rest)?;
    let (sections, rest) = read_list_u32::<Sections>(alloc, 1, u32::MAX, rest)?;
    let change = Change::FinishedParts {
        ssid: Ssid(ssid),
        files,
        bytes: size,
        digest,
        sections,
    };
    Ok((change, rest))
}
