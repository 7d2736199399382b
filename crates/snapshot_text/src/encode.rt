//! Writes snapshots.

ghost use Rattle.std.specs.Prelude.{◌≡◌, ◌≤◌, length, IfOk, OnOk};
ghost use Rattle.std.specs.Io.Iter.{u64_saturate};
ghost use Rattle.std.specs.List.{AllByRecursion};
ghost use Rattle.catalog_change.specs.Catalogues.{HasResources, IsCatalogue};
ghost use Rattle.catalog_text.specs.Writing.{HasRoom, Appends};
ghost use Rattle.catalog_spelling.specs.SnapshotResources.{lists_text};
ghost use Rattle.snapshot_text.specs.Writing.{first_size};
ghost use Rattle.catalog_spelling.specs.Fits.{FitsCatalogue, FitsPool, FitsSchedule};
ghost use Rattle.catalog_spelling.specs.Snapshots.{catalogue_lent, front_text, kept_in, lists_of};
ghost use Rattle.catalog_spelling.specs.Snapshots.{snapshot_text};

use crate::SnapshotParts;
use crate::media_writing::{
    put_rows, put_slots, put_volumes, rows_length, slots_length, volumes_length,
};
use crate::put_item::{items_length, put_items};
use crate::resource_writing::{Clients, Groups, Policies, Pools, Schedules};
use catalog_text::{put_u8, put_u32, put_u64};
use room_base::Memory;
use std::alloc::Global;

/// The byte that a snapshot begins with.
pub const SNAPSHOT_KIND: u8 = b'B';

/// The form of snapshots, which follows.
pub const FORM: u8 = 1;

/// Writes a catalogue in its one spelling, with its indexes or without.
pub fn snapshot(alloc: Global, parts: &SnapshotParts, with_indexes: bool) -> Result<Vec<u8>, Memory>
    requires { IsCatalogue (catalogue_lent parts.now) }
    ensures text { IfOk result
        (λ bytes. bytes.items ≡ snapshot_text with_indexes (catalogue_lent parts.now)) }
    ensures fits { OnOk result
        (FitsCatalogue (kept_in with_indexes (catalogue_lent parts.now))) }
{
    let length = snapshot_length(parts, with_indexes);
    if length == u64::MAX {
        return Err(Memory);
    }
    let mut bytes = Vec::with_capacity(alloc, length as usize)?;
    snapshot_into(parts, with_indexes, &mut bytes);
    Ok(bytes)
}

/// How many bytes a snapshot has, or the greatest number where that is less.
#[tactic(auto, using(crate::proofs::Lengths::length_snapshot))]
pub fn snapshot_length(parts: &SnapshotParts, with_indexes: bool) -> u64
    requires { IsCatalogue (catalogue_lent parts.now) }
    ensures { result
        ≡ u64_saturate (length (snapshot_text with_indexes (catalogue_lent parts.now))) }
{
    let resources = resources_length(parts);
    let slots = slots_length(parts.slots);
    let volumes = volumes_length(parts.db);
    let records = rows_length(parts.db, parts.index, with_indexes);
    FRONT_SIZE
        .saturating_add(resources)
        .saturating_add(slots)
        .saturating_add(volumes)
        .saturating_add(records)
}

// The bytes of a snapshot before the lists.
const FRONT_SIZE: u64 = 34;

/// Appends the one spelling of a catalogue, with its indexes or without. There is room for it, as
/// many bytes as `snapshot_length` says, and no memory is taken.
pub fn snapshot_into(parts: &SnapshotParts, with_indexes: bool, into: &mut Vec<u8>)
    requires allowed { IsCatalogue (catalogue_lent parts.now) }
    requires room { HasRoom into.old (snapshot_text with_indexes (catalogue_lent parts.now)) }
    ensures text { Appends into.old into.new
        (snapshot_text with_indexes (catalogue_lent parts.now)) }
    ensures fits { FitsCatalogue (kept_in with_indexes (catalogue_lent parts.now)) }
{
    put_front(into, parts);
    put_resources(into, parts);
    put_slots(into, parts.slots);
    put_volumes(into, parts.db);
    put_rows(into, parts.db, parts.index, with_indexes);
}

// The fields before the lists.
fn put_front(into: &mut Vec<u8>, parts: &SnapshotParts)
    requires { HasRoom into.old (front_text (catalogue_lent parts.now)) }
    ensures { Appends into.old into.new (front_text (catalogue_lent parts.now)) }
{
    put_u8(into, SNAPSHOT_KIND);
    put_u8(into, FORM);
    put_u64(into, parts.number);
    put_u64(into, parts.last_moment.0);
    put_u64(into, parts.next_ssid.0);
    put_u64(into, parts.next_volid.0);
}

// All resources behind their count.
fn put_resources(into: &mut Vec<u8>, parts: &SnapshotParts)
    requires allowed { HasResources (catalogue_lent parts.now) }
    requires room { HasRoom into.old (lists_text (lists_of (catalogue_lent parts.now))) }
    ensures text { Appends into.old into.new (lists_text (lists_of (catalogue_lent parts.now))) }
    ensures pools { AllByRecursion FitsPool parts.now.pools.now }
    ensures schedules { AllByRecursion FitsSchedule parts.now.schedules.now }
{
    let held = parts.policies.len() + parts.pools.len() + parts.clients.len();
    put_u32(
        into,
        (held + parts.schedules.len() + parts.groups.len()) as u32,
    );
    put_items(&Policies, parts.policies, into);
    put_items(&Pools, parts.pools, into);
    put_items(&Clients, parts.clients, into);
    put_items(&Schedules, parts.schedules, into);
    put_items(&Groups, parts.groups, into);
}

#[tactic(auto, using(crate::proofs::Lengths::length_lists))]
fn resources_length(parts: &SnapshotParts) -> u64
    requires { HasResources (catalogue_lent parts.now) }
    ensures { result ≡ u64_saturate (length (lists_text (lists_of (catalogue_lent parts.now)))) }
{
    4u64.saturating_add(first_length(parts))
        .saturating_add(items_length(&Schedules, parts.schedules))
        .saturating_add(items_length(&Groups, parts.groups))
}

// The bytes of policies, pools and clients.
fn first_length(parts: &SnapshotParts) -> u64
    requires { HasResources (catalogue_lent parts.now) }
    ensures { result ≡ u64_saturate (first_size (lists_of (catalogue_lent parts.now))) }
{
    items_length(&Policies, parts.policies)
        .saturating_add(items_length(&Pools, parts.pools))
        .saturating_add(items_length(&Clients, parts.clients))
}
