//! Catalogues that are made of what was read.

ghost use Rattle.std.specs.Prelude.{◌≡◌};
ghost use Rattle.std.specs.Ordering.{nat_cmp};
ghost use Rattle.room_base.specs.Ordered.{Ascends};
ghost use Rattle.catalog_change.specs.Catalogues.{IsCatalogue, slot_number};
ghost use Rattle.room_catalog.specs.Held.{catalogue_of};
ghost use Rattle.room_catalog.specs.Views.{held_of, lists_of_parts};

use crate::catalogue::Catalogue;
use crate::copy_room::CopyRoom;
use crate::kept::Kept;
use crate::parts::PendingParts;
use crate::slots::Slots;
use catalog_change::FilledSlot;
use client_index::ClientIndex;
use media_db::MediaDb;
use resource_lists::Resources;
use room_base::{Moment, Ssid, Volid};
use std::alloc::Global;

/// What a catalogue is made of, but for parts of an index that wait.
#[derive(Drop)]
pub struct CatalogueParts {
    /// The number of the last change, and its moment.
    pub number: u64,
    pub last_moment: Moment,
    /// The numbers that the next save set and the next volume get.
    pub next_ssid: Ssid,
    pub next_volid: Volid,
    pub resources: Resources,
    /// The filled slots in the order of their numbers.
    pub slots: Vec<FilledSlot>,
    pub db: MediaDb,
    pub index: ClientIndex,
}

impl Catalogue {
    /// The catalogue of these parts, in which no part of an index waits. Takes no memory.
    pub fn of(alloc: Global, parts: CatalogueParts) -> Catalogue
        requires { IsCatalogue (catalogue_of (lists_of_parts parts)) }
        ensures { result.lists ≡ lists_of_parts parts }
    {
        Catalogue {
            kept: Kept::of(alloc, parts),
        }
    }
}

impl Kept {
    // What was given, with no part that waits.
    fn of(alloc: Global, parts: CatalogueParts) -> Kept
        requires { Ascends nat_cmp slot_number parts.slots.items }
        ensures { (held_of result).lists ≡ lists_of_parts parts }
    {
        Kept {
            number: parts.number,
            last_moment: parts.last_moment,
            next_ssid: parts.next_ssid,
            next_volid: parts.next_volid,
            resources: parts.resources,
            slots: Slots::of(parts.slots),
            db: parts.db,
            index: parts.index,
            parts: PendingParts::new(alloc),
            copies: CopyRoom::new(alloc),
        }
    }
}
