//! The catalogue of a room.

ghost use Rattle.std.specs.Prelude.{◌≡◌, ◌+◌, ◌<◌, ◌≤◌, ◌↔◌, IfOk, OnOk, IsTrue, option_copied};
ghost use Rattle.std.specs.Prelude.{option_map};
ghost use Rattle.room_base.specs.Numbers.{max_moment};
ghost use Rattle.catalog_change.specs.Catalogues.{IsCatalogue};
ghost use Rattle.catalog_change.specs.Changes.{IsChange};
ghost use Rattle.catalog_change.specs.Resources.{client_name, group_name, policy_name, pool_name};
ghost use Rattle.catalog_change.specs.Resources.{schedule_name};
ghost use Rattle.room_catalog.specs.Applying.{Applies, parts_after};
ghost use Rattle.room_catalog.specs.Changing.{lists_after, without_parts};
ghost use Rattle.room_catalog.specs.Fits.{Fits, FitsParts, find_slot};
ghost use Rattle.resource_lists.specs.Adding.{StayWithin};
ghost use Rattle.room_catalog.specs.Held.{catalogue_of, no_parts, opening_catalogue};
ghost use Rattle.room_catalog.specs.Invariant.{IsHeld};
ghost use Rattle.resource_lists.specs.Kinds.{find_named};
ghost use Rattle.room_catalog.specs.Ready.{IsReady, KeepsRoom, TakesRoom};

use crate::copy_room::CopyRoom;
use crate::fitting::MAX_NUMBER;
use crate::kept::Kept;
use crate::parts::PendingParts;
use crate::slots::Slots;
use catalog_change::{Change, Client, FilledSlot, Resource};
use client_index::ClientIndex;
use media_db::MediaDb;
use resource_lists::Resources;
use room_base::{Cart, Items, Memory, Moment, Ssid, Volid};
use room_rules::{Group, Policy, Pool, Schedule};
use std::alloc::Global;
use std::marker::Model;

/// The catalogue of a room. Contracts see what it holds, as lists, and what it has room for.
#[derive(Drop)]
pub struct Catalogue {
    pub(crate) kept: Kept,
}

impl Model for Catalogue {
    ghost use Rattle.room_catalog.specs.Held.{HeldCatalogue};

    ghost Value = { HeldCatalogue };

    ghost use Rattle.room_catalog.specs.Invariant.{IsHeld};
    ghost use Rattle.room_catalog.specs.Views.{held_of};

    ghost view = { λ catalogue. held_of catalogue.kept };

    ghost invariant = { λ catalogue. IsHeld (held_of catalogue.kept).lists };
}

impl Catalogue {
    /// The catalogue of a room that has just been made: policies for a month and a year, the pool
    /// `Default`, and the client `room`.
    pub fn opening(alloc: Global) -> Result<Catalogue, Memory>
        ensures catalogue { IfOk result
            (λ catalogue. catalogue_of catalogue.lists ≡ opening_catalogue) }
        ensures parts { IfOk result (λ catalogue. catalogue.lists.parts ≡ no_parts) }
    {
        let resources = Resources::opening(alloc)?;
        Ok(Catalogue {
            kept: Kept {
                number: 0,
                last_moment: Moment(0),
                next_ssid: Ssid(1),
                next_volid: Volid(1),
                resources,
                slots: Slots::new(alloc),
                db: MediaDb::new(alloc),
                index: ClientIndex::new(alloc),
                parts: PendingParts::new(alloc),
                copies: CopyRoom::new(alloc),
            },
        })
    }

    /// The number of the last change.
    pub fn number(&self) -> u64
        ensures number { result ≡ self.now.lists.number }
        ensures allowed { IsCatalogue (catalogue_of self.now.lists) }
        ensures held { IsHeld self.now.lists }
    {
        self.kept.number
    }

    /// The moment of the last change.
    pub fn last_moment(&self) -> Moment
        ensures { result.0 ≡ self.now.lists.last_moment }
    {
        self.kept.last_moment
    }

    /// The number that the next save set gets.
    pub fn next_ssid(&self) -> Ssid
        ensures { result.0 ≡ self.now.lists.next_ssid }
    {
        self.kept.next_ssid
    }

    /// The number that the next volume gets.
    pub fn next_volid(&self) -> Volid
        ensures { result.0 ≡ self.now.lists.next_volid }
    {
        self.kept.next_volid
    }

    /// All policies, in the order of their names.
    pub fn policies(&self) -> &[Policy]
        ensures { result.now ≡ self.now.lists.resources.policies }
    {
        self.kept.resources.policies()
    }

    /// All pools, in the order of their names.
    pub fn pools(&self) -> &[Pool]
        ensures { result.now ≡ self.now.lists.resources.pools }
    {
        self.kept.resources.pools()
    }

    /// All clients, in the order of their names.
    pub fn clients(&self) -> &[Client]
        ensures { result.now ≡ self.now.lists.resources.clients }
    {
        self.kept.resources.clients()
    }

    /// All schedules, in the order of their names.
    pub fn schedules(&self) -> &[Schedule]
        ensures { result.now ≡ self.now.lists.resources.schedules }
    {
        self.kept.resources.schedules()
    }

    /// All groups, in the order of their names.
    pub fn groups(&self) -> &[Group]
        ensures { result.now ≡ self.now.lists.resources.groups }
    {
        self.kept.resources.groups()
    }

    /// The filled slots, in the order of their numbers.
    pub fn slots(&self) -> &[FilledSlot]
        ensures { result.now ≡ self.now.lists.slots }
    {
        self.kept.slots.filled()
    }

    /// The records of save sets and of volumes.
    pub fn db(&self) -> &MediaDb
        ensures records { result.now.records ≡ self.now.lists.records }
        ensures volumes { result.now.volumes ≡ self.now.lists.volumes }
    {
        &self.kept.db
    }

    /// The indexes of save sets.
    pub fn index(&self) -> &ClientIndex
        ensures { result.now.sets ≡ self.now.lists.sets }
    {
        &self.kept.index
    }

    pub fn policy(&self, name: &[u8]) -> Option<&Policy>
        ensures { option_copied result
            ≡ find_named policy_name name.now self.now.lists.resources.policies }
    {
        self.kept.resources.policy(name)
    }

    pub fn pool(&self, name: &[u8]) -> Option<&Pool>
        ensures { option_copied result
            ≡ find_named pool_name name.now self.now.lists.resources.pools }
    {
        self.kept.resources.pool(name)
    }

    pub fn client(&self, name: &[u8]) -> Option<&Client>
        ensures { option_copied result
            ≡ find_named client_name name.now self.now.lists.resources.clients }
    {
        self.kept.resources.client(name)
    }

    pub fn schedule(&self, name: &[u8]) -> Option<&Schedule>
        ensures { option_copied result
            ≡ find_named schedule_name name.now self.now.lists.resources.schedules }
    {
        self.kept.resources.schedule(name)
    }

    pub fn group(&self, name: &[u8]) -> Option<&Group>
        ensures { option_copied result
            ≡ find_named group_name name.now self.now.lists.resources.groups }
    {
        self.kept.resources.group(name)
    }

    /// The cartridge that lies in a slot.
    pub fn cart_in(&self, slot: u8) -> Option<Cart>
        ensures { result ≡ option_map (λ filled. filled.cart)
            (find_slot slot self.now.lists.slots) }
    {
        match self.kept.slots.find(slot) {
            Some(filled) => Some(filled.cart),
            None => None,
        }
    }

    /// There would be at most 256 resources of each kind. Takes no memory.
    pub fn room_for(&self, resources: &[Resource]) -> bool
        ensures { IsTrue result ↔ StayWithin self.now.lists.resources resources.now }
    {
        self.kept.resources.room_for(resources)
    }

    /// The change can be made of this catalogue. Takes no memory.
    pub fn fits(&self, change: &Change) -> bool
        requires { IsChange change.now }
        ensures { IsTrue result ↔ Fits (catalogue_of self.now.lists) change.now }
    {
        self.kept.number < MAX_NUMBER && self.kept.fits_by_kind(change)
    }

    /// A part of an index can stand behind those that wait, and the change that closes parts has as
    /// many entries as they have. Each other change fits them. Takes no memory.
    pub fn parts_fit(&self, change: &Change) -> bool
        requires { IsChange change.now }
        ensures { IsTrue result ↔ FitsParts self.now.lists.parts change.now }
    {
        match change {
            Change::IndexPart { ssid, part, index } => {
                *part == 0 || self.kept.parts.are_followed(*ssid, *part, index.as_slice())
            }
            Change::FinishedParts { ssid, files, .. } => self.kept.parts.are_of(*ssid, *files),
            _ => true,
        }
    }

    /// Takes the memory that the change will need, so that `apply` takes none. Several changes may
    /// be prepared before the first of them is applied.
    pub fn prepare(&mut self, change: &Change) -> Result<(), Memory>
        requires { IsChange change.now }
        ensures ready { OnOk result (IsReady self.new change.now) }
        ensures lists { self.new.lists ≡ self.old.lists }
        ensures room { KeepsRoom self.old.room self.new.room }
    {
        self.kept.make_room(change)
    }

    /// Takes the memory for an index that isn't at hand yet: for the change that closes a save, and,
    /// where the index comes in parts, for so many entries.
    pub fn prepare_index(&mut self, entries: u32) -> Result<(), Memory>
        ensures ready { OnOk result (0 < self.new.room.indexes) }
        ensures entries { OnOk result (entries ≤ self.new.room.entries) }
        ensures lists { self.new.lists ≡ self.old.lists }
        ensures room { KeepsRoom self.old.room self.new.room }
    {
        self.kept.make_room_for_index(entries)
    }

    /// Applies a change that fits and was prepared. It can't fail, and takes no memory.
    pub fn apply(&mut self, number: u64, m: Moment, change: Change)
        requires allowed { IsChange change }
        requires fits { Fits (catalogue_of self.old.lists) change }
        requires parts_fit { FitsParts self.old.lists.parts change }
        requires ready { IsReady self.old change }
        requires number { number ≡ self.old.lists.number + 1 }
        requires moment { m.0 ≤ max_moment }
        ensures applied { Applies (catalogue_of self.old.lists) self.old.lists.parts.entries m
            change (catalogue_of self.new.lists) }
        ensures lists { self.new.lists ≡ lists_after m change self.old.lists }
        ensures parts { self.new.lists.parts ≡ parts_after change self.old.lists.parts }
        ensures room { TakesRoom change self.old.room self.new.room }
    {
        match change {
            Change::IndexPart { ssid, part, index } => self.kept.parts.add(ssid, part, index),
            Change::FinishedParts {
                ssid,
                files,
                bytes,
                digest,
                sections,
            } => {
                let index = Items::of(self.kept.parts.take());
                let finished = Change::Finished {
                    ssid,
                    files,
                    bytes,
                    digest,
                    sections,
                    index,
                };
                self.kept.change(number, m, finished);
            }
            change => {
                self.kept.parts.clear();
                self.kept.change(number, m, change);
            }
        }
    }

    /// Drops the parts of an index that wait. Takes no memory.
    pub fn drop_parts(&mut self)
        ensures lists { self.new.lists ≡ without_parts self.old.lists }
        ensures room { KeepsRoom self.old.room self.new.room }
    {
        self.kept.parts.clear();
    }
}
