//! What a catalogue keeps, and what each change makes of it. Nothing here takes memory.

ghost use Rattle.std.specs.Prelude.{◌≡◌, ◌<◌, [], vec_capacity};
ghost use Rattle.catalog_change.specs.Changes.{IsChange};
ghost use Rattle.room_catalog.specs.Changing.{HasWholeDigest, changed};
ghost use Rattle.room_catalog.specs.Fits.{FitsByKind};
ghost use Rattle.room_catalog.specs.Held.{catalogue_of};
ghost use Rattle.room_catalog.specs.Ready.{IsReady, TakesRoom};
ghost use Rattle.room_catalog.specs.Views.{held_of};

use crate::copy_room::CopyRoom;
use crate::parts::PendingParts;
use crate::saves::{begun_record, purge};
use crate::slots::Slots;
use crate::volumes::lay_volume;
use catalog_change::{Change, FilledSlot};
use client_index::ClientIndex;
use media_db::{MediaDb, VolumeRec};
use resource_lists::Resources;
use room_base::{Moment, Ssid, Volid};

/// Everything that a catalogue keeps.
#[derive(Drop)]
pub(crate) struct Kept {
    pub(crate) number: u64,
    pub(crate) last_moment: Moment,
    pub(crate) next_ssid: Ssid,
    pub(crate) next_volid: Volid,
    pub(crate) resources: Resources,
    pub(crate) slots: Slots,
    pub(crate) db: MediaDb,
    pub(crate) index: ClientIndex,
    pub(crate) parts: PendingParts,
    pub(crate) copies: CopyRoom,
}

impl Kept {
    /// Applies a change that fits and is ready. Parts of an index are added, and closed, elsewhere.
    pub(crate) fn change(&mut self, number: u64, m: Moment, change: Change)
        requires allowed { IsChange change }
        requires fits { FitsByKind (catalogue_of (held_of self.old).lists) change }
        requires ready { IsReady (held_of self.old) change }
        ensures lists { (held_of self.new).lists
            ≡ changed number m change (held_of self.old).lists }
        ensures room { TakesRoom change (held_of self.old).room (held_of self.new).room }
        ensures kept { IsChange change }
        ensures digest { HasWholeDigest change }
    {
        self.number = number;
        self.last_moment = m;
        match change {
            Change::Defined { resources } => self.resources.define(resources),
            Change::Dropped { kind, name } => self.resources.remove(kind, name.as_bytes()),
            Change::Loaded { slot, cart } => self.slots.fill(FilledSlot { slot, cart }),
            Change::Ejected { slot } => self.slots.empty(slot),
            Change::Labelled {
                volid,
                cart,
                pool,
                capacity,
                was,
            } => {
                self.next_volid = Volid(volid.0 + 1);
                let volume = VolumeRec {
                    volid,
                    cart,
                    pool,
                    capacity,
                    was,
                };
                lay_volume(&mut self.db, &mut self.index, volume);
            }
            Change::Begun { head } => {
                self.next_ssid = Ssid(head.ssid.0 + 1);
                self.db.put_record(begun_record(head, self.copies.take()));
            }
            Change::Finished {
                ssid,
                files,
                bytes,
                digest,
                sections,
                index,
            } => {
                self.db.finish(ssid, files, bytes, digest, sections);
                self.index.put(ssid, index.into_list());
            }
            Change::Aborted { ssid } => self.db.abort(ssid),
            Change::Amended {
                ssid,
                browse,
                retain,
                hold,
            } => self.db.amend(ssid, browse, retain, hold, number),
            Change::Deleted { ssid } => {
                self.db.remove_record(ssid);
                self.index.forget(ssid);
            }
            Change::Purged { ssids } => {
                purge(&mut self.db, &mut self.index, ssids.as_slice(), number);
            }
            Change::CopyBegun { ssid, copy } => {
                self.db.begin_copy(ssid, copy, self.copies.take());
            }
            Change::CopyDone {
                ssid,
                copy,
                sections,
                removed,
            } => {
                self.db.finish_copy(ssid, copy, sections);
                self.db.remove_copy(ssid, removed);
            }
            Change::IndexPart { .. } | Change::FinishedParts { .. } => {}
        }
    }
}
