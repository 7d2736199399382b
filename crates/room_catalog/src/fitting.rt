//! Which changes fit.

ghost use Rattle.std.specs.Prelude.{◌≡◌, ◌≢◌, ◌↔◌, IsTrue};
ghost use Rattle.std.specs.List.{AllByRecursion};
ghost use Rattle.save_stream.specs.Heads.{head_of_parts};
ghost use Rattle.media_db.specs.Streams.{head_of};
ghost use Rattle.catalog_change.specs.Catalogues.{IsCatalogue};
ghost use Rattle.catalog_change.specs.Changes.{IsCart, IsChange};
ghost use Rattle.room_catalog.specs.Fits.{FitsByKind, HasCopy, HasRow};
ghost use Rattle.room_catalog.specs.Fits.{IsBegun, IsComplete, IsCopyFinishable, IsCopyable};
ghost use Rattle.room_catalog.specs.Fits.{IsFinishable, IsLoadable};
ghost use Rattle.room_catalog.specs.Held.{catalogue_of};
ghost use Rattle.room_catalog.specs.Views.{held_of};

use crate::kept::Kept;
use crate::slots::Slots;
use catalog_change::Change;
use media_db::{CopyState, Record, RecordState};
use room_base::{Cart, CopyNo, MAX_MOMENT, Ssid};
use save_stream::{HeadParts, head_length};

/// The greatest number of a catalogue, of its next save set and of its next volume.
pub(crate) const MAX_NUMBER: u64 = 9_223_372_036_854_775_807;

// The greatest next copy of a record.
const MAX_COPY: u32 = 4_294_967_295;

/// The most copies of a save set.
pub(crate) const MAX_COPIES: usize = 16;

const MAX_SLOT: u8 = 32;

const MAX_CART: u32 = 256;

impl Kept {
    /// The change fits, if the number can rise.
    pub(crate) fn fits_by_kind(&self, change: &Change) -> bool
        requires allowed { IsChange change.now }
        requires catalogue { IsCatalogue (catalogue_of (held_of self.now).lists) }
        ensures { IsTrue result
            ↔ FitsByKind (catalogue_of (held_of self.now).lists) change.now }
    {
        match change {
            Change::Defined { resources } => self.resources.are_addable(resources.as_slice()),
            Change::Dropped { kind, name } => {
                self.resources.has(*kind, name.as_bytes())
                    && self.resources.are_free_of(*kind, name.as_bytes())
            }
            Change::Loaded { slot, cart } => self.slots.is_loadable(*slot, *cart),
            Change::Ejected { slot } => self.slots.find(*slot).is_some(),
            Change::Labelled {
                volid,
                cart,
                pool,
                ..
            } => {
                self.next_volid.0 <= volid.0
                    && volid.0 < MAX_NUMBER
                    && is_cart(*cart)
                    && self.resources.pool(pool.as_bytes()).is_some()
            }
            Change::Begun { head } => {
                self.next_ssid.0 <= head.ssid.0
                    && head.ssid.0 < MAX_NUMBER
                    && (head.base.0 == 0 || self.db.record(head.base).is_some())
            }
            Change::Finished { ssid, bytes, .. } => self.is_finishable(*ssid, *bytes),
            Change::Aborted { ssid } => self.is_begun(*ssid),
            Change::Amended {
                ssid,
                browse,
                retain,
                ..
            } => {
                self.db.record(*ssid).is_some() && browse.0 <= retain.0 && retain.0 <= MAX_MOMENT.0
            }
            Change::Deleted { ssid } => self.db.record(*ssid).is_some(),
            Change::Purged { ssids } => self.are_complete(ssids.as_slice()),
            Change::CopyBegun { ssid, copy } => self.is_copyable(*ssid, *copy),
            Change::CopyDone {
                ssid,
                copy,
                removed,
                ..
            } => self.is_copy_finishable(*ssid, *copy, *removed),
            Change::IndexPart { ssid, .. } => self.is_begun(*ssid),
            Change::FinishedParts { ssid, bytes, .. } => self.is_finishable(*ssid, *bytes),
        }
    }

    fn is_begun(&self, ssid: Ssid) -> bool
        ensures { IsTrue result
            ↔ HasRow (catalogue_of (held_of self.now).lists) ssid.0 IsBegun }
    {
        match self.db.record(ssid) {
            Some(row) => row.state == RecordState::Begun,
            None => false,
        }
    }

    fn is_complete(&self, ssid: Ssid) -> bool
        ensures { IsTrue result
            ↔ HasRow (catalogue_of (held_of self.now).lists) ssid.0 IsComplete }
    {
        match self.db.record(ssid) {
            Some(row) => row.state == RecordState::Complete,
            None => false,
        }
    }

    fn are_complete(&self, ssids: &[Ssid]) -> bool
        ensures { IsTrue result ↔ AllByRecursion
            (λ ssid. HasRow (catalogue_of (held_of self.now).lists) ssid.0 IsComplete) ssids.now }
    {
        ssids.iter().all(|ssid| self.is_complete(*ssid))
    }

    fn is_finishable(&self, ssid: Ssid, bytes: u64) -> bool
        requires { IsCatalogue (catalogue_of (held_of self.now).lists) }
        ensures { IsTrue result
            ↔ HasRow (catalogue_of (held_of self.now).lists) ssid.0 (IsFinishable bytes) }
    {
        match self.db.record(ssid) {
            Some(row) => row.state == RecordState::Begun && head_length(&parts_of(row)) < bytes,
            None => false,
        }
    }

    fn is_copyable(&self, ssid: Ssid, copy: CopyNo) -> bool
        ensures { IsTrue result
            ↔ HasRow (catalogue_of (held_of self.now).lists) ssid.0 (IsCopyable copy.0) }
    {
        match self.db.record(ssid) {
            Some(row) => {
                row.state == RecordState::Complete
                    && row.copies.as_slice().len() < MAX_COPIES
                    && row.next_copy <= copy.0
                    && copy.0 < MAX_COPY
            }
            None => false,
        }
    }

    fn is_copy_finishable(&self, ssid: Ssid, copy: CopyNo, removed: CopyNo) -> bool
        ensures { IsTrue result ↔ HasRow (catalogue_of (held_of self.now).lists) ssid.0
            (IsCopyFinishable copy.0 removed.0) }
    {
        match self.db.record(ssid) {
            Some(row) => {
                row.state == RecordState::Complete
                    && has_copy(row, copy, CopyState::Begun)
                    && (removed.0 == 0
                        || removed.0 != copy.0 && has_copy(row, removed, CopyState::Done))
            }
            None => false,
        }
    }
}

impl Slots {
    /// A cartridge can be put into the slot.
    pub(crate) fn is_loadable(&self, slot: u8, cart: Cart) -> bool
        ensures { IsTrue result ↔ IsLoadable self.now.slots slot cart }
    {
        slot >= 1
            && slot <= MAX_SLOT
            && self.find(slot).is_none()
            && is_cart(cart)
            && self.is_elsewhere(cart)
    }

    // No slot has the cartridge.
    fn is_elsewhere(&self, cart: Cart) -> bool
        ensures { IsTrue result
            ↔ AllByRecursion (λ filled. filled.cart.0 ≢ cart.0) self.now.slots }
    {
        self.filled().iter().all(|filled| filled.cart.0 != cart.0)
    }
}

fn is_cart(cart: Cart) -> bool
    ensures { IsTrue result ↔ IsCart cart }
{
    cart.0 >= 1 && cart.0 <= MAX_CART
}

// A copy of the number is in this state.
fn has_copy(row: &Record, no: CopyNo, state: CopyState) -> bool
    ensures { IsTrue result ↔ HasCopy no.0 state row.now }
{
    row.copies
        .as_slice()
        .iter()
        .any(|copy| copy.no.0 == no.0 && copy.state == state)
}

// The parts of a record's head.
fn parts_of(row: &Record) -> HeadParts<'_>
    ensures { head_of_parts result ≡ head_of row.now }
{
    HeadParts {
        ssid: row.ssid,
        base: row.base,
        level: row.level,
        saved: row.saved,
        browse: row.browse,
        retain: row.retain,
        client: &row.client,
        set: &row.set,
        group: &row.group,
        pool: &row.pool,
    }
}
