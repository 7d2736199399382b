//! Room for changes that will be applied.

ghost use Rattle.std.specs.Prelude.{◌≡◌, ◌+◌, ◌<◌, ◌≤◌, OnOk};
ghost use Rattle.catalog_change.specs.Catalogues.{IsCatalogue};
ghost use Rattle.catalog_change.specs.Changes.{IsChange, IsCount};
ghost use Rattle.room_catalog.specs.Held.{catalogue_of};
ghost use Rattle.room_catalog.specs.Ready.{IsReady, KeepsRoom};
ghost use Rattle.room_catalog.specs.Views.{held_of};

use crate::fitting::MAX_COPIES;
use crate::kept::Kept;
use crate::parts::MAX_PART;
use catalog_change::Change;
use room_base::Memory;

// The most that a count of four bytes can say.
const MAX_COUNT: usize = 4_294_967_295;

impl Kept {
    /// Makes room for what a change adds.
    pub(crate) fn make_room(&mut self, change: &Change) -> Result<(), Memory>
        requires allowed { IsChange change.now }
        requires catalogue { IsCatalogue (catalogue_of (held_of self.old).lists) }
        ensures ready { OnOk result (IsReady (held_of self.new) change.now) }
        ensures lists { (held_of self.new).lists ≡ (held_of self.old).lists }
        ensures room { KeepsRoom (held_of self.old).room (held_of self.new).room }
    {
        match change {
            Change::Defined { resources } => {
                let new = resources.as_slice();
                can_count(self.resources.counts().sum(), new.len())?;
                self.resources.reserve(new)
            }
            Change::Loaded { .. } => self.slots.reserve(),
            Change::Labelled { .. } => {
                can_count(self.db.volumes().len(), 1)?;
                self.db.reserve_volume()
            }
            Change::Begun { .. } => {
                can_count(self.db.records().len(), 1)?;
                self.db.reserve_record()?;
                self.copies.reserve(1)
            }
            Change::Finished { .. } | Change::FinishedParts { .. } => self.index.reserve(),
            Change::CopyBegun { .. } => self.copies.reserve(MAX_COPIES),
            Change::IndexPart { part, index, .. } => {
                let before = MAX_PART as usize * *part as usize;
                self.parts.reserve(before + index.as_slice().len())
            }
            Change::Dropped { .. }
            | Change::Ejected { .. }
            | Change::Aborted { .. }
            | Change::Amended { .. }
            | Change::Deleted { .. }
            | Change::Purged { .. }
            | Change::CopyDone { .. } => Ok(()),
        }
    }

    /// Makes room for an index, and for so many entries of its parts.
    pub(crate) fn make_room_for_index(&mut self, entries: u32) -> Result<(), Memory>
        ensures ready { OnOk result (0 < (held_of self.new).room.indexes) }
        ensures entries { OnOk result (entries ≤ (held_of self.new).room.entries) }
        ensures lists { (held_of self.new).lists ≡ (held_of self.old).lists }
        ensures room { KeepsRoom (held_of self.old).room (held_of self.new).room }
    {
        self.index.reserve()?;
        self.parts.reserve(entries as usize)
    }
}

// A snapshot can count so many, and the new ones.
fn can_count(count: usize, new: usize) -> Result<(), Memory>
    ensures { OnOk result (IsCount (count + new)) }
{
    if count > MAX_COUNT || new > MAX_COUNT - count {
        return Err(Memory);
    }
    Ok(())
}
