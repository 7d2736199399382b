//! Memory for effects that are to be done. Each of these calls keeps the room as it is, and what
//! was prepared before.

ghost use Rattle.std.specs.Prelude.{◌≡◌, ◌≤◌, ◌<◌, ◌^◌, ℕ, List, length, OnOk};
ghost use Rattle.room_base.specs.declared.numbers.Moment.{Moment};
ghost use Rattle.catalog_change.specs.Changes.{IsChange};
ghost use Rattle.room_effects.specs.Effects.{Enter, Push, entry_bytes};
ghost use Rattle.room_effects.specs.Memory.{HasMemoryFor};
ghost use Rattle.room_state.specs.Commits.{IsReadyForCommits};
ghost use Rattle.room_state.specs.Memory.{KeepsMemory};

use crate::state::RoomState;
use catalog_change::Change;
use catalog_text::change_length;
use room_base::{Memory, Ssid};

impl RoomState {
    /// Makes memory for a change and its entry, be it a part of an index, at whatever moment it
    /// will be entered. An entry whose length doesn't take four bytes is beyond all memory.
    pub fn prepare(&mut self, change: &Change) -> Result<(), Memory>
        requires { IsChange change.now }
        ensures ready { OnOk result ((m : Moment) → HasMemoryFor (Enter m change.now) self.new) }
        ensures short { OnOk result ((m : Moment) → length (entry_bytes m change.now) < 2 ^ 32) }
        ensures room { self.new.room ≡ self.old.room }
        ensures memory { KeepsMemory self.old.memory self.new.memory }
    {
        self.catalogue.prepare(change)?;
        self.prepare_entry(change_length(change))
    }

    /// Makes memory for an entry of so many bytes, where the change that it is spelled from isn't at
    /// hand yet.
    pub fn prepare_entry(&mut self, length: u64) -> Result<(), Memory>
        ensures ready { OnOk result (length ≤ self.new.memory.entry) }
        ensures short { OnOk result (length < 2 ^ 32) }
        ensures room { self.new.room ≡ self.old.room }
        ensures memory { KeepsMemory self.old.memory self.new.memory }
    {
        let Ok(length) = u32::try_from(length) else {
            return Err(Memory);
        };
        self.journal.reserve(length)
    }

    /// Makes memory for the end of a save: for the change that closes it, and, where the index of so
    /// many entries comes in parts, for those.
    pub fn prepare_index(&mut self, entries: u32) -> Result<(), Memory>
        ensures ready { OnOk result (0 < self.new.memory.catalogue.indexes) }
        ensures entries { OnOk result (entries ≤ self.new.memory.catalogue.entries) }
        ensures room { self.new.room ≡ self.old.room }
        ensures memory { KeepsMemory self.old.memory self.new.memory }
    {
        self.catalogue.prepare_index(entries)
    }

    /// Makes memory for the commit of each drive, whichever sessions are closed where it fails, also
    /// where one more is open then.
    pub fn prepare_commits(&mut self) -> Result<(), Memory>
        ensures ready { OnOk result (IsReadyForCommits self.new) }
        ensures more { OnOk result (length self.old.room.sessions < self.new.memory.closed) }
        ensures room { self.new.room ≡ self.old.room }
        ensures memory { KeepsMemory self.old.memory self.new.memory }
    {
        let count = self.sessions.ssids().len();
        self.closed.clear();
        self.closed.reserve(count + 1)?;
        Ok(())
    }

    /// Makes memory for one more part of the set's session, if it has one.
    pub fn prepare_push(&mut self, ssid: Ssid) -> Result<(), Memory>
        ensures ready { OnOk result ((drive copy offset : ℕ) (bytes : List ℕ)
            → HasMemoryFor (Push drive ssid.0 copy offset bytes) self.new) }
        ensures room { self.new.room ≡ self.old.room }
        ensures memory { KeepsMemory self.old.memory self.new.memory }
    {
        if self.sessions.is_open(ssid) {
            self.sessions.reserve(ssid)?;
        }
        Ok(())
    }
}
