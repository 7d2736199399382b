//! The parts of an index that wait for the change that closes them.

ghost use Rattle.std.specs.Prelude.{◌≡◌, ◌+◌, ◌*◌, ◌≤◌, ◌⊎◌, ◌↔◌, [], ◌++◌, length, IsTrue, OnOk};
ghost use Rattle.save_stream.specs.Spelling.{PathsAscend};
ghost use Rattle.catalog_change.specs.Changes.{max_part};
ghost use Rattle.room_catalog.specs.Applying.{with_part};
ghost use Rattle.room_catalog.specs.Fits.{AreParts, FollowsParts};
ghost use Rattle.room_catalog.specs.Held.{no_parts};

use client_index::paths_ascend;
use room_base::{Items, Memory, Ssid};
use save_stream::IndexEntry;
use std::alloc::Global;
use std::marker::Model;
use std::mem;

/// How many entries each part of an index has, but for the last one.
pub(crate) const MAX_PART: u64 = 10_000;

/// The parts of one set that wait, joined. The list keeps its room when they are dropped.
#[derive(Drop)]
pub(crate) struct PendingParts {
    ssid: Ssid,
    count: u64,
    entries: Vec<IndexEntry>,
}

impl Model for PendingParts {
    ghost use Rattle.std.specs.Prelude.{vec_capacity};
    ghost use Rattle.save_stream.specs.Spelling.{PathsAscend};
    ghost use Rattle.room_catalog.specs.Held.{HeldParts};

    ghost Value = { HeldParts };

    ghost view = { λ pending. record {
      parts = record {
        ssid = pending.ssid.0;
        count = pending.count;
        entries = pending.entries.items;
      };
      capacity = vec_capacity pending.entries;
    } };

    ghost invariant = { λ pending. PathsAscend pending.entries.items };
}

impl PendingParts {
    /// Takes no memory.
    pub(crate) fn new(alloc: Global) -> PendingParts
        ensures { result.parts ≡ no_parts }
    {
        PendingParts {
            ssid: Ssid(0),
            count: 0,
            entries: Vec::new(alloc),
        }
    }

    /// Makes room for so many entries in all.
    pub(crate) fn reserve(&mut self, count: usize) -> Result<(), Memory>
        ensures parts { self.new.parts ≡ self.old.parts }
        ensures no_less { self.old.capacity ≤ self.new.capacity }
        ensures ok { OnOk result (count ≤ self.new.capacity) }
    {
        let more = count.saturating_sub(self.entries.len());
        self.entries.reserve(more)?;
        Ok(())
    }

    /// A part can follow those that wait.
    pub(crate) fn are_followed(&self, ssid: Ssid, part: u32, index: &[IndexEntry]) -> bool
        requires { PathsAscend index.now }
        ensures { IsTrue result ↔ FollowsParts self.now.parts ssid.0 part index.now }
    {
        let full = MAX_PART * u64::from(part);
        self.ssid.0 == ssid.0
            && self.count == u64::from(part)
            && self.entries.len() as u64 == full
            && self.are_below(index)
    }

    // The paths of an index ascend, and stand above those that wait.
    fn are_below(&self, index: &[IndexEntry]) -> bool
        requires { PathsAscend index.now }
        ensures { IsTrue result ↔ PathsAscend (self.now.parts.entries ++ index.now) }
    {
        match (self.entries.last(), index.first()) {
            (Some(last), Some(first)) => { last.path.as_bytes().cmp(first.path.as_bytes()).is_lt() }
            _ => true,
        }
    }

    /// The parts that wait are those of the set, and have so many entries.
    pub(crate) fn are_of(&self, ssid: Ssid, files: u32) -> bool
        ensures { IsTrue result ↔ AreParts self.now.parts ssid.0 files }
    {
        self.count >= 1 && self.ssid.0 == ssid.0 && self.entries.len() as u64 == u64::from(files)
    }

    /// Adds a part. Part 0 takes the place of all that wait. There is room, and no memory is taken.
    pub(crate) fn add(&mut self, ssid: Ssid, part: u32, index: Items<IndexEntry>)
        requires full { (part ≡ 0) ⊎ (length self.old.parts.entries ≡ max_part * part) }
        requires room { max_part * part + length index ≤ self.old.capacity }
        requires ascend { PathsAscend (with_part ssid part index self.old.parts).entries }
        ensures parts { self.new.parts ≡ with_part ssid part index self.old.parts }
        ensures capacity { self.old.capacity ≤ self.new.capacity }
    {
        if part == 0 {
            self.entries.clear();
        }
        let mut index = index.into_list();
        self.entries.append(&mut index).unwrap();
        self.ssid = ssid;
        self.count = u64::from(part) + 1;
    }

    /// Drops the parts. Takes no memory.
    pub(crate) fn clear(&mut self)
        ensures parts { self.new.parts ≡ no_parts }
        ensures capacity { self.old.capacity ≤ self.new.capacity }
    {
        self.ssid = Ssid(0);
        self.count = 0;
        self.entries.clear();
    }

    /// Gives the joined entries away, with their list. Takes no memory.
    pub(crate) fn take(&mut self) -> Vec<IndexEntry>
        ensures entries { result.items ≡ self.old.parts.entries }
        ensures ascend { PathsAscend result.items }
        ensures parts { self.new.parts ≡ no_parts }
    {
        let none = Vec::new(*self.entries.allocator());
        self.ssid = Ssid(0);
        self.count = 0;
        mem::replace(&mut self.entries, none)
    }
}
