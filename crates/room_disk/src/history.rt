ghost use Rattle.std.specs.Prelude.{◌≡◌, ℕ, ◌+◌, ◌-◌, ◌<◌, ◌≤◌, ◌^◌, ◌∷◌, List, [], length, min};
ghost use Rattle.std.specs.Prelude.{take, drop, OnOk, OnErr};
ghost use Rattle.room_disk.specs.Crashed.{crashed_file};
ghost use Rattle.room_disk.specs.Past.{listed, read_after};
ghost use Rattle.room_disk.specs.declared.disk_event.DiskEvent.TheVariants.{Written, Cut, Synced};

use crate::disk_event::DiskEvent;
use crate::mem_file::{MemFile, make_room, position};
use crate::part::Part;
use crate::rebuilding::rebuild_all;
use room_base::{Items, Memory};
use std::alloc::Global;
use std::marker::Model;

/// What a store in memory has recorded: its files at first, and each call that changed something.
/// Each file's bytes are kept beside it, so that a read needs no replay.
#[derive(Drop)]
pub struct History {
    alloc: Global,
    files: Vec<MemFile>,
    events: Vec<DiskEvent>,
}

impl Model for History {
    ghost use Rattle.std.specs.Prelude.{reverse};
    ghost use Rattle.room_disk.specs.Past.{Past};
    ghost use Rattle.room_disk.specs.Kept.{AreFilesKept, first_bytes};

    ghost Value = { Past };

    ghost view = { λ history. record {
      first = first_bytes history.files.items;
      events = reverse history.events.items;
    } };

    ghost invariant = { λ history.
        AreFilesKept (first_bytes history.files.items)
        (reverse history.events.items) history.files.items };
}

impl History {
    pub fn new(alloc: Global) -> History
        ensures { result ≡ record { first = []; events = [] } }
    {
        History {
            alloc,
            files: Vec::new(alloc),
            events: Vec::new(alloc),
        }
    }

    /// What the file reads now.
    pub fn bytes(&self, file: u32) -> &[u8]
        ensures { result.now ≡ read_after (listed self.now.first) self.now.events file }
    {
        match position(&self.files, file) {
            Some(index) => self.files[index].now.as_slice(),
            None => &[],
        }
    }

    /// Writes the bytes from `at` on, and records that. Where there is no memory, nothing is done.
    pub fn write(&mut self, file: u32, at: usize, bytes: &[u8]) -> Result<(), Memory>
        requires { at + length bytes.now < 2 ^ 64 }
        ensures done { OnOk result
            (self.new ≡ record self.old { events = Written file at bytes.now ∷ self.old.events }) }
        ensures undone { OnErr result (self.new ≡ self.old) }
    {
        let piece = Items::of(Vec::from_slice(self.alloc, bytes)?);
        let index = make_room(self.alloc, &mut self.files, file, at + bytes.len())?;
        self.events.push(DiskEvent::Written {
            file,
            at: at as u64,
            bytes: piece,
        })?;
        let kept = &mut self.files[index];
        kept.now.overlay(at, bytes);
        Ok(())
    }

    /// Cuts the file, and records that. Where there is no memory, nothing is done.
    pub fn cut(&mut self, file: u32, to: u64) -> Result<(), Memory>
        ensures done { OnOk result
            (self.new ≡ record self.old { events = Cut file to ∷ self.old.events }) }
        ensures undone { OnErr result (self.new ≡ self.old) }
    {
        self.events.push(DiskEvent::Cut { file, to })?;
        if let Some(index) = position(&self.files, file) {
            let kept = &mut self.files[index];
            kept.now.cut(to as usize);
        }
        Ok(())
    }

    /// Records that the file was synced. Where there is no memory, nothing is done.
    pub fn sync(&mut self, file: u32) -> Result<(), Memory>
        ensures done { OnOk result
            (self.new ≡ record self.old { events = Synced file ∷ self.old.events }) }
        ensures undone { OnErr result (self.new ≡ self.old) }
    {
        self.events.push(DiskEvent::Synced { file })?;
        Ok(())
    }

    /// One image that a crash may leave, with nothing pending: of each event since the last sync of
    /// its file it has this part. Takes no memory.
    pub fn crashed(self, part: Part) -> History
        ensures settled { result.events ≡ [] }
        ensures image { (file : ℕ)
            → listed result.first file ≡ crashed_file part (listed self.first) self.events file }
    {
        let History {
            alloc,
            mut files,
            mut events,
        } = self;
        rebuild_all(&mut files, &events, part);
        events.clear();
        History {
            alloc,
            files,
            events,
        }
    }

    pub fn allocator(&self) -> Global
        ensures { (other : Global) → result ≡ other }
    {
        self.alloc
    }
}
