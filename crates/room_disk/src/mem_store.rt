ghost use Rattle.std.specs.Prelude.{◌≡◌, ◌⊎◌, ◌↔◌, ℕ, ◌+◌, ◌-◌, ◌<◌, ◌≤◌, ◌^◌, ◌∷◌, List, []};
ghost use Rattle.std.specs.Prelude.{length, take, drop, min, IfOk, IsOk, OnOk, OnErr, IsTrue};
ghost use Rattle.room_base.specs.Faults.{risen};
ghost use Rattle.room_disk.specs.Blank.{IsBlank};
ghost use Rattle.room_disk.specs.Crash.{overlaid, Torn, CutShort};
ghost use Rattle.room_disk.specs.Crashed.{crashed_file, part_of};
ghost use Rattle.room_disk.specs.Disk.{IsDisk, Quiet, Others, Leaves, Images, Settled, FileCause};
ghost use Rattle.room_disk.specs.Faults.{one_more_fault, no_faults, HasRisen};
ghost use Rattle.room_disk.specs.Memory.{IsToFail, counted, told_store, ChangesNothing, Changes};
ghost use Rattle.room_disk.specs.Past.{listed};
ghost use Rattle.room_disk.specs.declared.disk_event.DiskEvent.TheVariants.{Written, Cut, Synced};

use crate::Store;
use crate::fault_counts::FaultCounts;
use crate::history::History;
use crate::part::part_of;
use room_base::{CallCount, Failed, Memory, risen_count};
use std::alloc::Global;
use std::marker::Model;

/// A disk in memory. Its listed calls fail, and it can stop for good. A call for which it finds no
/// memory is a fault of its file too, which `short` counts apart.
#[derive(Drop)]
pub struct MemStore {
    past: History,
    calls: CallCount,
    left: Option<u64>,
    faults: FaultCounts,
    short: u64,
}

impl Model for MemStore {
    ghost use Rattle.room_disk.specs.Memory.{StoreInMemory};

    ghost Value = { StoreInMemory };

    ghost view = { λ store. record {
      past = store.past;
      calls = store.calls;
      left = store.left;
      faults = store.faults;
      short = store.short;
    } };
}

impl MemStore {
    /// A blank disk. `failing` holds the numbers of the calls that are to fail, counted from 1.
    /// With `stop`, every call after so many fails.
    pub fn new(alloc: Global, failing: Vec<u64>, stop: Option<u64>) -> MemStore
        ensures new { result ≡ record {
          past = record { first = []; events = [] };
          calls = record { failing = failing.items; made = 0 };
          left = stop;
          faults = no_faults;
          short = 0;
        } }
        ensures blank { IsBlank (told_store result) }
    {
        MemStore {
            past: History::new(alloc),
            calls: CallCount::new(failing),
            left: stop,
            faults: FaultCounts::new(),
            short: 0,
        }
    }

    /// How many calls failed for want of memory.
    pub fn short(&self) -> u64
        ensures { result ≡ self.now.short }
    {
        self.short
    }

    /// How many calls were made.
    pub fn calls(&self) -> u64
        ensures { result ≡ self.now.calls.made }
    {
        self.calls.made()
    }

    /// The disk after a crash, with nothing pending and no call that is to fail. Of what was
    /// written or cut since the last sync of its file it has nothing (0), all (1), all ranges full
    /// of 0xFF (2), or the first half of each write and all cuts (3).
    pub fn crashed(self, choice: u8) -> MemStore
        requires { choice < 4 }
        ensures image { (file : ℕ) → (told_store result).reads file
            ≡ crashed_file (part_of choice) (listed self.past.first) self.past.events file }
        ensures possible { Images (told_store self) (told_store result).reads }
        ensures settled { (file : ℕ) → Settled (told_store result) file }
        ensures rest { result ≡ record {
          past = record { first = result.past.first; events = [] };
          calls = record { failing = []; made = 0 };
          left = None;
          faults = no_faults;
          short = 0;
        } }
    {
        let alloc = self.past.allocator();
        MemStore {
            past: self.past.crashed(part_of(choice)),
            calls: CallCount::new(Vec::new(alloc)),
            left: None,
            faults: FaultCounts::new(),
            short: 0,
        }
    }

    // Counts one more call, and says whether it is to fail.
    fn next_fails(&mut self) -> bool
        ensures fails { IsTrue result ↔ IsToFail self.old }
        ensures counted { self.new ≡ counted self.old }
    {
        let listed = self.calls.next_fails();
        match self.left {
            Some(0) => true,
            Some(left) => {
                self.left = Some(left - 1);
                listed
            }
            None => listed,
        }
    }

    // Counts a fault of the file.
    fn fault(&mut self, file: u32) -> Failed
        ensures exact { self.new
            ≡ record self.old { faults = one_more_fault file self.old.faults } }
        ensures risen { HasRisen file self.old.faults self.new.faults }
    {
        self.faults.rise(file);
        Failed
    }

    // Counts a fault of the file for want of memory, where the answer is one.
    fn answer(&mut self, file: u32, done: Result<(), Memory>) -> Result<(), Failed>
        ensures done { OnOk done (self.new ≡ self.old) }
        ensures lacking { OnErr done (self.new ≡ record self.old {
          faults = one_more_fault file self.old.faults;
          short = risen self.old.short;
        }) }
        ensures past { self.new.past ≡ self.old.past }
        ensures risen { OnErr done (HasRisen file self.old.faults self.new.faults) }
        ensures same { IsOk result ↔ IsOk done }
    {
        match done {
            Ok(()) => Ok(()),
            Err(Memory) => {
                self.short = risen_count(self.short);
                Err(self.fault(file))
            }
        }
    }
}

impl Store for MemStore {
    ghost use Rattle.room_disk.specs.Laws.{past_is_disk};
    ghost use Rattle.room_disk.specs.Faults.{faults_on};

    ghost view = { told_store };

    ghost is_disk = { λ store. past_is_disk (listed store.past.first) store.past.events
        (faults_on store.faults) };

    fn len(&mut self, file: u32) -> Result<u64, Failed>
        ensures cause { FileCause file (told_store self.old) (told_store self.new) result }
        ensures quiet { Quiet (told_store self.old) (told_store self.new) }
        ensures length { IfOk result (λ len. len ≡ length ((told_store self.old).reads file)) }
        ensures looks { ChangesNothing file self.old self.new result }
    {
        if self.next_fails() {
            return Err(self.fault(file));
        }
        Ok(self.past.bytes(file).len() as u64)
    }

    fn read_at(&mut self, file: u32, at: u64, into: &mut [u8]) -> Result<u64, Failed>
        ensures within { IfOk result (λ count. count ≤ length into.old) }
        ensures rest { IfOk result (λ count. drop count into.new ≡ drop count into.old) }
        ensures cause { FileCause file (told_store self.old) (told_store self.new) result }
        ensures quiet { Quiet (told_store self.old) (told_store self.new) }
        ensures count { IfOk result (λ count.
            count ≡ min (length into.old) (length ((told_store self.old).reads file) - at)) }
        ensures given { IfOk result (λ count.
            take count into.new ≡ take count (drop at ((told_store self.old).reads file))) }
        ensures looks { ChangesNothing file self.old self.new result }
    {
        if self.next_fails() {
            return Err(self.fault(file));
        }
        Ok(copy_from(self.past.bytes(file), at as usize, into) as u64)
    }

    fn write_at(&mut self, file: u32, at: u64, bytes: &[u8]) -> Result<(), Failed>
        ensures fits { OnOk result (at + length bytes.now < 2 ^ 64) }
        ensures cause { FileCause file (told_store self.old) (told_store self.new) result }
        ensures written { OnOk result
            ((told_store self.new).reads file
            ≡ overlaid at bytes.now ((told_store self.old).reads file)) }
        ensures others { Others file (told_store self.old) (told_store self.new) }
        ensures torn { (after : List ℕ) → (told_store self.new).leaves file after
            → (before : List ℕ) × (told_store self.old).leaves file before
            × Torn at bytes.now before after }
        ensures moments { Leaves (told_store self.old) (told_store self.new)
            (Images (told_store self.new)) }
        ensures changes { Changes (IsToFail self.old ⊎ (2 ^ 64 ≤ at + length bytes.now)) file
            (record self.old.past { events = Written file at bytes.now ∷ self.old.past.events })
            self.old self.new result }
    {
        if self.next_fails() || at.checked_add(bytes.len() as u64).is_none() {
            return Err(self.fault(file));
        }
        let done = self.past.write(file, at as usize, bytes);
        self.answer(file, done)
    }

    fn sync(&mut self, file: u32) -> Result<(), Failed>
        ensures cause { FileCause file (told_store self.old) (told_store self.new) result }
        ensures quiet { Quiet (told_store self.old) (told_store self.new) }
        ensures settled { OnOk result (Settled (told_store self.new) file) }
        ensures changes { Changes (IsToFail self.old) file
            (record self.old.past { events = Synced file ∷ self.old.past.events }) self.old
            self.new result }
    {
        if self.next_fails() {
            return Err(self.fault(file));
        }
        let done = self.past.sync(file);
        self.answer(file, done)
    }

    fn cut(&mut self, file: u32, to: u64) -> Result<(), Failed>
        ensures cause { FileCause file (told_store self.old) (told_store self.new) result }
        ensures cut { OnOk result
            ((told_store self.new).reads file ≡ take to ((told_store self.old).reads file)) }
        ensures others { Others file (told_store self.old) (told_store self.new) }
        ensures torn { (after : List ℕ) → (told_store self.new).leaves file after
            → (before : List ℕ) × (told_store self.old).leaves file before
            × CutShort to before after }
        ensures moments { Leaves (told_store self.old) (told_store self.new)
            (Images (told_store self.new)) }
        ensures changes { Changes (IsToFail self.old) file
            (record self.old.past { events = Cut file to ∷ self.old.past.events }) self.old
            self.new result }
    {
        if self.next_fails() {
            return Err(self.fault(file));
        }
        let done = self.past.cut(file, to);
        self.answer(file, done)
    }
}

// Copies what stands from `at` on, as far as there is room, and says how much that is.
fn copy_from(bytes: &[u8], at: usize, into: &mut [u8]) -> usize
    ensures count { result ≡ min (length into.old) (length bytes.now - at) }
    ensures copied { take result into.new ≡ take result (drop at bytes.now) }
    ensures rest { drop result into.new ≡ drop result into.old }
{
    let (_, left) = bytes.split_at(at.min(bytes.len()));
    let count = left.len().min(into.len());
    into[..count].copy_from_slice(&left[..count]);
    count
}
