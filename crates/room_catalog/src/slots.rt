//! The filled slots of the changer, in the order of their numbers.

ghost use Rattle.std.specs.Prelude.{◌≡◌, ◌+◌, ◌<◌, ◌≤◌, [], OnOk, option_copied};
ghost use Rattle.std.specs.Ordering.{nat_cmp};
ghost use Rattle.room_base.specs.Ordered.{Ascends, IsPlace, put_by, remove_by};
ghost use Rattle.catalog_change.specs.Catalogues.{slot_number};
ghost use Rattle.room_catalog.specs.Fits.{find_slot};

use catalog_change::FilledSlot;
use room_base::{Memory, insert_in_room};
use std::alloc::Global;
use std::marker::Model;

/// The slots that hold a cartridge.
#[derive(Drop)]
pub(crate) struct Slots {
    filled: Vec<FilledSlot>,
}

impl Model for Slots {
    ghost use Rattle.std.specs.Prelude.{◌-◌, vec_len, vec_capacity};
    ghost use Rattle.std.specs.Ordering.{nat_cmp};
    ghost use Rattle.room_base.specs.Ordered.{Ascends};
    ghost use Rattle.catalog_change.specs.Catalogues.{slot_number};
    ghost use Rattle.room_catalog.specs.Held.{HeldSlots};

    ghost Value = { HeldSlots };

    ghost view = { λ slots. record {
      slots = slots.filled.items;
      room = vec_capacity slots.filled - vec_len slots.filled;
    } };

    ghost invariant = { λ slots. Ascends nat_cmp slot_number slots.filled.items };
}

impl Slots {
    /// No slot is filled. Takes no memory.
    pub(crate) fn new(alloc: Global) -> Slots
        ensures { result.slots ≡ [] }
    {
        Slots {
            filled: Vec::new(alloc),
        }
    }

    /// Slots in the order of their numbers. Takes no memory.
    pub(crate) fn of(filled: Vec<FilledSlot>) -> Slots
        requires { Ascends nat_cmp slot_number filled.items }
        ensures { result.slots ≡ filled.items }
    {
        Slots { filled }
    }

    pub(crate) fn filled(&self) -> &[FilledSlot]
        ensures value { result.now ≡ self.now.slots }
        ensures order { Ascends nat_cmp slot_number self.now.slots }
    {
        &self.filled
    }

    pub(crate) fn find(&self, slot: u8) -> Option<&FilledSlot>
        ensures { option_copied result ≡ find_slot slot self.now.slots }
    {
        match slot_place(&self.filled, slot) {
            Ok(at) => Some(&self.filled[at]),
            Err(_) => None,
        }
    }

    /// Makes room for one more.
    pub(crate) fn reserve(&mut self) -> Result<(), Memory>
        ensures slots { self.new.slots ≡ self.old.slots }
        ensures no_less { self.old.room ≤ self.new.room }
        ensures ok { OnOk result (0 < self.new.room) }
    {
        self.filled.reserve(1)?;
        Ok(())
    }

    /// Fills a slot. There is room, and no memory is taken.
    pub(crate) fn fill(&mut self, filled: FilledSlot)
        requires { 0 < self.old.room }
        ensures slots { self.new.slots ≡ put_by nat_cmp slot_number filled self.old.slots }
        ensures room { self.old.room ≤ self.new.room + 1 }
    {
        match slot_place(&self.filled, filled.slot) {
            Ok(at) => self.filled[at] = filled,
            Err(at) => insert_in_room(&mut self.filled, at, filled),
        }
    }

    /// Empties a slot. Takes no memory.
    pub(crate) fn empty(&mut self, slot: u8)
        ensures slots { self.new.slots ≡ remove_by nat_cmp slot_number slot self.old.slots }
        ensures room { self.old.room ≤ self.new.room }
    {
        if let Ok(at) = slot_place(&self.filled, slot) {
            self.filled.remove(at);
        }
    }
}

// Where the slot is, or where it would go.
fn slot_place(slots: &[FilledSlot], slot: u8) -> Result<usize, usize>
    requires { Ascends nat_cmp slot_number slots.now }
    ensures { IsPlace nat_cmp slot_number slot slots.now result }
{
    slots.binary_search_by_key(&slot, |filled| filled.slot)
}
