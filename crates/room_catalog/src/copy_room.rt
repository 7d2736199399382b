//! The list that a record's copies move into, when it gets one more.

ghost use Rattle.std.specs.Prelude.{◌≡◌, ◌≤◌, [], OnOk, vec_capacity};

use media_db::SetCopy;
use room_base::Memory;
use std::alloc::Global;
use std::marker::Model;
use std::mem;

/// An empty list with room for copies. Contracts see how many it has room for.
#[derive(Drop)]
pub(crate) struct CopyRoom {
    list: Vec<SetCopy>,
}

impl Model for CopyRoom {
    ghost use Rattle.std.specs.Prelude.{◌≡◌, [], ℕ, vec_capacity};

    ghost Value = { ℕ };

    ghost view = { λ room. vec_capacity room.list };

    ghost invariant = { λ room. room.list.items ≡ [] };
}

impl CopyRoom {
    /// Takes no memory.
    pub(crate) fn new(alloc: Global) -> CopyRoom {
        CopyRoom {
            list: Vec::new(alloc),
        }
    }

    /// Makes room for so many copies.
    pub(crate) fn reserve(&mut self, count: usize) -> Result<(), Memory>
        ensures no_less { self.old ≤ self.new }
        ensures ok { OnOk result (count ≤ self.new) }
    {
        self.list.reserve_exact(count)?;
        Ok(())
    }

    /// Gives the list away. Takes no memory.
    pub(crate) fn take(&mut self) -> Vec<SetCopy>
        ensures empty { result.items ≡ [] }
        ensures room { vec_capacity result ≡ self.old }
    {
        let none = Vec::new(*self.list.allocator());
        mem::replace(&mut self.list, none)
    }
}
