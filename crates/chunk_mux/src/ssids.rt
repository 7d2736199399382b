//! The save sets that have chunks in a buffer.

ghost use Rattle.std.specs.Prelude.{◌≡◌, ◌==◌, ◌||◌, ◌+◌, ◌≤◌, ◌<◌, ℕ, [], length, IfOk};
ghost use Rattle.chunk_mux.specs.Ssids.{SsidsView, has_number};

use room_base::{Memory, Ssid};
use std::alloc::Global;
use std::marker::Model;

/// Save sets, each once.
#[derive(Drop)]
pub(crate) struct SsidSet {
    /// There is room for so many.
    most: usize,
    /// They ascend.
    numbers: Vec<u64>,
}

impl Model for SsidSet {
    ghost use Rattle.chunk_mux.specs.Ssids.{SsidsView};

    ghost Value = { SsidsView };

    ghost use Rattle.chunk_mux.specs.Ssids.{view_of, IsSet};

    ghost view = { view_of };

    ghost invariant = { IsSet };
}

impl SsidSet {
    /// It takes the memory for so many here.
    pub(crate) fn new(alloc: Global, most: usize) -> Result<SsidSet, Memory>
        ensures { IfOk result (λ set. set ≡ record { most = most; numbers = [] }) }
    {
        Ok(SsidSet {
            most,
            numbers: Vec::with_capacity(alloc, most)?,
        })
    }

    pub(crate) fn clear(&mut self)
        ensures { self.new ≡ record { most = self.old.most; numbers = [] } }
    {
        self.numbers.clear();
    }

    pub(crate) fn contains(&self, ssid: Ssid) -> bool
        ensures { result ≡ has_number ssid.0 self.now.numbers }
    {
        self.numbers.binary_search(&ssid.0).is_ok()
    }

    /// Adds a save set, unless it is there.
    pub(crate) fn add(&mut self, ssid: Ssid)
        requires { length self.old.numbers < self.old.most }
        ensures most { self.new.most ≡ self.old.most }
        ensures few { length self.new.numbers ≤ length self.old.numbers + 1 }
        ensures has { (other : ℕ) → has_number other self.new.numbers
            ≡ (has_number other self.old.numbers || (ssid.0 == other)) }
    {
        if let Err(place) = self.numbers.binary_search(&ssid.0) {
            let _added = self.numbers.insert(place, ssid.0);
        }
    }
}
