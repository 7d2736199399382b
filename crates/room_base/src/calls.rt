ghost use Rattle.std.specs.Prelude.{◌≡◌, ◌↔◌, IsTrue};
ghost use Rattle.room_base.specs.Faults.{risen};
ghost use Rattle.room_base.specs.Calls.{FailsNext, called};

use std::marker::Model;

/// Counts the calls of an object in memory, and knows which of them are to fail.
#[derive(Drop)]
pub struct CallCount {
    failing: Vec<u64>,
    made: u64,
}

impl Model for CallCount {
    ghost use Rattle.room_base.specs.Calls.{Calls};

    ghost Value = { Calls };

    ghost view = { λ count. record { failing = count.failing.items; made = count.made } };
}

impl CallCount {
    /// `failing` holds the numbers of the calls that are to fail, counted from 1.
    pub fn new(failing: Vec<u64>) -> CallCount
        ensures { result ≡ record { failing = failing.items; made = 0 } }
    {
        CallCount { failing, made: 0 }
    }

    /// How many calls were made.
    pub fn made(&self) -> u64
        ensures { result ≡ self.now.made }
    {
        self.made
    }

    /// Counts one more call, and says whether it is to fail.
    pub fn next_fails(&mut self) -> bool
        ensures fails { IsTrue result ↔ FailsNext self.old }
        ensures counted { self.new ≡ called self.old }
    {
        self.made = risen_count(self.made);
        self.failing.contains(&self.made)
    }
}

/// One more, except at the counter's last value.
pub fn risen_count(count: u64) -> u64
    ensures { result ≡ risen count }
{
    count.saturating_add(1)
}
