ghost use Rattle.std.specs.Prelude.{◌≡◌, ◌<◌, ◌↔◌, IsErr, vec_len};
ghost use Rattle.room_base.specs.Faults.{HasCause};
ghost use Rattle.room_base.specs.Outside.{Answers};
ghost use Rattle.room_base.specs.Calls.{FailsNext, called, faults_after};

use crate::calls::{CallCount, risen_count};
use crate::{Clock, Failed, Moment};
use std::marker::Model;

/// A clock that gives the moments of a list in turn, the last one again and again. Its listed calls
/// fail.
#[derive(Drop)]
pub struct SetClock {
    moments: Vec<Moment>,
    at: usize,
    calls: CallCount,
    faults: u64,
}

impl Model for SetClock {
    ghost use Rattle.std.specs.Prelude.{◌<◌, drop, vec_len};
    ghost use Rattle.room_base.specs.Calls.{ClockInMemory};

    ghost Value = { ClockInMemory };

    ghost view = { λ clock. record {
      moments = drop clock.at clock.moments.items;
      calls = clock.calls;
      faults = clock.faults;
    } };

    ghost invariant = { λ clock. clock.at < vec_len clock.moments };
}

impl SetClock {
    /// `failing` holds the numbers of the calls that are to fail, counted from 1.
    pub fn new(moments: Vec<Moment>, failing: Vec<u64>) -> SetClock
        requires { 0 < vec_len moments }
        ensures { result ≡ record {
          moments = moments.items;
          calls = record { failing = failing.items; made = 0 };
          faults = 0;
        } }
    {
        SetClock {
            moments,
            at: 0,
            calls: CallCount::new(failing),
            faults: 0,
        }
    }
}

impl Clock for SetClock {
    ghost use Rattle.room_base.specs.Calls.{told_clock};

    ghost view = { told_clock };

    fn now(&mut self) -> Result<Moment, Failed>
        ensures cause { HasCause self.old.faults self.new.faults result }
        ensures answered { Answers self.old.moments self.new.moments result }
        ensures fails { IsErr result ↔ FailsNext self.old.calls }
        ensures calls { self.new.calls ≡ called self.old.calls }
        ensures faults { self.new.faults ≡ faults_after result self.old.faults }
    {
        if self.calls.next_fails() {
            self.faults = risen_count(self.faults);
            return Err(Failed);
        }
        let moment = self.moments[self.at];
        if self.at + 1 < self.moments.len() {
            self.at += 1;
        }
        Ok(moment)
    }
}
