ghost use Rattle.std.specs.Prelude.{◌≡◌, ◌/◌, false, []};
ghost use Rattle.std.specs.Time.{system_time_nanos};

use crate::calls::risen_count;
use crate::{Clock, Failed, Moment};
use std::rt;
use std::time::{SystemTime, UNIX_EPOCH};

/// The system's clock. It tells nothing of its moments. A system whose clock stands before 1970
/// has no time, and that is a fault of it.
#[derive(Drop)]
pub struct RealClock<R: rt::Clock> {
    system: R,
    faults: u64,
}

impl<R: rt::Clock> RealClock<R> {
    pub fn new(system: R) -> RealClock<R>
        ensures { result ≡ record { system = system; faults = 0 } }
    {
        RealClock { system, faults: 0 }
    }
}

impl<R: rt::Clock> Clock for RealClock<R> {
    ghost view = { λ clock. record { tells = false; moments = []; faults = clock.faults } };

    fn now(&mut self) -> Result<Moment, Failed> {
        match SystemTime::now(&self.system) {
            Ok(time) => Ok(moment_of(time)),
            Err(_) => {
                self.faults = risen_count(self.faults);
                Err(Failed)
            }
        }
    }
}

// The moment of a time of the system: its whole seconds.
fn moment_of(time: SystemTime) -> Moment
    ensures { result.0 ≡ system_time_nanos time / 1_000_000_000 }
{
    Moment(time.duration_since(UNIX_EPOCH).unwrap().as_secs())
}
