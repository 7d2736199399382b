ghost use Rattle.std.specs.Prelude.{◌≡◌};
ghost use Rattle.room_base.specs.Faults.{HasCause};
ghost use Rattle.room_base.specs.Outside.{ClockView, Told, Answers};

use crate::{Failed, Moment};

/// Tells the time.
pub trait Clock {
    /// What is told of the clock, and its count of faults.
    ghost view: { Self → ClockView };

    /// The moment now.
    fn now(&mut self) -> Result<Moment, Failed>
        ensures cause { HasCause (view self.old).faults (view self.new).faults result }
        ensures tells { (view self.new).tells ≡ (view self.old).tells }
        ensures answered { Told (view self.old).tells
            (Answers (view self.old).moments (view self.new).moments result) };
}
