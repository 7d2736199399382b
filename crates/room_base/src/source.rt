ghost use Rattle.std.specs.Prelude.{◌≡◌, ◌≤◌, length, IfOk};
ghost use Rattle.room_base.specs.Faults.{HasCause};
ghost use Rattle.room_base.specs.Outside.{SourceView, Told, TakesBytes};

use crate::Failed;

/// Where bytes come from, as standard input or a connection.
pub trait Source {
    /// What is told of the source, and its count of faults.
    ghost view: { Self → SourceView };

    /// What a call of `take` may leave of whatever else the object is: an object that is a sink too
    /// says here that its bytes written stay.
    ghost takes_alone: { Self → Self → Type 0 };

    /// Puts bytes at the front of `into` and answers how many. An answer of 0 for an `into` that
    /// isn't empty says that the source has ended.
    fn take(&mut self, into: &mut [u8]) -> Result<u64, Failed>
        ensures within { IfOk result (λ count. count ≤ length into.old) }
        ensures cause { HasCause (view self.old).faults (view self.new).faults result }
        ensures tells { (view self.new).tells ≡ (view self.old).tells }
        ensures moved { Told (view self.old).tells
            (TakesBytes (view self.old) (view self.new) into.new result) }
        ensures alone { takes_alone self.old self.new };

    /// Where nothing was taken the rest of the object stays.
    ghost takes_none: { (source : Self) → takes_alone source source };

    /// One call behind another leaves no more than one call.
    ghost takes_then: { (before between now : Self) → takes_alone before between
        → takes_alone between now → takes_alone before now };
}
