//! The moment of a command.

ghost use Rattle.std.specs.Prelude.{◌≡◌, ◌≤◌};
ghost use Rattle.room_base.specs.Numbers.{max_moment};
ghost use Rattle.room_effects.specs.Entering.{moment_of};

use room_base::{MAX_MOMENT, Moment};
use room_catalog::Catalogue;

/// What the clock answers, but not above the greatest moment that is written, and not before the last
/// change.
pub(crate) fn moment_of(catalogue: &Catalogue, clock: Moment) -> Moment
    ensures moment { result ≡ moment_of clock.0 catalogue.now.lists }
    ensures most { result.0 ≤ max_moment }
{
    let _number = catalogue.number();
    Moment(clock.0.min(MAX_MOMENT.0).max(catalogue.last_moment().0))
}
