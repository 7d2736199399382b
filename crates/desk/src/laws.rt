//! A law of whole runs: the function has an empty body, and its contract is the law.

ghost use Rattle.std.specs.Prelude.{◌⊎◌, IsTrue, List};
ghost use Rattle.room_catalog.specs.Held.{CatalogueLists};
ghost use Rattle.room_effects.specs.View.{RoomView};
ghost use Rattle.room_turns.specs.Runs.{Passage};
ghost use Rattle.desk.specs.declared.end.DeskEnd.{DeskEnd};
ghost use Rattle.desk.specs.Headline.{AllReopenAs, Headline};
ghost use Rattle.desk.specs.Runs.{OpensNoRoom, RunsRoom};

use room_disk::Store;

/// Where all that a crash may leave before a run of a desk reopens as one catalogue, what a crash
/// leaves at any moment of the run reopens as that catalogue after a prefix of the trail, or after
/// such a prefix and the entry that a fault of the journal broke; and what a crash leaves at the
/// end holds the whole trail.
pub fn crashes_keep_the_trail<D: Store>(before: &D, now: &D)
    ensures { (end : DeskEnd) (passages : List Passage) (entry : CatalogueLists)
        → IsTrue (D.view before.now).tells → AllReopenAs (D.view before.now) entry
        → (RunsRoom end passages (D.view before.now) (D.view now.now)
        ⊎ OpensNoRoom end passages (D.view before.now) (D.view now.now))
        → (first : RoomView) × ((last : RoomView)
        × Headline passages entry first last (D.view before.now) (D.view now.now)) }
{}
