//! Laws of runs: each function has an empty body, and its contract is the law.

ghost use Rattle.std.specs.Prelude.{◌≡◌, ◌≤◌, ◌++◌, ◌∷◌, [], ℕ, false, IsTrue, List, None, Some};
ghost use Rattle.room_base.specs.Outside.{Told};
ghost use Rattle.room_disk.specs.Disk.{Quiet};
ghost use Rattle.cat_journal.specs.Images.{IsJournal};
ghost use Rattle.room_catalog.specs.Invariant.{IsHeld};
ghost use Rattle.room_effects.specs.View.{IsJournalOf, IsRoom, RoomView, opened_room};
ghost use Rattle.room_effects.specs.Effects.{Deed};
ghost use Rattle.journal_files.specs.Files.{ReplaysTo};
ghost use Rattle.room_turns.specs.Steps.{Call, Turn};
ghost use Rattle.room_turns.specs.Runs.{Passage, Reopening};
ghost use Rattle.room_turns.specs.Served.{Served};

use room_disk::Store;

/// A room that wasn't called is as it was.
pub fn no_call<D: Store>(disk: &D)
    ensures { (room : RoomView) → IsRoom room
        → Served [] room room (D.view disk.now) (D.view disk.now) }
{}

/// A run and one more call of an open room are a run.
pub fn a_call_more<D: Store>(before: &D, mid: &D, now: &D)
    ensures { (passages : List Passage) (call : Call) (old room new : RoomView)
        → Served passages old room (D.view before.now) (D.view mid.now) → IsTrue room.is_open
        → (turn : Turn call room new (D.view mid.now) (D.view now.now)) → IsRoom new
        → Served
        (passages ++ record { call = call; deeds = turn.deeds; reopening = None } ∷ [])
        old new (D.view before.now) (D.view now.now) }
{}

/// A run that ended with a fault of the journal, and the reopening of the room, are a run.
pub fn a_reopening<D: Store>(before: &D, mid: &D, now: &D)
    ensures { (passages : List Passage) (call : Call) (deeds : List Deed) (reopening : Reopening)
        (old room : RoomView)
        → Served (passages ++ record { call = call; deeds = deeds; reopening = None } ∷ [])
        old room (D.view before.now) (D.view mid.now) → room.is_open ≡ false
        → IsHeld reopening.catalogue
        → IsJournalOf reopening.catalogue (record reopening.journal { spare = 0 })
        → (D.view now.now).tells ≡ (D.view mid.now).tells
        → ((file : ℕ) → (D.view mid.now).faults file ≤ (D.view now.now).faults file)
        → Told (D.view mid.now).tells (Quiet (D.view mid.now) (D.view now.now))
        → Told (D.view mid.now).tells (ReplaysTo (D.view mid.now).reads reopening.catalogue)
        → Told (D.view mid.now).tells (IsJournal reopening.journal (D.view now.now))
        → Served
        (passages ++ record { call = call; deeds = deeds; reopening = Some reopening } ∷ [])
        old (opened_room reopening.catalogue reopening.journal)
        (D.view before.now) (D.view now.now) }
{}
