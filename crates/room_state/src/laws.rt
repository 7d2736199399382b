//! Laws of what was prepared: each function has an empty body, and its contract is the law.

ghost use Rattle.std.specs.Prelude.{◌≡◌, ◌≤◌, ℕ, Option};
ghost use Rattle.room_base.specs.declared.numbers.Moment.{Moment};
ghost use Rattle.catalog_change.specs.declared.change.Change.{Change};
ghost use Rattle.room_catalog.specs.Ready.{KeepsRoom, MayGoBefore, TakesRoom};
ghost use Rattle.room_effects.specs.Effects.{Commit, Enter};
ghost use Rattle.room_effects.specs.Memory.{HasMemoryFor, HeldRoom};
ghost use Rattle.room_state.specs.Commits.{IsReadyForCommits};

/// A change that was prepared can be entered while the catalogue is the same and no less memory is
/// there for it; and behind another change, or a part of an index, that may go before it.
pub fn prepared_entries_stay()
    ensures kept { (m : Moment) (change : Change) (held now : HeldRoom)
        → now.room.catalogue ≡ held.room.catalogue
        → KeepsRoom held.memory.catalogue now.memory.catalogue
        → held.memory.entry ≤ now.memory.entry
        → HasMemoryFor (Enter m change) held → HasMemoryFor (Enter m change) now }
    ensures behind { (m : Moment) (first second : Change) (held now : HeldRoom)
        → MayGoBefore first second → TakesRoom first held.memory.catalogue now.memory.catalogue
        → held.memory.entry ≤ now.memory.entry
        → HasMemoryFor (Enter m second) held → HasMemoryFor (Enter m second) now }
{}

/// Where there is memory for commits, there is for each of them.
pub fn prepared_commits_are_any()
    ensures { (held : HeldRoom) → IsReadyForCommits held → (drive : ℕ) (asking : Option ℕ)
        → HasMemoryFor (Commit drive asking) held }
{}
