//! Laws of changes as bytes: each function has an empty body, and its contract is the law.

ghost use Rattle.std.specs.Prelude.{◌≡◌, ◌⊎◌, ◌≤◌, ℕ, List, ◌++◌, length, Result, Ok, Err};
ghost use Rattle.room_base.specs.declared.numbers.Moment.{Moment};
ghost use Rattle.save_stream.specs.Standing.{AreBytes};
ghost use Rattle.catalog_change.specs.declared.change.Change.{Change};
ghost use Rattle.catalog_spelling.specs.declared.fault.DecodeFault.{DecodeFault};
ghost use Rattle.catalog_spelling.specs.declared.fault.DecodeFault.TheVariants as faults;
ghost use Rattle.catalog_spelling.specs.Changes.{change_at, change_text};
ghost use Rattle.catalog_spelling.specs.Decoding.{ChangeText, Decodes, HasBad, IsStamped};

/// What a change is encoded as is decoded as that change, unless memory runs out.
pub fn encoded_changes_are_decoded()
    ensures { (moment : Moment) (change : Change) (answer : Result (Moment × Change) DecodeFault)
        → IsStamped moment.0 change → Decodes (change_text moment.0 change) answer
        → (answer ≡ Ok (moment, change)) ⊎ (answer ≡ Err faults.Memory) }
{}

/// Changes with one text are one, with one moment, and no text of a change begins another.
pub fn one_spelling()
    ensures { (moment other : ℕ) (change changed : Change) (more rest : List ℕ)
        → IsStamped moment change → IsStamped other changed
        → change_text moment change ++ more ≡ change_text other changed ++ rest
        → (moment ≡ other) × (change ≡ changed) × (more ≡ rest) }
{}

/// Bytes are the text of a change, or have one first field that isn't allowed, and never both.
pub fn bytes_are_a_change_or_bad()
    ensures each { (bytes : List ℕ) → AreBytes bytes
        → ((moment : ℕ) × ((change : Change) × ChangeText bytes moment change))
        ⊎ ((place : ℕ) × HasBad change_at bytes place) }
    ensures either { (bytes : List ℕ) (moment place : ℕ) (change : Change)
        → ChangeText bytes moment change → ¬ (HasBad change_at bytes place) }
    ensures one { (bytes : List ℕ) (place other : ℕ) → HasBad change_at bytes place
        → HasBad change_at bytes other → place ≡ other }
{}
