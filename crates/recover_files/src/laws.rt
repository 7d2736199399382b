//! Laws of what is read: each function has an empty body, and its contract is the law.

ghost use Rattle.std.specs.Prelude.{◌≡◌, ◌+◌, ◌++◌, ℕ, List, length, Result};
ghost use Rattle.media_db.specs.declared.records.Record.{Record};
ghost use Rattle.recover_files.specs.StreamAt.{Shelf, StreamAt, AreBytes, FailsFirst, GivesRange};
ghost use Rattle.recover_files.specs.declared.fault.RangeFault.{RangeFault};

/// What is read doesn't hang on how a range is cut into calls: bytes that were read, with those of a
/// range behind them, are what reading both at once gives, and so is the fault of the first byte
/// that can't be had. A range fails where a front of it does.
pub fn ranges_join()
    ensures behind { (shelf : Shelf) (rows : List Record) (ssid from : ℕ)
        (first second : List ℕ) (answer : Result (Unit {0}) RangeFault)
        → AreBytes shelf rows ssid from (length first) first
        → GivesRange shelf rows ssid (from + length first) second answer
        → GivesRange shelf rows ssid from (first ++ second) answer }
    ensures front { (shelf : Shelf) (rows : List Record) (ssid from : ℕ)
        (first second : List ℕ) (fault : RangeFault)
        → FailsFirst shelf rows ssid from first fault
        → FailsFirst shelf rows ssid from (first ++ second) fault }
{}

/// Each place of a stream has one answer: one byte, or one reason why there is none.
#[tactic(auto, using(crate::proofs::OneAnswer::one_answer))]
pub fn one_answer()
    ensures { (shelf : Shelf) (rows : List Record) (ssid place : ℕ)
        (one other : Result ℕ RangeFault)
        → StreamAt shelf rows ssid place one → StreamAt shelf rows ssid place other
        → one ≡ other }
{}
