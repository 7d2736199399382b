//! Laws of runs: each function has an empty body, and its contract is the law.

ghost use Rattle.std.specs.Prelude.{List, [], ◌++◌, Result, Ok, Err};
ghost use Rattle.room_base.specs.declared.refusal.Refusal.{Refusal};
ghost use Rattle.room_effects.specs.View.{RoomView};
ghost use Rattle.room_effects.specs.Effects.{Effect};
ghost use Rattle.room_effects.specs.Running.{Does};

use room_disk::Store;

/// No effects are a run that leaves all as it is. Effects that are all done, and more behind them,
/// are one run. Where one of them fails, those behind it aren't begun.
pub fn effects_join<D: Store>(old: &D, mid: &D, new: &D)
    ensures none { (room : RoomView) → Does {T = Unit {0}} [] (Ok tt) room room (D.view old.now)
        (D.view old.now) }
    ensures append { (first more : List Effect) (answer : Result (Unit {0}) Refusal)
        (a b c : RoomView)
        → Does {T = Unit {0}} first (Ok tt) a b (D.view old.now) (D.view mid.now)
        → Does more answer b c (D.view mid.now) (D.view new.now)
        → Does (first ++ more) answer a c (D.view old.now) (D.view new.now) }
    ensures stop { (first more : List Effect) (fault : Refusal) (a b : RoomView)
        → Does {T = Unit {0}} first (Err fault) a b (D.view old.now) (D.view new.now)
        → Does {T = Unit {0}} (first ++ more) (Err fault) a b (D.view old.now) (D.view new.now) }
{}
