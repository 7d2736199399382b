//! Laws of many effects: each function has an empty body, and its contract is the law.

ghost use Rattle.std.specs.Prelude.{List, Result};
ghost use Rattle.std.specs.List.{AllByRecursion};
ghost use Rattle.room_base.specs.declared.refusal.Refusal.{Refusal};
ghost use Rattle.room_command.specs.declared.reply.Reply.{Reply};
ghost use Rattle.room_effects.specs.View.{RoomView, IsBetweenCommands, IsRoom};
ghost use Rattle.room_effects.specs.Effects.{Deed, Effect, after_all};
ghost use Rattle.room_effects.specs.Running.{AllCan, Does};
ghost use Rattle.room_effects.specs.Plans.{Plan, Follows};
ghost use Rattle.room_between.specs.Quiet.{AreQuiet, IsQuiet, IsQuietPlan};

use room_disk::Store;

/// What is true between two commands is true still behind deeds that leave the open sessions what
/// they have, done or failed.
pub fn between_behind_quiet_deeds()
    ensures { (deeds : List Deed) (room : RoomView) → IsBetweenCommands room
        → AreQuiet room.sessions deeds → AllCan deeds room → IsRoom (after_all deeds room)
        → IsBetweenCommands (after_all deeds room) }
{}

/// It is true still behind effects that do so, and behind a command that follows a plan of such
/// effects.
pub fn between_behind_quiet_plans<D: Store>(before: &D, now: &D)
    ensures effects { (effects : List Effect) (answer : Result (Unit {0}) Refusal)
        (old new : RoomView) → IsBetweenCommands old
        → AllByRecursion (IsQuiet old.sessions) effects
        → Does effects answer old new (D.view before.now) (D.view now.now) → IsRoom new
        → IsBetweenCommands new }
    ensures follows { (plan : Plan) (answer : Reply) (old new : RoomView)
        → IsBetweenCommands old → IsQuietPlan old.sessions plan
        → Follows plan answer old new (D.view before.now) (D.view now.now) → IsRoom new
        → IsBetweenCommands new }
{}
