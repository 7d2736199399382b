//! Laws of effects that fail: each function has an empty body, and its contract is the law.

ghost use Rattle.std.specs.Prelude.{ℕ, Some};
ghost use Rattle.room_effects.specs.View.{RoomView, IsBetweenCommands, IsRoom};
ghost use Rattle.room_effects.specs.Effects.{Effect, Commit, after_broken, closed};
ghost use Rattle.room_between.specs.Middle.{IsBetweenBut};

/// What is true between two commands is true still where an effect failed. It is true too where one
/// failed in the middle of a command that changes a session: the journal's end closes every session,
/// and a failed commit closes the session that asked for it.
pub fn between_behind_a_fault()
    ensures broken { (effect : Effect) (room : RoomView) → IsBetweenCommands room
        → IsRoom (after_broken effect room) → IsBetweenCommands (after_broken effect room) }
    ensures commit { (drive ssid : ℕ) (room : RoomView) → IsBetweenBut ssid room
        → IsRoom (after_broken (Commit drive (Some ssid)) room)
        → IsBetweenCommands (after_broken (Commit drive (Some ssid)) room) }
    ensures shut { (room : RoomView) → IsRoom (closed room) → IsBetweenCommands (closed room) }
{}
