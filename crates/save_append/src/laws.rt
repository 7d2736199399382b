//! Laws of the plan: each function has an empty body, and its contract is the law.

ghost use Rattle.std.specs.Prelude.{◌≡◌, ◌+◌, ◌≤◌, ℕ, List, [], Some, length};
ghost use Rattle.room_base.specs.declared.numbers.Ssid.{Ssid};
ghost use Rattle.save_session.specs.Sessions.{SessionView, find_session};
ghost use Rattle.room_command.specs.declared.answer.Answer.TheVariants.{Next};
ghost use Rattle.room_command.specs.declared.reply.Reply.TheVariants.{Done};
ghost use Rattle.room_effects.specs.View.{RoomView};
ghost use Rattle.room_effects.specs.Plans.{Plan, Do};
ghost use Rattle.save_append.specs.Appending.{IsAppendPlan, max_piece};

/// A piece that ends no further than what was sent changes nothing, wherever it begins.
pub fn repeats_change_nothing()
    ensures { (ssid : Ssid) (offset : ℕ) (piece : List ℕ) (session : SessionView)
        (room : RoomView) (plan : Plan) → find_session ssid.0 room.sessions ≡ Some session
        → length piece ≤ max_piece → offset + length piece ≤ length session.sent
        → IsAppendPlan ssid offset piece room plan
        → plan ≡ Do [] (Done (Next (length session.sent))) }
{}
