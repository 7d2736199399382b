//! Laws of single calls: each function has an empty body, and its contract is the law.

ghost use Rattle.std.specs.Prelude.{◌≡◌, ◌+◌, ◌≤◌, ℕ, IsTrue, List, None, Some, length};
ghost use Rattle.room_base.specs.Outside.{Told};
ghost use Rattle.room_base.specs.declared.numbers.Ssid.{Ssid};
ghost use Rattle.room_base.specs.declared.refusal.Refusal.{Refusal};
ghost use Rattle.save_session.specs.Sessions.{SessionView, find_session};
ghost use Rattle.room_command.specs.declared.answer.Answer.TheVariants.{Finished, Next};
ghost use Rattle.room_command.specs.declared.command.Command.TheVariants.{Append, Finish};
ghost use Rattle.room_command.specs.declared.reply.Reply.{Reply};
ghost use Rattle.room_command.specs.declared.reply.Reply.TheVariants.{Done, Refused};
ghost use Rattle.room_disk.specs.Disk.{Image, Images, Leaves, Quiet};
ghost use Rattle.room_effects.specs.View.{IsRoom, RoomView};
ghost use Rattle.room_effects.specs.Effects.{Deed};
ghost use Rattle.room_effects.specs.Running.{Ready, nothing_known, trail};
ghost use Rattle.journal_files.specs.Files.{ReplaysTo};
ghost use Rattle.media_db.specs.Rows.{find_record};
ghost use Rattle.media_db.specs.declared.records.Record.{Record};
ghost use Rattle.media_db.specs.declared.records.RecordState.TheVariants.{Complete};
ghost use Rattle.save_append.specs.Appending.{max_piece};
ghost use Rattle.save_finish.specs.Finishing.{size_behind_head};
ghost use Rattle.room_turns.specs.Calls.{AnswersIdly, ReopensWithin};
ghost use Rattle.room_turns.specs.Orderly.{IsNoFault};
ghost use Rattle.room_turns.specs.Served.{IsServable};
ghost use Rattle.room_turns.specs.Steps.{Call, IsAnswer, Turn};

use room_disk::Store;

/// A call enters at most two changes.
pub fn two_changes_at_most()
    ensures { (call : Call) (room : RoomView) (deeds : List Deed) → IsAnswer call room deeds
        → length (trail deeds room) ≤ 2 }
{}

/// Each image since the start of a call reopens as the catalogue before it, after its first change,
/// or after its second. Where the call has left the room open, each image reopens as the room's
/// catalogue.
pub fn images_of_a_call_replay<D: Store>(before: &D, now: &D)
    ensures moments { (call : Call) (old new : RoomView) → IsRoom old → IsTrue old.is_open
        → IsTrue (D.view before.now).tells → IsServable old (D.view before.now)
        → (turn : Turn call old new (D.view before.now) (D.view now.now))
        → Leaves (D.view before.now) (D.view now.now)
        (ReopensWithin (trail turn.deeds old) old.catalogue) }
    ensures ended { (call : Call) (old new : RoomView) → IsRoom old → IsTrue old.is_open
        → IsTrue (D.view before.now).tells → IsServable old (D.view before.now)
        → Turn call old new (D.view before.now) (D.view now.now) → IsTrue new.is_open
        → (image : Image) → Images (D.view now.now) image → ReplaysTo image new.catalogue }
{}

/// After each refusal but a fault the room is as before, each file reads as before, and each image
/// since the start is one that there was at the start.
pub fn refused_calls_keep<D: Store>(before: &D, now: &D)
    ensures room { (call : Call) (refusal : Refusal) (old new : RoomView)
        → call.reply ≡ Refused refusal → IsNoFault refusal
        → Turn call old new (D.view before.now) (D.view now.now) → new ≡ old }
    ensures disk { (call : Call) (refusal : Refusal) (old new : RoomView)
        → call.reply ≡ Refused refusal → IsNoFault refusal
        → Turn call old new (D.view before.now) (D.view now.now)
        → Told (D.view before.now).tells (Ready nothing_known old (D.view before.now)
        → Quiet (D.view before.now) (D.view now.now)) }
{}

/// A piece that ends no further than what was sent is answered with the session's next offset, or not
/// at all for want of memory, and changes nothing.
pub fn repeated_pieces_change_nothing<D: Store>(before: &D, now: &D)
    ensures { (clock : ℕ) (ssid : Ssid) (offset : ℕ) (piece : List ℕ) (session : SessionView)
        (reply : Reply) (old new : RoomView) → find_session ssid.0 old.sessions ≡ Some session
        → length piece ≤ max_piece → offset + length piece ≤ length session.sent
        → Turn (record { clock = clock; command = Append ssid offset piece; reply = reply })
        old new (D.view before.now) (D.view now.now)
        → AnswersIdly (Done (Next (length session.sent))) reply old new
        (D.view before.now) (D.view now.now) }
{}

/// A save set that is complete and has no session is answered with its record's values to a Finish of
/// the length and digest that it has, or not at all for want of memory, and nothing changes.
pub fn repeated_ends_change_nothing<D: Store>(before: &D, now: &D)
    ensures { (clock : ℕ) (ssid : Ssid) (row : Record) (reply : Reply) (old new : RoomView)
        → find_session ssid.0 old.sessions ≡ None
        → find_record ssid.0 old.catalogue.records ≡ Some row → row.state ≡ Complete
        → Turn (record {
          clock = clock;
          command = Finish ssid (size_behind_head row) row.digest;
          reply = reply;
        }) old new (D.view before.now) (D.view now.now)
        → AnswersIdly (Done (Finished row.bytes row.files ssid)) reply old new
        (D.view before.now) (D.view now.now) }
{}
