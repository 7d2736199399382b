//! Laws of effects that leave the open sessions what they have: each function has an empty body, and
//! its contract is the law.

ghost use Rattle.std.specs.Prelude.{ℕ, List, Option};
ghost use Rattle.room_base.specs.declared.numbers.Moment.{Moment};
ghost use Rattle.room_base.specs.declared.numbers.Ssid.{Ssid};
ghost use Rattle.save_stream.specs.declared.entry.IndexEntry.{IndexEntry};
ghost use Rattle.volume_block.specs.declared.label.Label.{Label};
ghost use Rattle.volume_store.specs.declared.commit.Volume.{Volume};
ghost use Rattle.catalog_change.specs.declared.change.Change.{Change};
ghost use Rattle.room_effects.specs.View.{RoomView, IsBetweenCommands, IsRoom};
ghost use Rattle.room_effects.specs.Effects.{Enter, EnterPart, TurnOver, Commit, Look, WriteLabel};
ghost use Rattle.room_effects.specs.Effects.{PutIn, TakeOut, Seen, after_done};
ghost use Rattle.room_effects.specs.Needs.{CanEnter};
ghost use Rattle.room_between.specs.Middle.{IsBetweenBut};
ghost use Rattle.room_between.specs.Quiet.{LeavesOpen};

/// What is true between two commands is true still behind each effect that leaves the open sessions
/// what they have, if the room is one behind it.
pub fn between_behind_quiet_effects()
    ensures enter { (m : Moment) (change : Change) (room : RoomView) → IsBetweenCommands room
        → CanEnter m change room → LeavesOpen change room.sessions
        → IsRoom (after_done (Enter m change) room)
        → IsBetweenCommands (after_done (Enter m change) room) }
    ensures part { (m : Moment) (ssid : Ssid) (part : ℕ) (index : List IndexEntry)
        (room : RoomView) → IsBetweenCommands room
        → IsRoom (after_done (EnterPart m ssid part index) room)
        → IsBetweenCommands (after_done (EnterPart m ssid part index) room) }
    ensures turn_over { (snapshot : List ℕ) (room : RoomView) → IsBetweenCommands room
        → IsRoom (after_done (TurnOver snapshot) room)
        → IsBetweenCommands (after_done (TurnOver snapshot) room) }
    ensures commit { (drive : ℕ) (asking : Option ℕ) (room : RoomView) → IsBetweenCommands room
        → IsRoom (after_done (Commit drive asking) room)
        → IsBetweenCommands (after_done (Commit drive asking) room) }
    ensures look { (cart : ℕ) (seen : Seen) (room : RoomView) → IsBetweenCommands room
        → IsBetweenCommands (after_done (Look cart seen) room) }
    ensures write_label { (label : Label) (room : RoomView) → IsBetweenCommands room
        → IsBetweenCommands (after_done (WriteLabel label) room) }
    ensures put_in { (drive : ℕ) (volume : Volume) (room : RoomView) → IsBetweenCommands room
        → IsRoom (after_done (PutIn drive volume) room)
        → IsBetweenCommands (after_done (PutIn drive volume) room) }
    ensures take_out { (drive : ℕ) (room : RoomView) → IsBetweenCommands room
        → IsRoom (after_done (TakeOut drive) room)
        → IsBetweenCommands (after_done (TakeOut drive) room) }
{}

/// The same of what is true but for one session.
pub fn middle_behind_quiet_effects()
    ensures enter { (m : Moment) (change : Change) (ssid : ℕ) (room : RoomView)
        → IsBetweenBut ssid room → CanEnter m change room → LeavesOpen change room.sessions
        → IsRoom (after_done (Enter m change) room)
        → IsBetweenBut ssid (after_done (Enter m change) room) }
    ensures part { (m : Moment) (set : Ssid) (part : ℕ) (index : List IndexEntry) (ssid : ℕ)
        (room : RoomView) → IsBetweenBut ssid room
        → IsRoom (after_done (EnterPart m set part index) room)
        → IsBetweenBut ssid (after_done (EnterPart m set part index) room) }
    ensures turn_over { (snapshot : List ℕ) (ssid : ℕ) (room : RoomView) → IsBetweenBut ssid room
        → IsRoom (after_done (TurnOver snapshot) room)
        → IsBetweenBut ssid (after_done (TurnOver snapshot) room) }
    ensures commit { (drive : ℕ) (asking : Option ℕ) (ssid : ℕ) (room : RoomView)
        → IsBetweenBut ssid room → IsRoom (after_done (Commit drive asking) room)
        → IsBetweenBut ssid (after_done (Commit drive asking) room) }
    ensures look { (cart : ℕ) (seen : Seen) (ssid : ℕ) (room : RoomView) → IsBetweenBut ssid room
        → IsBetweenBut ssid (after_done (Look cart seen) room) }
    ensures write_label { (label : Label) (ssid : ℕ) (room : RoomView) → IsBetweenBut ssid room
        → IsBetweenBut ssid (after_done (WriteLabel label) room) }
    ensures put_in { (drive : ℕ) (volume : Volume) (ssid : ℕ) (room : RoomView)
        → IsBetweenBut ssid room → IsRoom (after_done (PutIn drive volume) room)
        → IsBetweenBut ssid (after_done (PutIn drive volume) room) }
    ensures take_out { (drive ssid : ℕ) (room : RoomView) → IsBetweenBut ssid room
        → IsRoom (after_done (TakeOut drive) room)
        → IsBetweenBut ssid (after_done (TakeOut drive) room) }
{}
