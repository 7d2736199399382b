//! Laws of the effects that begin a session, go on with it and end it: each function has an empty
//! body, and its contract is the law.

ghost use Rattle.std.specs.Prelude.{◌≡◌, ℕ, List, Some, None, IfSome};
ghost use Rattle.room_base.specs.declared.numbers.Moment.{Moment};
ghost use Rattle.save_stream.specs.declared.head.SetHead.{SetHead};
ghost use Rattle.catalog_change.specs.declared.change.Change.TheVariants.{Begun};
ghost use Rattle.slot_changer.specs.Drives.{DriveView};
ghost use Rattle.save_session.specs.Sessions.{find_session, start_session};
ghost use Rattle.room_effects.specs.View.{RoomView, IsBetweenCommands, IsRoom, held_in};
ghost use Rattle.room_effects.specs.Effects.{Enter, Push, Take, Close, after_done};
ghost use Rattle.room_between.specs.Middle.{EndsWith, IsBetweenBut};

/// What is true between two commands is true but for any session.
pub fn between_is_the_middle_of_any()
    ensures { (ssid : ℕ) (room : RoomView) → IsBetweenCommands room → IsBetweenBut ssid room }
{}

/// From between two commands into the middle of one, and out of it: a session begins, with nothing
/// or the first file of the journal between the session and its record; it is sent a piece; what it
/// was sent is pushed; and it ends.
pub fn steps_of_a_session()
    ensures begun { (m : Moment) (head : SetHead) (room mid : RoomView) → IsBetweenCommands room
        → find_session head.ssid.0 room.sessions ≡ None
        → mid.sessions ≡ start_session head room.sessions
        → mid.catalogue.records ≡ room.catalogue.records
        → IsRoom (after_done (Enter m (Begun head)) mid)
        → IsBetweenBut head.ssid.0 (after_done (Enter m (Begun head)) mid) }
    ensures take { (ssid : ℕ) (piece : List ℕ) (room : RoomView) → IsBetweenCommands room
        → IsRoom (after_done (Take ssid piece) room)
        → IsBetweenBut ssid (after_done (Take ssid piece) room) }
    ensures push { (drive ssid copy offset : ℕ) (bytes : List ℕ) (one : DriveView)
        (room : RoomView) → IsBetweenBut ssid room → held_in room drive ≡ Some one
        → IfSome (find_session ssid room.sessions) (EndsWith offset bytes)
        → IsRoom (after_done (Push drive ssid copy offset bytes) room)
        → IsBetweenCommands (after_done (Push drive ssid copy offset bytes) room) }
    ensures close { (ssid : ℕ) (room : RoomView) → IsBetweenBut ssid room
        → IsRoom (after_done (Close ssid) room)
        → IsBetweenCommands (after_done (Close ssid) room) }
{}
