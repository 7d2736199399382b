//! A piece whose drive is known: the memory for it, the reader's judgement, and its place.

ghost use Rattle.std.specs.Prelude.{◌≡◌, ◌+◌, ◌≤◌, ◌<◌, IfSome, IsTrue, OnOk, Some, length};
ghost use Rattle.save_stream.specs.Spelling.{max_size};
ghost use Rattle.save_session.specs.Sessions.{IsOpen, find_session, room_for};
ghost use Rattle.slot_changer.specs.Drives.{IsDrive};
ghost use Rattle.slot_changer.specs.Taking.{takes};
ghost use Rattle.room_effects.specs.View.{IsBetweenCommands, held_in};
ghost use Rattle.room_effects.specs.Plans.{Follows};
ghost use Rattle.room_state.specs.Commits.{IsReadyForCommits};
ghost use Rattle.save_append.specs.Appending.{bad_piece, max_piece, on_drive};

use room_base::{Memory, Refusal, Ssid};
use room_command::{Answer, Reply};
use room_disk::Store;
use room_placing::place;
use room_state::RoomState;
use save_stream::StreamFault;

/// Takes the next piece of a session, and puts it into a drive that takes it.
pub(crate) fn append_to<D: Store>(
    room: &mut RoomState,
    store: &mut D,
    ssid: Ssid,
    drive: u8,
    piece: &[u8],
) -> Reply
    requires opens { IsTrue room.old.room.is_open }
    requires between { IsBetweenCommands room.old.room }
    requires open { IsOpen ssid.0 room.old.room.sessions }
    requires some { 1 ≤ length piece.now }
    requires most { length piece.now ≤ max_piece }
    requires size { IfSome (find_session ssid.0 room.old.room.sessions)
        (λ session. session.reading.read + length piece.now ≤ max_size) }
    requires drive { IsDrive drive }
    requires takes { IsTrue (takes (held_in room.old.room drive) (length piece.now)) }
    ensures follows { IfSome (find_session ssid.0 room.old.room.sessions) (λ session.
        Follows (on_drive (Some drive) ssid.0 piece.now session room.old.room) result
        room.old.room room.new.room (D.view store.old) (D.view store.new)) }
    ensures between { IsBetweenCommands room.new.room }
{
    match prepare(room, ssid) {
        Ok(()) => take_and_place(room, store, ssid, drive, piece),
        Err(Memory) => Reply::Refused(Refusal::NoMemory),
    }
}

// Makes memory for the commit of the drive, and for the session's next part.
fn prepare(room: &mut RoomState, ssid: Ssid) -> Result<(), Memory>
    ensures commits { OnOk result (IsReadyForCommits room.new) }
    ensures parts { OnOk result (IsOpen ssid.0 room.new.room.sessions
        → 0 < room_for ssid.0 room.new.memory.parts) }
    ensures room { room.new.room ≡ room.old.room }
{
    room.prepare_commits()?;
    room.prepare_push(ssid)
}

// The session's reader takes the piece, which is the last that may want memory, and then it is
// placed.
fn take_and_place<D: Store>(
    room: &mut RoomState,
    store: &mut D,
    ssid: Ssid,
    drive: u8,
    piece: &[u8],
) -> Reply
    requires opens { IsTrue room.old.room.is_open }
    requires between { IsBetweenCommands room.old.room }
    requires open { IsOpen ssid.0 room.old.room.sessions }
    requires some { 1 ≤ length piece.now }
    requires most { length piece.now ≤ max_piece }
    requires size { IfSome (find_session ssid.0 room.old.room.sessions)
        (λ session. session.reading.read + length piece.now ≤ max_size) }
    requires drive { IsDrive drive }
    requires takes { IsTrue (takes (held_in room.old.room drive) (length piece.now)) }
    requires commits { IsReadyForCommits room.old }
    requires parts { 0 < room_for ssid.0 room.old.memory.parts }
    ensures follows { IfSome (find_session ssid.0 room.old.room.sessions) (λ session.
        Follows (on_drive (Some drive) ssid.0 piece.now session room.old.room) result
        room.old.room room.new.room (D.view store.old) (D.view store.new)) }
    ensures between { IsBetweenCommands room.new.room }
{
    let read = room.sessions().reader(ssid).read();
    let next = room.sessions().next(ssid);
    match room.take(ssid, piece) {
        Ok(()) => {
            let _still_open = room.is_open();
            match place(room, store, drive, ssid, read, piece) {
                Ok(()) => Reply::Done(Answer::Next {
                    next: next + piece.len() as u64,
                }),
                Err(fault) => Reply::Refused(fault),
            }
        }
        Err(fault) => Reply::Refused(bad_piece(read - next, fault)),
    }
}

// The refusal of a piece that the reader doesn't take. Its place is counted from the end of the
// head, which has so many bytes.
fn bad_piece(head: u64, fault: StreamFault) -> Refusal
    ensures { result ≡ bad_piece head fault }
{
    match fault {
        StreamFault::Bad { offset } => Refusal::BadStream {
            offset: offset.saturating_sub(head),
        },
        StreamFault::TooMany { limit } => Refusal::TooMany { limit },
        StreamFault::Memory => Refusal::NoMemory,
    }
}
