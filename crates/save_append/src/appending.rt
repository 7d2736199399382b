//! Sending a piece.

ghost use Rattle.std.specs.Prelude.{◌≡◌, ◌⊎◌, ◌+◌, ◌≤◌, IfSome, IsTrue, Some, length, nat_le};
ghost use Rattle.save_stream.specs.Spelling.{max_size};
ghost use Rattle.room_base.specs.declared.refusal.Refusal.TheVariants.{NeedVolume, NoMemory};
ghost use Rattle.save_session.specs.Sessions.{IsOpen, find_session, of_session};
ghost use Rattle.slot_changer.specs.Drives.{IsDrive};
ghost use Rattle.slot_changer.specs.Taking.{takes};
ghost use Rattle.room_effects.specs.View.{IsBetweenCommands, held_in};
ghost use Rattle.room_effects.specs.Plans.{Plan, Follows};
ghost use Rattle.room_placing.specs.Placing.{IsDriveFor};
ghost use Rattle.save_append.specs.Appending.{IsAppendPlan, IsNewPlan, max_piece};

use crate::sending::append_to;
use room_base::{Memory, Name, Refusal, Ssid};
use room_command::{Answer, Reply};
use room_disk::Store;
use room_placing::drive_for;
use room_state::RoomState;
use save_session::Checked;
use save_stream::MAX_SIZE;

/// The most bytes of a piece.
pub const MAX_PIECE: u64 = 131_072;

/// Takes a piece of an open save set, which begins at this offset behind the head, and answers the
/// offset of the next one. A piece that was sent before changes nothing.
pub fn append<D: Store>(
    room: &mut RoomState,
    store: &mut D,
    ssid: Ssid,
    offset: u64,
    piece: &[u8],
) -> Reply
    requires opens { IsTrue room.old.room.is_open }
    requires between { IsBetweenCommands room.old.room }
    ensures follows { (plan : Plan) × IsAppendPlan ssid offset piece.now room.old.room plan
        × Follows plan result
        room.old.room room.new.room (D.view store.old) (D.view store.new) }
    ensures between { IsBetweenCommands room.new.room }
{
    if !room.sessions().is_open(ssid) {
        return Reply::Refused(Refusal::NotOpen { ssid });
    }
    let length = piece.len() as u64;
    if length > MAX_PIECE {
        return Reply::Refused(Refusal::PieceTooLong { limit: MAX_PIECE });
    }
    match room.sessions().check(ssid, offset, length) {
        Checked::NotOpen => Reply::Refused(Refusal::NotOpen { ssid }),
        Checked::Repeat { next } => Reply::Done(Answer::Next { next }),
        Checked::Gap { expected } => Reply::Refused(Refusal::Gap { expected }),
        Checked::New => append_new(room, store, ssid, piece),
    }
}

// Takes the next piece of a session.
fn append_new<D: Store>(room: &mut RoomState, store: &mut D, ssid: Ssid, piece: &[u8]) -> Reply
    requires opens { IsTrue room.old.room.is_open }
    requires between { IsBetweenCommands room.old.room }
    requires open { IsOpen ssid.0 room.old.room.sessions }
    requires some { 1 ≤ length piece.now }
    requires most { length piece.now ≤ max_piece }
    ensures follows { IfSome (find_session ssid.0 room.old.room.sessions) (λ session.
        (plan : Plan) × IsNewPlan ssid.0 piece.now session room.old.room plan
        × Follows plan result
        room.old.room room.new.room (D.view store.old) (D.view store.new)) }
    ensures between { IsBetweenCommands room.new.room }
{
    let length = piece.len() as u64;
    if !may_become_longer(room, ssid, length) {
        return Reply::Refused(Refusal::TooMany { limit: MAX_SIZE });
    }
    match drive_of(room, ssid, length) {
        Some(drive) => append_to(room, store, ssid, drive, piece),
        None => Reply::Refused(need_volume(room, ssid)),
    }
}

// Whether the stream of a session, with its head, may become longer by so many bytes.
fn may_become_longer(room: &RoomState, ssid: Ssid, length: u64) -> bool
    requires open { IsOpen ssid.0 room.now.room.sessions }
    requires most { length ≤ max_piece }
    ensures { IfSome (find_session ssid.0 room.now.room.sessions)
        (λ session. result ≡ nat_le (session.reading.read + length) max_size) }
{
    room.sessions().reader(ssid).read() + length <= MAX_SIZE
}

// The drive for a session's piece of so many bytes.
fn drive_of(room: &RoomState, ssid: Ssid, length: u64) -> Option<u8>
    requires { IsOpen ssid.0 room.now.room.sessions }
    ensures drive { IfSome (find_session ssid.0 room.now.room.sessions) (λ session.
        IsDriveFor session.drive session.head.pool length room.now.room result) }
    ensures takes { IfSome result
        (λ drive. IsDrive drive × IsTrue (takes (held_in room.now.room drive) length)) }
{
    let _is_open = room.is_open();
    let held = room.sessions().drive(ssid);
    drive_for(room, held, pool_of(room, ssid).as_bytes(), length)
}

// No drive takes the session's piece.
fn need_volume(room: &RoomState, ssid: Ssid) -> Refusal
    requires { IsOpen ssid.0 room.now.room.sessions }
    ensures { IfSome (find_session ssid.0 room.now.room.sessions) (λ session.
        (result ≡ NeedVolume session.head.pool) ⊎ (result ≡ NoMemory)) }
{
    match pool_of(room, ssid).copy() {
        Ok(pool) => Refusal::NeedVolume { pool },
        Err(Memory) => Refusal::NoMemory,
    }
}

// The pool of a session's set.
fn pool_of(room: &RoomState, ssid: Ssid) -> &Name
    requires { IsOpen ssid.0 room.now.room.sessions }
    ensures { of_session (λ session. session.head.pool) ssid.0 room.now.room.sessions
        ≡ Some result.now }
{
    match room.sessions().reader(ssid).head() {
        Some(head) => &head.pool,
        None => unreachable!(),
    }
}
