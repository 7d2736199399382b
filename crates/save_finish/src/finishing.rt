//! Finishing a save.

ghost use Rattle.std.specs.Prelude.{◌≡◌, ◌≤◌, IfSome, IsSomeAnd, IsTrue, length};
ghost use Rattle.room_base.specs.Numbers.{max_moment};
ghost use Rattle.save_session.specs.Sessions.{IsOpen, find_session};
ghost use Rattle.room_effects.specs.View.{IsBetweenCommands};
ghost use Rattle.room_effects.specs.Plans.{Do, Follows};
ghost use Rattle.save_finish.specs.Ending.{ending};
ghost use Rattle.save_finish.specs.Finishing.{ending_plan, finish_plan, finished, session_plan};
ghost use Rattle.save_finish.specs.Ended.{HasEnded};
ghost use Rattle.save_finish.specs.Prepared.{MayEnd};

use crate::again::finished_again;
use crate::checks::session_checks;
use crate::lengths::MAX_PART;
use crate::parts::finish_in_parts;
use crate::whole::finish_whole;
use room_base::{Moment, Refusal, Ssid};
use room_command::Reply;
use room_disk::Store;
use room_entering::{CEILING, is_at_ceiling};
use room_state::RoomState;

/// Finishes the save of a set whose stream has been sent, if it has so many bytes behind its head,
/// with this digest. A set that is complete is compared again, and nothing is done.
pub fn finish<D: Store>(
    room: &mut RoomState,
    store: &mut D,
    m: Moment,
    ssid: Ssid,
    length: u64,
    sha256: [u8; 32],
) -> Reply
    requires opens { IsTrue room.old.room.is_open }
    requires moment { m.0 ≤ max_moment }
    requires between { IsBetweenCommands room.old.room }
    ensures follows { Follows (finish_plan m ssid length sha256 room.old.room) result
        room.old.room room.new.room (D.view store.old) (D.view store.new) }
    ensures between { IsBetweenCommands room.new.room }
{
    if room.sessions().is_open(ssid) {
        return finish_open(room, store, m, ssid, length, &sha256);
    }
    match finished_again(room, ssid, length, &sha256) {
        Ok(answer) => Reply::Done(answer),
        Err(refusal) => Reply::Refused(refusal),
    }
}

// Finishes the save of a set that has a session.
fn finish_open<D: Store>(
    room: &mut RoomState,
    store: &mut D,
    m: Moment,
    ssid: Ssid,
    length: u64,
    digest: &[u8; 32],
) -> Reply
    requires opens { IsTrue room.old.room.is_open }
    requires moment { m.0 ≤ max_moment }
    requires between { IsBetweenCommands room.old.room }
    requires open { IsOpen ssid.0 room.old.room.sessions }
    ensures follows { IfSome (find_session ssid.0 room.old.room.sessions)
        (λ session. Follows (session_plan m ssid length digest.now session room.old.room) result
        room.old.room room.new.room (D.view store.old) (D.view store.new)) }
    ensures between { IsBetweenCommands room.new.room }
{
    match session_checks(room, ssid, length, digest) {
        Ok(()) => end(room, store, m, ssid),
        Err(refusal) => Reply::Refused(refusal),
    }
}

// Ends a session whose stream is what the sender means, where a number is left for the entry.
fn end<D: Store>(room: &mut RoomState, store: &mut D, m: Moment, ssid: Ssid) -> Reply
    requires opens { IsTrue room.old.room.is_open }
    requires moment { m.0 ≤ max_moment }
    requires between { IsBetweenCommands room.old.room }
    requires ended { IsSomeAnd (find_session ssid.0 room.old.room.sessions) HasEnded }
    ensures follows { IfSome (find_session ssid.0 room.old.room.sessions)
        (λ session. Follows (ending_plan m ssid session room.old.room) result
        room.old.room room.new.room (D.view store.old) (D.view store.new)) }
    ensures between { IsBetweenCommands room.new.room }
{
    if is_at_ceiling(room.catalogue()) {
        return Reply::Refused(Refusal::TooMany { limit: CEILING });
    }
    end_below(room, store, m, ssid)
}

// Ends a session for whose entry a number is left.
fn end_below<D: Store>(room: &mut RoomState, store: &mut D, m: Moment, ssid: Ssid) -> Reply
    requires moment { m.0 ≤ max_moment }
    requires may { MayEnd ssid.0 room.old.room }
    ensures follows { IfSome (find_session ssid.0 room.old.room.sessions)
        (λ session. Follows (Do (ending m ssid session room.old.room) (finished ssid session))
        result room.old.room room.new.room (D.view store.old) (D.view store.new)) }
    ensures between { IsBetweenCommands room.new.room }
{
    if entry_count(room, ssid) <= MAX_PART {
        return finish_whole(room, store, m, ssid);
    }
    finish_in_parts(room, store, m, ssid)
}

// How many entries the index of a session's stream has.
fn entry_count(room: &RoomState, ssid: Ssid) -> usize
    requires { IsOpen ssid.0 room.now.room.sessions }
    ensures { IfSome (find_session ssid.0 room.now.room.sessions)
        (λ session. result ≡ length session.reading.entries) }
{
    room.sessions().reader(ssid).entries().len()
}
