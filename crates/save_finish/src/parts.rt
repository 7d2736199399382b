//! The end of a session whose index stands in parts.

ghost use Rattle.std.specs.Prelude.{◌∷◌, [], ◌≡◌, ◌≤◌, IfOk, IfSome, IsSomeAnd, OnOk};
ghost use Rattle.room_base.specs.Numbers.{max_moment};
ghost use Rattle.save_session.specs.Sessions.{find_session};
ghost use Rattle.room_effects.specs.View.{IsBetweenCommands};
ghost use Rattle.room_effects.specs.Effects.{Close};
ghost use Rattle.room_effects.specs.Running.{Does};
ghost use Rattle.room_effects.specs.Plans.{Do, Follows};
ghost use Rattle.room_state.specs.Commits.{IsReadyForCommits};
ghost use Rattle.save_finish.specs.Ending.{ending, entering_parts};
ghost use Rattle.save_finish.specs.Finishing.{finished};
ghost use Rattle.save_finish.specs.Ended.{HasEnded, HasMany};
ghost use Rattle.save_finish.specs.Prepared.{MayEnd};
ghost use Rattle.save_finish.specs.Parts.{IsReadyForParts, IsRoomFor};

use crate::committing::commit_held;
use crate::index::enter_index;
use crate::lengths::longest_length;
use crate::part_room::{PartRoom, part_lists, second_snapshot};
use crate::stream::ended_stream;
use room_base::{Memory, Moment, Refusal, Ssid};
use room_command::{Answer, Reply};
use room_disk::Store;
use room_state::RoomState;

// Ends a session whose index is longer than a part.
pub(crate) fn finish_in_parts<D: Store>(
    room: &mut RoomState,
    store: &mut D,
    m: Moment,
    ssid: Ssid,
) -> Reply
    requires moment { m.0 ≤ max_moment }
    requires may { MayEnd ssid.0 room.old.room }
    requires many { IfSome (find_session ssid.0 room.old.room.sessions) HasMany }
    ensures follows { IfSome (find_session ssid.0 room.old.room.sessions)
        (λ session. Follows (Do (ending m ssid session room.old.room) (finished ssid session))
        result room.old.room room.new.room (D.view store.old) (D.view store.new)) }
    ensures between { IsBetweenCommands room.new.room }
{
    match prepare_parts(room, ssid) {
        Ok(parts) => end_in_parts(room, store, m, ssid, parts),
        Err(Memory) => Reply::Refused(Refusal::NoMemory),
    }
}

// All memory that the end takes.
fn prepare_parts(room: &mut RoomState, ssid: Ssid) -> Result<PartRoom, Memory>
    requires { IsSomeAnd (find_session ssid.0 room.old.room.sessions) HasEnded }
    ensures parts { IfOk result (λ parts. IfSome (find_session ssid.0 room.old.room.sessions)
        (IsRoomFor parts room.old.room)) }
    ensures commits { OnOk result (IsReadyForCommits room.new) }
    ensures entries { OnOk result (IfSome (find_session ssid.0 room.old.room.sessions)
        (IsReadyForParts ssid room.new)) }
    ensures room { room.new.room ≡ room.old.room }
{
    let stream = ended_stream(room.sessions(), room.allocator(), ssid)?;
    let lists = part_lists(room.allocator(), stream.files)?;
    let snapshot = second_snapshot(room)?;
    let length = longest_length(room.sessions(), ssid, stream.sections.as_slice().len());
    room.prepare_commits()?;
    room.prepare_index(stream.files)?;
    room.prepare_entry(length)?;
    Ok(PartRoom {
        stream,
        lists,
        snapshot,
    })
}

// Ends a session for whose end there is memory.
fn end_in_parts<D: Store>(
    room: &mut RoomState,
    store: &mut D,
    m: Moment,
    ssid: Ssid,
    parts: PartRoom,
) -> Reply
    requires moment { m.0 ≤ max_moment }
    requires may { MayEnd ssid.0 room.old.room }
    requires many { IfSome (find_session ssid.0 room.old.room.sessions) HasMany }
    requires parts { IfSome (find_session ssid.0 room.old.room.sessions)
        (IsRoomFor parts room.old.room) }
    requires commits { IsReadyForCommits room.old }
    requires entries { IfSome (find_session ssid.0 room.old.room.sessions)
        (IsReadyForParts ssid room.old) }
    ensures follows { IfSome (find_session ssid.0 room.old.room.sessions)
        (λ session. Follows (Do (ending m ssid session room.old.room) (finished ssid session))
        result room.old.room room.new.room (D.view store.old) (D.view store.new)) }
    ensures between { IsBetweenCommands room.new.room }
{
    let bytes = parts.stream.bytes;
    let files = parts.stream.files;
    match commit_and_enter(room, store, m, ssid, parts) {
        Ok(()) => Reply::Done(Answer::Finished { bytes, files, ssid }),
        Err(fault) => Reply::Refused(fault),
    }
}

// Commits the drives that hold the set, and ends its session.
fn commit_and_enter<D: Store>(
    room: &mut RoomState,
    store: &mut D,
    m: Moment,
    ssid: Ssid,
    parts: PartRoom,
) -> Result<(), Refusal>
    requires moment { m.0 ≤ max_moment }
    requires may { MayEnd ssid.0 room.old.room }
    requires many { IfSome (find_session ssid.0 room.old.room.sessions) HasMany }
    requires parts { IfSome (find_session ssid.0 room.old.room.sessions)
        (IsRoomFor parts room.old.room) }
    requires commits { IsReadyForCommits room.old }
    requires entries { IfSome (find_session ssid.0 room.old.room.sessions)
        (IsReadyForParts ssid room.old) }
    ensures does { IfSome (find_session ssid.0 room.old.room.sessions)
        (λ session. Does (ending m ssid session room.old.room) result
        room.old.room room.new.room (D.view store.old) (D.view store.new)) }
    ensures between { IsBetweenCommands room.new.room }
{
    match commit_held(room, store, ssid) {
        Ok(()) => close_and_enter(room, store, m, ssid, parts),
        Err(fault) => Err(fault),
    }
}

// Ends the session of a set whose drives are committed, and enters its index and that the set is
// complete.
fn close_and_enter<D: Store>(
    room: &mut RoomState,
    store: &mut D,
    m: Moment,
    ssid: Ssid,
    parts: PartRoom,
) -> Result<(), Refusal>
    requires moment { m.0 ≤ max_moment }
    requires may { MayEnd ssid.0 room.old.room }
    requires many { IfSome (find_session ssid.0 room.old.room.sessions) HasMany }
    requires parts { IfSome (find_session ssid.0 room.old.room.sessions)
        (IsRoomFor parts room.old.room) }
    requires entries { IfSome (find_session ssid.0 room.old.room.sessions)
        (IsReadyForParts ssid room.old) }
    ensures does { IfSome (find_session ssid.0 room.old.room.sessions)
        (λ session. Does (Close ssid.0 ∷ entering_parts m ssid session room.old.room) result
        room.old.room room.new.room (D.view store.old) (D.view store.new)) }
    ensures between { IsBetweenCommands room.new.room }
{
    let index = room.finish_session(ssid);
    let _is_closed = room.is_open();
    enter_index(room, store, m, ssid, parts, index)
}
