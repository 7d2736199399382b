//! The end of a session whose index stands in one entry.

ghost use Rattle.std.specs.Prelude.{◌∷◌, [], ◌≡◌, ◌≤◌, IfOk, IfSome, IsSomeAnd, OnOk, length};
ghost use Rattle.room_base.specs.Numbers.{max_moment};
ghost use Rattle.catalog_change.specs.Changes.{max_part};
ghost use Rattle.room_command.specs.declared.answer.Answer.TheVariants as answers;
ghost use Rattle.room_command.specs.declared.reply.Reply.TheVariants as replies;
ghost use Rattle.save_session.specs.Sessions.{find_session};
ghost use Rattle.room_effects.specs.View.{IsBetweenCommands};
ghost use Rattle.room_effects.specs.Effects.{Close, Enter};
ghost use Rattle.room_effects.specs.Running.{Does};
ghost use Rattle.room_effects.specs.Plans.{Do, Follows};
ghost use Rattle.save_finish.specs.Ending.{ending, finished_whole};
ghost use Rattle.save_finish.specs.Finishing.{finished};
ghost use Rattle.save_finish.specs.Ended.{HasEnded, HasFew, IsStreamOf};
ghost use Rattle.save_finish.specs.Prepared.{IsReadyToEnd, IsReadyToEnter, MayEnd};

use crate::committing::commit_held;
use crate::lengths::whole_length;
use crate::stream::{EndedStream, ended_stream};
use catalog_change::Change;
use room_base::{Items, Memory, Moment, Refusal, Ssid};
use room_command::{Answer, Reply};
use room_disk::Store;
use room_state::RoomState;

// Ends a session whose index isn't longer than a part.
pub(crate) fn finish_whole<D: Store>(
    room: &mut RoomState,
    store: &mut D,
    m: Moment,
    ssid: Ssid,
) -> Reply
    requires moment { m.0 ≤ max_moment }
    requires may { MayEnd ssid.0 room.old.room }
    requires few { IfSome (find_session ssid.0 room.old.room.sessions) HasFew }
    ensures follows { IfSome (find_session ssid.0 room.old.room.sessions)
        (λ session. Follows (Do (ending m ssid session room.old.room) (finished ssid session))
        result room.old.room room.new.room (D.view store.old) (D.view store.new)) }
    ensures between { IsBetweenCommands room.new.room }
{
    match prepare_whole(room, ssid) {
        Ok(stream) => end_whole(room, store, m, ssid, stream),
        Err(Memory) => Reply::Refused(Refusal::NoMemory),
    }
}

// All memory that the end takes.
fn prepare_whole(room: &mut RoomState, ssid: Ssid) -> Result<EndedStream, Memory>
    requires { IsSomeAnd (find_session ssid.0 room.old.room.sessions) HasEnded }
    ensures stream { IfOk result (λ stream. IfSome (find_session ssid.0 room.old.room.sessions)
        (IsStreamOf stream)) }
    ensures ready { OnOk result (IsReadyToEnd room.new) }
    ensures entry { OnOk result (IfSome (find_session ssid.0 room.old.room.sessions)
        (IsReadyToEnter ssid room.new)) }
    ensures room { room.new.room ≡ room.old.room }
{
    let stream = ended_stream(room.sessions(), room.allocator(), ssid)?;
    let length = whole_length(room.sessions(), ssid, stream.sections.as_slice().len());
    room.prepare_commits()?;
    room.prepare_index(0)?;
    room.prepare_entry(length)?;
    Ok(stream)
}

// Ends a session for whose end there is memory.
fn end_whole<D: Store>(
    room: &mut RoomState,
    store: &mut D,
    m: Moment,
    ssid: Ssid,
    stream: EndedStream,
) -> Reply
    requires moment { m.0 ≤ max_moment }
    requires may { MayEnd ssid.0 room.old.room }
    requires few { IfSome (find_session ssid.0 room.old.room.sessions) HasFew }
    requires stream { IfSome (find_session ssid.0 room.old.room.sessions) (IsStreamOf stream) }
    requires ready { IsReadyToEnd room.old }
    requires entry { IfSome (find_session ssid.0 room.old.room.sessions)
        (IsReadyToEnter ssid room.old) }
    ensures follows { IfSome (find_session ssid.0 room.old.room.sessions)
        (λ session. Follows (Do (ending m ssid session room.old.room) (finished ssid session))
        result room.old.room room.new.room (D.view store.old) (D.view store.new)) }
    ensures between { IsBetweenCommands room.new.room }
{
    let bytes = stream.bytes;
    let files = stream.files;
    match commit_and_enter(room, store, m, ssid, stream) {
        Ok(()) => Reply::Done(Answer::Finished { bytes, files, ssid }),
        Err(fault) => Reply::Refused(fault),
    }
}

// Commits the drives that hold the set, and ends its session.
fn commit_and_enter<D: Store>(
    room: &mut RoomState,
    store: &mut D,
    m: Moment,
    ssid: Ssid,
    stream: EndedStream,
) -> Result<(), Refusal>
    requires moment { m.0 ≤ max_moment }
    requires may { MayEnd ssid.0 room.old.room }
    requires few { IfSome (find_session ssid.0 room.old.room.sessions) HasFew }
    requires stream { IfSome (find_session ssid.0 room.old.room.sessions) (IsStreamOf stream) }
    requires ready { IsReadyToEnd room.old }
    requires entry { IfSome (find_session ssid.0 room.old.room.sessions)
        (IsReadyToEnter ssid room.old) }
    ensures does { IfSome (find_session ssid.0 room.old.room.sessions)
        (λ session. Does (ending m ssid session room.old.room) result
        room.old.room room.new.room (D.view store.old) (D.view store.new)) }
    ensures between { IsBetweenCommands room.new.room }
{
    match commit_held(room, store, ssid) {
        Ok(()) => close_and_enter(room, store, m, ssid, stream),
        Err(fault) => Err(fault),
    }
}

// Ends the session of a set whose drives are committed, and enters that the set is complete.
fn close_and_enter<D: Store>(
    room: &mut RoomState,
    store: &mut D,
    m: Moment,
    ssid: Ssid,
    stream: EndedStream,
) -> Result<(), Refusal>
    requires moment { m.0 ≤ max_moment }
    requires may { MayEnd ssid.0 room.old.room }
    requires stream { IfSome (find_session ssid.0 room.old.room.sessions) (IsStreamOf stream) }
    requires ready { IsReadyToEnd room.old }
    requires entry { IfSome (find_session ssid.0 room.old.room.sessions)
        (IsReadyToEnter ssid room.old) }
    ensures does { IfSome (find_session ssid.0 room.old.room.sessions)
        (λ session. Does (Close ssid.0 ∷ Enter m (finished_whole ssid session) ∷ []) result
        room.old.room room.new.room (D.view store.old) (D.view store.new)) }
    ensures between { IsBetweenCommands room.new.room }
{
    let index = room.finish_session(ssid);
    let _is_closed = room.is_open();
    let digest = stream.digest;
    let change = Change::Finished {
        ssid,
        files: stream.files,
        bytes: stream.bytes,
        digest,
        sections: stream.sections,
        index: Items::of(index),
    };
    match room.enter(store, m, change) {
        Ok(()) => {
            let _is_entered = room.is_open();
            Ok(())
        }
        Err(fault) => {
            let _is_shut = room.is_open();
            Err(fault)
        }
    }
}
