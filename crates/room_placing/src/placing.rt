//! The effects that put a piece into a drive.

ghost use Rattle.std.specs.Prelude.{◌≡◌, ◌≤◌, ◌<◌, ◌∷◌, [], false, length, IfSome, IsTrue, Some};
ghost use Rattle.save_session.specs.Sessions.{IsOpen, find_session, room_for};
ghost use Rattle.slot_changer.specs.Drives.{IsDrive};
ghost use Rattle.slot_changer.specs.Taking.{fits, takes};
ghost use Rattle.room_effects.specs.Effects.{Commit, Push};
ghost use Rattle.room_effects.specs.Running.{Does};
ghost use Rattle.room_effects.specs.View.{IsBetweenCommands, held_in};
ghost use Rattle.room_between.specs.Middle.{EndsWith, IsBetweenBut};
ghost use Rattle.room_state.specs.Commits.{IsReadyForCommits};
ghost use Rattle.room_placing.specs.Placing.{placing};

use room_base::{CopyNo, Refusal, Ssid};
use room_disk::Store;
use room_state::RoomState;

/// Puts bytes of a session, which it was sent last and which begin at this offset of its stream,
/// into a drive that takes them. Where the buffer has no place for them it is committed before; where
/// that fails this session is closed too.
pub fn place<D: Store>(
    room: &mut RoomState,
    store: &mut D,
    drive: u8,
    ssid: Ssid,
    offset: u64,
    bytes: &[u8],
) -> Result<(), Refusal>
    requires opens { IsTrue room.old.room.is_open }
    requires drive { IsDrive drive }
    requires takes { IsTrue (takes (held_in room.old.room drive) (length bytes.now)) }
    requires some { 1 ≤ length bytes.now }
    requires most { length bytes.now ≤ 257024 }
    requires open { IsOpen ssid.0 room.old.room.sessions }
    requires next { IfSome (find_session ssid.0 room.old.room.sessions) (EndsWith offset bytes.now) }
    requires memory { 0 < room_for ssid.0 room.old.memory.parts }
    requires commits { IsReadyForCommits room.old }
    requires between { IsBetweenBut ssid.0 room.old.room }
    ensures does { Does (placing drive ssid.0 offset bytes.now room.old.room) result
        room.old.room room.new.room (D.view store.old) (D.view store.new) }
    ensures between { IsBetweenCommands room.new.room }
{
    let _is_open = room.is_open();
    if room.drives().fits(drive, bytes.len() as u64) {
        room.push(drive, ssid, CopyNo(1), offset, bytes);
        return Ok(());
    }
    commit_and_push(room, store, drive, ssid, offset, bytes)
}

// Commits the buffer, and puts the bytes into the empty one.
fn commit_and_push<D: Store>(
    room: &mut RoomState,
    store: &mut D,
    drive: u8,
    ssid: Ssid,
    offset: u64,
    bytes: &[u8],
) -> Result<(), Refusal>
    requires opens { IsTrue room.old.room.is_open }
    requires drive { IsDrive drive }
    requires takes { IsTrue (takes (held_in room.old.room drive) (length bytes.now)) }
    requires full { fits (held_in room.old.room drive) (length bytes.now) ≡ false }
    requires some { 1 ≤ length bytes.now }
    requires most { length bytes.now ≤ 257024 }
    requires open { IsOpen ssid.0 room.old.room.sessions }
    requires next { IfSome (find_session ssid.0 room.old.room.sessions) (EndsWith offset bytes.now) }
    requires memory { 0 < room_for ssid.0 room.old.memory.parts }
    requires commits { IsReadyForCommits room.old }
    requires between { IsBetweenBut ssid.0 room.old.room }
    ensures does { Does (Commit drive (Some ssid.0) ∷ Push drive ssid.0 1 offset bytes.now ∷ [])
        result room.old.room room.new.room (D.view store.old) (D.view store.new) }
    ensures between { IsBetweenCommands room.new.room }
{
    let _is_open = room.is_open();
    match room.commit(store, drive, Some(ssid)) {
        Ok(()) => {
            let _still_open = room.is_open();
            room.push(drive, ssid, CopyNo(1), offset, bytes);
            Ok(())
        }
        Err(fault) => {
            let _still = room.is_open();
            Err(fault)
        }
    }
}
