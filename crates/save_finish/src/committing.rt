//! The commits of the drives that hold a set.

ghost use Rattle.std.specs.Prelude.{◌≡◌, ◌∷◌, [], true, IsTrue, OnOk, Some};
ghost use Rattle.slot_changer.specs.Drives.{IsDrive, holds_set};
ghost use Rattle.room_effects.specs.View.{IsBetweenCommands, held_in};
ghost use Rattle.room_effects.specs.Effects.{Commit};
ghost use Rattle.room_effects.specs.Running.{Does};
ghost use Rattle.room_state.specs.Commits.{IsReadyForCommits};
ghost use Rattle.save_finish.specs.Ending.{commit_of, commits_to};
ghost use Rattle.save_finish.specs.Prepared.{IsCommittedFrom, KeepsOtherDrives};

use room_base::{Refusal, Ssid};
use room_disk::Store;
use room_state::RoomState;
use slot_changer::MAX_DRIVE;

// Commits the drives whose buffers hold a set, the lowest first, for its session.
pub(crate) fn commit_held<D: Store>(
    room: &mut RoomState,
    store: &mut D,
    ssid: Ssid,
) -> Result<(), Refusal>
    requires opens { IsTrue room.old.room.is_open }
    requires ready { IsReadyForCommits room.old }
    requires between { IsBetweenCommands room.old.room }
    ensures does { Does (commits_to 4 ssid.0 room.old.room) result
        room.old.room room.new.room (D.view store.old) (D.view store.new) }
    ensures between { IsBetweenCommands room.new.room }
    ensures committed { OnOk result (IsCommittedFrom room.old room.new) }
{
    for drive in 1..MAX_DRIVE + 1 {
        match commit_one(room, store, drive, ssid) {
            Ok(()) => {}
            Err(fault) => return Err(fault),
        }
    }
    Ok(())
}

// Commits a drive if its buffer holds a set.
fn commit_one<D: Store>(
    room: &mut RoomState,
    store: &mut D,
    drive: u8,
    ssid: Ssid,
) -> Result<(), Refusal>
    requires opens { IsTrue room.old.room.is_open }
    requires drive { IsDrive drive }
    requires ready { IsReadyForCommits room.old }
    requires between { IsBetweenCommands room.old.room }
    ensures does { Does (commit_of drive ssid.0 room.old.room) result
        room.old.room room.new.room (D.view store.old) (D.view store.new) }
    ensures between { IsBetweenCommands room.new.room }
    ensures committed { OnOk result (IsCommittedFrom room.old room.new) }
    ensures others { OnOk result (KeepsOtherDrives drive room.old.room room.new.room) }
{
    if !room.drives().holds(drive, ssid) {
        return Ok(());
    }
    commit(room, store, drive, ssid)
}

// Commits a drive whose buffer holds a set.
fn commit<D: Store>(
    room: &mut RoomState,
    store: &mut D,
    drive: u8,
    ssid: Ssid,
) -> Result<(), Refusal>
    requires opens { IsTrue room.old.room.is_open }
    requires drive { IsDrive drive }
    requires holds { holds_set (held_in room.old.room drive) ssid.0 ≡ true }
    requires ready { IsReadyForCommits room.old }
    requires between { IsBetweenCommands room.old.room }
    ensures does { Does (Commit drive (Some ssid.0) ∷ []) result
        room.old.room room.new.room (D.view store.old) (D.view store.new) }
    ensures between { IsBetweenCommands room.new.room }
    ensures committed { OnOk result (IsCommittedFrom room.old room.new) }
    ensures others { OnOk result (KeepsOtherDrives drive room.old.room room.new.room) }
{
    match room.commit(store, drive, Some(ssid)) {
        Ok(()) => {
            let _is_open = room.is_open();
            Ok(())
        }
        Err(fault) => {
            let _is_room = room.is_open();
            Err(fault)
        }
    }
}
