//! Unmounting.

ghost use Rattle.std.specs.Prelude.{◌≡◌, ◌≢◌, IsSome, IsTrue, OnOk};
ghost use Rattle.room_command.specs.declared.answer.Answer.TheVariants.{Empty};
ghost use Rattle.room_command.specs.declared.reply.Reply.TheVariants as replies;
ghost use Rattle.slot_changer.specs.Drives.{IsDrive, blocks_in};
ghost use Rattle.room_effects.specs.View.{held_in};
ghost use Rattle.room_effects.specs.Checked.{ComesTo};
ghost use Rattle.room_effects.specs.Plans.{Do, Follows};
ghost use Rattle.room_state.specs.Commits.{IsReadyForCommits};
ghost use Rattle.room_media.specs.Mounting.{emptying, unmount_checks, unmount_plan};

use crate::mounting::is_drive;
use room_base::{Memory, Refusal};
use room_checks::{malformed, no_such};
use room_command::{Answer, Reply};
use room_disk::Store;
use room_state::RoomState;

/// Takes the volume out of a drive. A buffer that has a block is committed before.
pub fn unmount<D: Store>(room: &mut RoomState, store: &mut D, drive: u8) -> Reply
    requires { IsTrue room.old.room.is_open }
    ensures { Follows (unmount_plan drive room.old.room) result
        room.old.room room.new.room (D.view store.old) (D.view store.new) }
{
    match unmount_checks(room, drive) {
        Ok(()) => empty_drive(room, store, drive),
        Err(refusal) => Reply::Refused(refusal),
    }
}

fn unmount_checks(room: &RoomState, drive: u8) -> Result<(), Refusal>
    ensures checks { ComesTo (unmount_checks drive room.now.room) result }
    ensures drive { OnOk result (IsDrive drive) }
{
    let alloc = room.allocator();
    if !is_drive(drive) {
        return Err(malformed(alloc, "drive"));
    }
    match room.drives().volume(drive) {
        Some(_) => Ok(()),
        None => Err(no_such(alloc, "drive", u64::from(drive))),
    }
}

// Empties a drive, behind the commit of its buffer where that has a block.
fn empty_drive<D: Store>(room: &mut RoomState, store: &mut D, drive: u8) -> Reply
    requires opens { IsTrue room.old.room.is_open }
    requires drive { IsDrive drive }
    ensures { Follows (Do (emptying drive room.old.room) (replies.Done Empty)) result
        room.old.room room.new.room (D.view store.old) (D.view store.new) }
{
    let _is_open = room.is_open();
    if room.drives().blocks(drive) == 0 {
        room.take_out(drive);
        return Reply::Done(Answer::Empty);
    }
    match room.prepare_commits() {
        Ok(()) => commit_and_empty(room, store, drive),
        Err(Memory) => Reply::Refused(Refusal::NoMemory),
    }
}

// Commits the buffer of a drive, and empties the drive.
fn commit_and_empty<D: Store>(room: &mut RoomState, store: &mut D, drive: u8) -> Reply
    requires opens { IsTrue room.old.room.is_open }
    requires drive { IsDrive drive }
    requires some { blocks_in (held_in room.old.room drive) ≢ 0 }
    requires ready { IsReadyForCommits room.old }
    ensures { Follows (Do (emptying drive room.old.room) (replies.Done Empty)) result
        room.old.room room.new.room (D.view store.old) (D.view store.new) }
{
    let _is_open = room.is_open();
    match room.commit(store, drive, None) {
        Ok(()) => {
            let _still_open = room.is_open();
            room.take_out(drive);
            Reply::Done(Answer::Empty)
        }
        Err(fault) => Reply::Refused(fault),
    }
}
