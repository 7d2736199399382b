//! The commit of a drive's buffer, and what is lost where it fails.

ghost use Rattle.std.specs.Prelude.{◌≡◌, ◌≤◌, ◌||◌, ◌∷◌, [], true, length, OnOk, IsSome, Some};
ghost use Rattle.std.specs.Prelude.{IsSomeAnd, List, ℕ, Option, vec_capacity};
ghost use Rattle.std.specs.Option.{option_map};
ghost use Rattle.save_session.specs.Sessions.{AreOpenSessions, leave_drive};
ghost use Rattle.slot_changer.specs.Committing.{cart_file_of};
ghost use Rattle.slot_changer.specs.Drives.{DriveView, IsDrive, holds_set, in_drive, set_drive};
ghost use Rattle.room_effects.specs.Effects.{Commit, ended_with, is_asking, left_by};
ghost use Rattle.room_effects.specs.Faults.{ssids_of};
ghost use Rattle.room_effects.specs.Memory.{HasMemoryFor};
ghost use Rattle.room_effects.specs.Needs.{CanDo};
ghost use Rattle.room_effects.specs.Running.{Does};
ghost use Rattle.room_state.specs.Commits.{asking_number};

use crate::state::RoomState;
use room_base::{Items, Refusal, Ssid};
use room_disk::Store;
use save_session::Sessions;
use slot_changer::Drives;
use std::mem;

impl RoomState {
    /// Makes the buffer of a drive its volume's next file. Where that fails the drive is emptied,
    /// and the sessions with chunks in the buffer and the one that asks are closed.
    pub fn commit<D: Store>(
        &mut self,
        store: &mut D,
        drive: u8,
        asking: Option<Ssid>,
    ) -> Result<(), Refusal>
        requires can { CanDo (Commit drive (asking_number asking)) self.old.room }
        requires memory { HasMemoryFor (Commit drive (asking_number asking)) self.old }
        ensures does { Does (Commit drive (asking_number asking) ∷ []) result
            self.old.room self.new.room (D.view store.old) (D.view store.new) }
        ensures memory { OnOk result (self.new.memory ≡ self.old.memory) }
    {
        match self.drives.commit(store, drive) {
            Ok(()) => Ok(()),
            Err(_) => {
                let file = lose_drive(
                    &mut self.sessions,
                    &mut self.drives,
                    drive,
                    asking,
                    &mut self.closed,
                );
                let none = Vec::new(self.alloc);
                let closed = Items::of(mem::replace(&mut self.closed, none));
                Err(Refusal::DeviceFault { file, closed })
            }
        }
    }
}

// Empties a drive whose commit failed, closes the sessions that go with it, and lists them. Answers
// the file of the cartridge.
fn lose_drive(
    sessions: &mut Sessions,
    drives: &mut Drives,
    drive: u8,
    asking: Option<Ssid>,
    closed: &mut Vec<Ssid>,
) -> u32
    requires drive { IsDrive drive }
    requires failed { IsSomeAnd (in_drive drives.old drive) (λ one. one.failed ≡ true) }
    requires room { length (ended_with (in_drive drives.old drive) (asking_number asking)
        sessions.old.sessions) ≤ vec_capacity closed.old }
    ensures file { option_map cart_file_of (in_drive drives.old drive) ≡ Some result }
    ensures closed { closed.new.items ≡ ssids_of (ended_with (in_drive drives.old drive)
        (asking_number asking) sessions.old.sessions) }
    ensures sessions { sessions.new.sessions ≡ leave_drive drive
        (left_by (in_drive drives.old drive) (asking_number asking) sessions.old.sessions) }
    ensures drives { drives.new ≡ set_drive drives.old drive None }
{
    list_ended(sessions, drives, drive, asking, closed);
    close_each(sessions, closed);
    sessions.left(drive);
    let file = file_in(drives, drive);
    drives.take_out(drive);
    file
}

// Lists the sessions that go with the failed commit of a drive.
fn list_ended(
    sessions: &Sessions,
    drives: &Drives,
    drive: u8,
    asking: Option<Ssid>,
    closed: &mut Vec<Ssid>,
)
    requires drive { IsDrive drive }
    requires room { length (ended_with (in_drive drives.now drive) (asking_number asking)
        sessions.now.sessions) ≤ vec_capacity closed.old }
    ensures listed { closed.new.items ≡ ssids_of (ended_with (in_drive drives.now drive)
        (asking_number asking) sessions.now.sessions) }
    ensures sessions { AreOpenSessions sessions.now.sessions }
{
    closed.clear();
    let ssids = sessions.ssids();
    for ssid in ssids {
        if goes(drives, drive, asking, *ssid) {
            closed.push(*ssid).unwrap();
        }
    }
}

// Whether a session goes with the failed commit of a drive: it has chunks in the buffer, or asked.
fn goes(drives: &Drives, drive: u8, asking: Option<Ssid>, ssid: Ssid) -> bool
    requires { IsDrive drive }
    ensures { result ≡ (holds_set (in_drive drives.now drive) ssid.0
        || is_asking (asking_number asking) ssid.0) }
{
    match asking {
        Some(one) => drives.holds(drive, ssid) || one.0 == ssid.0,
        None => drives.holds(drive, ssid),
    }
}

// Closes these sessions, each of which is open.
fn close_each(sessions: &mut Sessions, ssids: &[Ssid])
    requires { AreOpenSessions sessions.old.sessions }
    ensures { (held : Option DriveView) (asking : Option ℕ)
        → ssids.now ≡ ssids_of (ended_with held asking sessions.old.sessions)
        → sessions.new.sessions ≡ left_by held asking sessions.old.sessions }
{
    for ssid in ssids {
        if sessions.is_open(*ssid) {
            sessions.close(*ssid);
        }
    }
}

// The file of the cartridge in a drive.
fn file_in(drives: &Drives, drive: u8) -> u32
    requires drive { IsDrive drive }
    requires held { IsSome (in_drive drives.now drive) }
    ensures { option_map cart_file_of (in_drive drives.now drive) ≡ Some result }
{
    let Some(volume) = drives.volume(drive) else {
        unreachable!()
    };
    volume.cart.0 + 1
}
