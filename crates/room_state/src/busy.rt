//! How many sessions each drive has.

ghost use Rattle.std.specs.Prelude.{◌≡◌, ◌≤◌, ℕ, length, IfSome};
ghost use Rattle.save_session.specs.Sessions.{IsOpen, find_session, is_on};
ghost use Rattle.slot_changer.specs.Drives.{IsDrive};
ghost use Rattle.slot_changer.specs.Picking.{HasEachDrive, sessions_on};
ghost use Rattle.room_state.specs.Commits.{count_on};

use crate::state::RoomState;
use room_base::Ssid;
use save_session::Sessions;

impl RoomState {
    /// How many open sessions each drive has, by which one is picked for a piece.
    pub fn busy(&self) -> [u32; 4]
        ensures each { HasEachDrive result }
        ensures counts { (drive : ℕ) → IsDrive drive
            → sessions_on result drive ≡ count_on drive self.now.room.sessions }
    {
        let sessions = &self.sessions;
        [
            count_on(sessions, 1),
            count_on(sessions, 2),
            count_on(sessions, 3),
            count_on(sessions, 4),
        ]
    }
}

// How many open sessions are on a drive.
fn count_on(sessions: &Sessions, drive: u8) -> u32
    requires { length sessions.now.sessions ≤ 64 }
    ensures { result ≡ count_on drive sessions.now.sessions }
{
    let ssids = sessions.ssids();
    let mut count = 0;
    for ssid in ssids {
        if is_on(sessions, *ssid, drive) {
            count += 1;
        }
    }
    count
}

// Whether a session is on a drive.
fn is_on(sessions: &Sessions, ssid: Ssid, drive: u8) -> bool
    requires { IsOpen ssid.0 sessions.now.sessions }
    ensures { IfSome (find_session ssid.0 sessions.now.sessions)
        (λ session. result ≡ is_on drive session.drive) }
{
    match sessions.drive(ssid) {
        Some(other) => other == drive,
        None => false,
    }
}
