//! Whether the bytes that were kept are those that the sender means.

ghost use Rattle.std.specs.Prelude.{◌≡◌, IfSome, IsSomeAnd, OnOk, true};
ghost use Rattle.save_session.specs.Sessions.{IsOpen, find_session};
ghost use Rattle.save_finish.specs.Finishing.{is_same, kept_checks, session_checks};

use room_base::{Refusal, Ssid};
use room_state::RoomState;

// Whether a session's stream has ended, and is what the sender means.
pub(crate) fn session_checks(
    room: &RoomState,
    ssid: Ssid,
    length: u64,
    digest: &[u8; 32],
) -> Result<(), Refusal>
    requires { IsOpen ssid.0 room.now.room.sessions }
    ensures checks { IfSome (find_session ssid.0 room.now.room.sessions)
        (λ session. result ≡ session_checks length digest.now session) }
    ensures ended { OnOk result (IsSomeAnd (find_session ssid.0 room.now.room.sessions)
        (λ session. session.reading.ended ≡ true)) }
{
    let sessions = room.sessions();
    match sessions.digest(ssid) {
        Some(kept) => kept_checks(sessions.next(ssid), &kept, length, digest),
        None => Err(Refusal::NotEnded {
            offset: sessions.next(ssid),
        }),
    }
}

// Whether a length and a digest are those of what was kept.
pub(crate) fn kept_checks(
    kept_length: u64,
    kept_digest: &[u8; 32],
    length: u64,
    digest: &[u8; 32],
) -> Result<(), Refusal>
    ensures { result ≡ kept_checks kept_length kept_digest.now length digest.now }
{
    if length != kept_length {
        return Err(Refusal::WrongLength { kept: kept_length });
    }
    if !is_same(digest, kept_digest) {
        return Err(Refusal::WrongDigest { kept: *kept_digest });
    }
    Ok(())
}

fn is_same(one: &[u8; 32], other: &[u8; 32]) -> bool
    ensures { result ≡ is_same one.now other.now }
{
    *one == *other
}
