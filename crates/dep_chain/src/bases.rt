//! The walk from a set down its bases.

ghost use Rattle.std.specs.Prelude.{◌≡◌, ℕ, ◌↔◌, ◌<◌, IsTrue, MatchOption};
ghost use Rattle.std.specs.List.{Any};
ghost use Rattle.media_db.specs.Rows.{AreRecords};
ghost use Rattle.dep_chain.specs.Depends.{Depends, HasBase, StandsOn};

use crate::OpenSet;
use media_db::MediaDb;
use room_base::Ssid;

// The set that the set's record names as its base.
pub(crate) fn base_of(db: &MediaDb, ssid: Ssid) -> Option<Ssid>
    ensures base { MatchOption result ((base : ℕ) → ¬ HasBase db.now.records ssid.0 base)
        (λ base. HasBase db.now.records ssid.0 base.0) }
    ensures lower { MatchOption result (Unit {0}) (λ base. base.0 < ssid.0) }
{
    let row = db.record(ssid)?;
    if row.base.0 == 0 {
        return None;
    }
    Some(row.base)
}

// The set is the other one, or depends on it. Bases are lower, so what is below the other one
// doesn't.
pub(crate) fn stands_on(db: &MediaDb, ssid: Ssid, other: Ssid) -> bool
    requires { AreRecords db.now.records }
    ensures { IsTrue result ↔ StandsOn db.now.records ssid.0 other.0 }
{
    let mut at = ssid;
    while at.0 > other.0 {
        match base_of(db, at) {
            Some(base) => at = base,
            None => return false,
        }
    }
    at.0 == other.0
}

pub(crate) fn depends(db: &MediaDb, ssid: Ssid, other: Ssid) -> bool
    requires { AreRecords db.now.records }
    ensures { IsTrue result ↔ Depends db.now.records ssid.0 other.0 }
{
    ssid.0 > other.0 && stands_on(db, ssid, other)
}

// An open session is of the set, or of one that depends on it.
pub(crate) fn has_session_on(db: &MediaDb, sessions: &[OpenSet], ssid: Ssid) -> bool
    requires { AreRecords db.now.records }
    ensures { IsTrue result
        ↔ Any (λ session. StandsOn db.now.records session.ssid.0 ssid.0) sessions.now }
{
    sessions
        .iter()
        .any(|session| stands_on(db, session.ssid, ssid))
}
