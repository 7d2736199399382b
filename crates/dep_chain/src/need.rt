//! Which save sets are needed, and by which ones.

ghost use Rattle.std.specs.Prelude.{◌≡◌, ◌↔◌, ◌≤◌, ◌⊎◌, IsTrue};
ghost use Rattle.std.specs.List.{Any};
ghost use Rattle.media_db.specs.Rows.{AreRecords};
ghost use Rattle.dep_chain.specs.Depends.{Depends, StandsOn};
ghost use Rattle.dep_chain.specs.Need.{AreSessions, IsKept, IsLeastUser, Needed, NeedsItself};

use crate::OpenSet;
use crate::bases::{depends, has_session_on, stands_on};
use crate::states::{is_kept, is_open};
use media_db::{MediaDb, Record};
use room_base::{MAX_MOMENT, Moment, Ssid};

/// Whether a set has to stay: it, or a set that depends on it, is complete and unexpired, or has an
/// open session. The set itself needs no record. Takes no memory.
pub fn needed(db: &MediaDb, sessions: &[OpenSet], ssid: Ssid, moment: Moment) -> bool
    requires sessions { AreSessions db.now.records sessions.now }
    requires moment { moment.0 ≤ MAX_MOMENT.0 }
    ensures { IsTrue result ↔ Needed db.now.records sessions.now moment.0 ssid.0 }
{
    let records = db.records();
    is_kept_for(db, records, ssid, moment) || has_session_on(db, sessions, ssid)
}

/// The least other set that depends on a set and is complete and unexpired, or has an open session.
/// Takes no memory.
pub fn user_of(db: &MediaDb, sessions: &[OpenSet], ssid: Ssid, moment: Moment) -> Option<Ssid>
    requires sessions { AreSessions db.now.records sessions.now }
    requires moment { moment.0 ≤ MAX_MOMENT.0 }
    ensures { IsLeastUser db.now.records sessions.now moment.0 ssid.0 result }
{
    for row in db.records() {
        if needs(sessions, row, moment) && depends(db, row.ssid, ssid) {
            return Some(row.ssid);
        }
    }
    None
}

// A complete and unexpired record is that of the set, or of one that depends on it.
fn is_kept_for(db: &MediaDb, records: &[Record], ssid: Ssid, moment: Moment) -> bool
    requires { AreRecords db.now.records }
    ensures { IsTrue result
        ↔ Any (λ row. IsKept moment.0 row × StandsOn db.now.records row.ssid.0 ssid.0)
        records.now }
{
    records.iter().any(|row| is_kept(row, moment) && stands_on(db, row.ssid, ssid))
}

// The record is complete and unexpired, or its set has an open session.
pub(crate) fn needs(sessions: &[OpenSet], row: &Record, moment: Moment) -> bool
    ensures { IsTrue result
        ↔ NeedsItself sessions.now moment.0 row.now }
{
    is_kept(row, moment) || is_open(sessions, row.ssid)
}
