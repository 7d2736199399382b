//! Which save sets can be purged.

ghost use Rattle.std.specs.Prelude.{◌≡◌, ◌↔◌, ◌≤◌, ◌⊎◌, false, IfOk, IsTrue, length};
ghost use Rattle.std.specs.List.{Any};
ghost use Rattle.media_db.specs.declared.records.RecordState.TheVariants.{Complete};
ghost use Rattle.media_db.specs.Rows.{AreRecords};
ghost use Rattle.dep_chain.specs.Depends.{StandsOn};
ghost use Rattle.dep_chain.specs.Marks.{AreUnmarked};
ghost use Rattle.dep_chain.specs.Need.{AreSessions};
ghost use Rattle.dep_chain.specs.Purging.{AreThePurgeable, HasComplete, IsPurgeable};
ghost use Rattle.dep_chain.specs.Purging.{StaysBrowsed};

use crate::OpenSet;
use crate::bases::{has_session_on, stands_on};
use crate::marks::marks_of;
use crate::states::{is_complete, stays_browsed};
use media_db::{MediaDb, Record};
use room_base::{MAX_MOMENT, Memory, Moment, Ssid};
use std::alloc::Global;

/// Whether a set's index can be given up: it and each complete set that depends on it has passed
/// its browse time and isn't held, and no open session is of it or depends on it. Takes no memory.
pub fn purgeable(db: &MediaDb, sessions: &[OpenSet], ssid: Ssid, moment: Moment) -> bool
    requires sessions { AreSessions db.now.records sessions.now }
    requires moment { moment.0 ≤ MAX_MOMENT.0 }
    ensures { IsTrue result ↔ IsPurgeable db.now.records sessions.now moment.0 ssid.0 }
{
    let records = db.records();
    has_complete(db, ssid) && !stays_under(db, records, sessions, ssid, moment)
}

/// Every set that can be purged, ascending.
pub fn purgeable_sets(
    alloc: Global,
    db: &MediaDb,
    sessions: &[OpenSet],
    moment: Moment,
) -> Result<Vec<Ssid>, Memory>
    requires sessions { AreSessions db.now.records sessions.now }
    requires moment { moment.0 ≤ MAX_MOMENT.0 }
    ensures { IfOk result (λ ssids.
        AreThePurgeable db.now.records sessions.now moment.0 ssids.items) }
{
    let records = db.records();
    let marks = marks_of(alloc, records, sessions, moment)?;
    unmarked_sets(alloc, records, &marks)
}

// The complete sets without a mark.
fn unmarked_sets(alloc: Global, records: &[Record], marks: &[bool]) -> Result<Vec<Ssid>, Memory>
    requires order { AreRecords records.now }
    requires marks { length marks.now ≡ length records.now }
    ensures { IfOk result (λ ssids.
        AreUnmarked records.now marks.now (length records.now) ssids.items) }
{
    let mut ssids = Vec::new(alloc);
    for (place, row) in records.iter().enumerate() {
        if is_unmarked(row, marks[place]) {
            ssids.push(row.ssid)?;
        }
    }
    Ok(ssids)
}

fn is_unmarked(row: &Record, marked: bool) -> bool
    ensures { IsTrue result ↔ ((row.now.state ≡ Complete) × (marked ≡ false)) }
{
    is_complete(row) && !marked
}

// The set has a complete record.
fn has_complete(db: &MediaDb, ssid: Ssid) -> bool
    ensures { IsTrue result ↔ HasComplete db.now.records ssid.0 }
{
    db.record(ssid).is_some_and(|row| is_complete(row))
}

// A complete record that is held or still browsed, or an open session, is that of the set, or of
// one that depends on it.
fn stays_under(
    db: &MediaDb,
    records: &[Record],
    sessions: &[OpenSet],
    ssid: Ssid,
    moment: Moment,
) -> bool
    requires { AreRecords db.now.records }
    ensures { IsTrue result ↔ ((Any (λ row. StaysBrowsed moment.0 row
        × StandsOn db.now.records row.ssid.0 ssid.0) records.now)
        ⊎ (Any (λ session. StandsOn db.now.records session.ssid.0 ssid.0) sessions.now)) }
{
    is_browsed_under(db, records, ssid, moment) || has_session_on(db, sessions, ssid)
}

fn is_browsed_under(db: &MediaDb, records: &[Record], ssid: Ssid, moment: Moment) -> bool
    requires { AreRecords db.now.records }
    ensures { IsTrue result ↔ Any (λ row. StaysBrowsed moment.0 row
        × StandsOn db.now.records row.ssid.0 ssid.0) records.now }
{
    records.iter().any(|row| stays_browsed(row, moment) && stands_on(db, row.ssid, ssid))
}
