//! Whether a volume may be labelled anew.

ghost use Rattle.std.specs.Prelude.{◌≡◌, ℕ, ◌↔◌, ◌≤◌, ◌⊎◌, IfSome, IsTrue, MatchBool};
ghost use Rattle.std.specs.List.{Any};
ghost use Rattle.dep_chain.specs.Labelling.{IsDoneOff, IsDoneOn, IsLabelAnswer, IsWrittenOn};
ghost use Rattle.media_db.specs.Rows.{AreRecords};
ghost use Rattle.dep_chain.specs.Labelling.{AreSettled, IsSettled, IsUpTo, LiesOn};
ghost use Rattle.dep_chain.specs.Labelling.{LiesUnder, RowLiesOn};
ghost use Rattle.dep_chain.specs.Need.{AreSessions, NeedsItself};

use crate::OpenSet;
use crate::need::needs;
use media_db::{CopyState, MediaDb, Record, SetCopy};
use room_base::{MAX_MOMENT, Moment, Ssid, Volid};

/// Whether a volume may be labelled anew: each needed set that has a section on it, of a done copy
/// or of its open session, has another done copy without a section on it. Takes no memory.
pub fn may_label(
    db: &MediaDb,
    sessions: &[OpenSet],
    volid: Volid,
    moment: Moment,
) -> Result<(), Ssid>
    requires sessions { AreSessions db.now.records sessions.now }
    requires moment { moment.0 ≤ MAX_MOMENT.0 }
    ensures { IsLabelAnswer db.now.records sessions.now volid.0 moment.0 result }
{
    let mut least = None;
    for row in db.records() {
        least = least_with_user(db, sessions, row, volid, moment, least);
    }
    match least {
        Some(ssid) => Err(ssid),
        None => Ok(()),
    }
}

// The least set that forbids, of the one so far and, where the record's set needs itself and what
// it depends on, of these.
fn least_with_user(
    db: &MediaDb,
    sessions: &[OpenSet],
    row: &Record,
    volid: Volid,
    moment: Moment,
    least: Option<Ssid>,
) -> Option<Ssid>
    requires { AreRecords db.now.records }
    ensures grown { (ssid : ℕ) → IsUpTo least ssid → IsUpTo result ssid }
    ensures is { (result ≡ least) ⊎ IfSome result (λ ssid. NeedsItself sessions.now moment.0 row.now
        × LiesUnder db.now.records sessions.now volid.0 row.now.ssid.0 ssid) }
    ensures settled { NeedsItself sessions.now moment.0 row.now
        → AreSettled db.now.records sessions.now volid.0 row.now.ssid.0 result }
{
    if !needs(sessions, row, moment) {
        return least;
    }
    least_under(db, sessions, row.ssid, volid, least)
}

// Goes down from a set, for the sets that lie on the volume alone.
fn least_under(
    db: &MediaDb,
    sessions: &[OpenSet],
    ssid: Ssid,
    volid: Volid,
    so_far: Option<Ssid>,
) -> Option<Ssid>
    requires { AreRecords db.now.records }
    ensures grown { (ssid : ℕ) → IsUpTo so_far ssid → IsUpTo result ssid }
    ensures is { (result ≡ so_far) ⊎ IfSome result (λ found.
        LiesUnder db.now.records sessions.now volid.0 ssid.0 found) }
    ensures settled { AreSettled db.now.records sessions.now volid.0 ssid.0 result }
{
    let mut least = so_far;
    let mut at = ssid;
    while let Some(row) = db.record(at) {
        least = least_with(sessions, row, volid, least);
        at = row.base;
    }
    least
}

fn least_with(sessions: &[OpenSet], row: &Record, volid: Volid, least: Option<Ssid>) -> Option<Ssid>
    ensures grown { (ssid : ℕ) → IsUpTo least ssid → IsUpTo result ssid }
    ensures is { (result ≡ least) ⊎ ((result ≡ Some row.now.ssid)
        × RowLiesOn sessions.now volid.0 row.now × (¬ Any (IsDoneOff volid.0) row.now.copies)) }
    ensures settled { IsSettled sessions.now volid.0 result row.now }
{
    if !lies_only_on(sessions, row, volid) {
        return least;
    }
    lesser(least, row.ssid)
}

fn lesser(least: Option<Ssid>, ssid: Ssid) -> Option<Ssid>
    ensures grown { (other : ℕ) → IsUpTo least other → IsUpTo result other }
    ensures is { (result ≡ least) ⊎ (result ≡ Some ssid) }
    ensures here { IsUpTo result ssid.0 }
{
    match least {
        Some(lower) if lower.0 <= ssid.0 => least,
        _ => Some(ssid),
    }
}

// The set has a section on the volume, and no done copy without one.
fn lies_only_on(sessions: &[OpenSet], row: &Record, volid: Volid) -> bool
    ensures { MatchBool result
        (RowLiesOn sessions.now volid.0 row.now × (¬ Any (IsDoneOff volid.0) row.now.copies))
        (RowLiesOn sessions.now volid.0 row.now → Any (IsDoneOff volid.0) row.now.copies) }
{
    row_lies_on(sessions, row, volid) && !has_done_off(row.copies.as_slice(), volid)
}

fn row_lies_on(sessions: &[OpenSet], row: &Record, volid: Volid) -> bool
    ensures { IsTrue result ↔ RowLiesOn sessions.now volid.0 row.now }
{
    has_done_on(row.copies.as_slice(), volid) || is_written_on(sessions, row.ssid, volid)
}

fn has_done_on(copies: &[SetCopy], volid: Volid) -> bool
    ensures { IsTrue result ↔ Any (IsDoneOn volid.0) copies.now }
{
    copies.iter().any(|copy| copy.state == CopyState::Done && lies_on(copy, volid))
}

fn has_done_off(copies: &[SetCopy], volid: Volid) -> bool
    ensures { IsTrue result ↔ Any (IsDoneOff volid.0) copies.now }
{
    copies.iter().any(|copy| copy.state == CopyState::Done && !lies_on(copy, volid))
}

fn lies_on(copy: &SetCopy, volid: Volid) -> bool
    ensures { IsTrue result ↔ LiesOn volid.0 copy.now }
{
    copy.sections
        .as_slice()
        .iter()
        .any(|section| section.volid.0 == volid.0)
}

fn is_written_on(sessions: &[OpenSet], ssid: Ssid, volid: Volid) -> bool
    ensures { IsTrue result ↔ IsWrittenOn sessions.now volid.0 ssid.0 }
{
    sessions.iter().any(|session| session.ssid.0 == ssid.0 && session_lies_on(session, volid))
}

fn session_lies_on(session: &OpenSet, volid: Volid) -> bool
    ensures { IsTrue result ↔ Any (λ on. on.0 ≡ volid.0) session.now.volids }
{
    session.volids.as_slice().iter().any(|on| on.0 == volid.0)
}
