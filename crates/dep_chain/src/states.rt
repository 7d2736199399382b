//! What a record and the sessions say of a set by itself.

ghost use Rattle.std.specs.Prelude.{◌≡◌, ◌↔◌, IsTrue};
ghost use Rattle.media_db.specs.declared.records.RecordState.TheVariants.{Complete};
ghost use Rattle.dep_chain.specs.Need.{IsKept, IsOpen};
ghost use Rattle.dep_chain.specs.Purging.{StaysBrowsed};

use crate::OpenSet;
use media_db::{Record, RecordState};
use room_base::{Moment, Ssid};

pub(crate) fn is_complete(row: &Record) -> bool
    ensures { IsTrue result ↔ (row.now.state ≡ Complete) }
{
    row.state == RecordState::Complete
}

// The record is complete and unexpired.
pub(crate) fn is_kept(row: &Record, moment: Moment) -> bool
    ensures { IsTrue result ↔ IsKept moment.0 row.now }
{
    is_complete(row) && (row.hold || row.retain.0 > moment.0)
}

// The record is complete, and is held or still browsed.
pub(crate) fn stays_browsed(row: &Record, moment: Moment) -> bool
    ensures { IsTrue result ↔ StaysBrowsed moment.0 row.now }
{
    is_complete(row) && (row.hold || row.browse.0 > moment.0)
}

pub(crate) fn is_open(sessions: &[OpenSet], ssid: Ssid) -> bool
    ensures { IsTrue result ↔ IsOpen sessions.now ssid.0 }
{
    sessions.iter().any(|session| session.ssid.0 == ssid.0)
}
