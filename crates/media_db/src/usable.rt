//! Which record a later save can stand on.

ghost use Rattle.std.specs.Prelude.{◌≡◌, ◌↔◌, ◌<◌, IsTrue};
ghost use Rattle.media_db.specs.Rows.{AreRecords, HasLowerBase};
ghost use Rattle.media_db.specs.Usable.{HasDoneCopy, CanBeBase, IsLastBase, IsRestorable, Usable};

use crate::place::find_record_in;
use crate::{CopyState, Record, RecordState};
use room_base::{Name, Ssid};

// The greatest ssid of a usable record of the client and set whose level has a rank below the given
// one.
pub(crate) fn last_base(records: &[Record], client: &Name, set: &Name, below: u8) -> Option<Ssid>
    requires { AreRecords records.now }
    ensures { IsLastBase records.now client.now set.now below result }
{
    let mut rows = records;
    while let Some((row, before)) = rows.split_last() {
        if can_be_base(records, client, set, below, row) {
            return Some(row.ssid);
        }
        rows = before;
    }
    None
}

// The record is usable, of the client and set, and its level has a rank below the given one.
fn can_be_base(records: &[Record], client: &Name, set: &Name, below: u8, row: &Record) -> bool
    requires records { AreRecords records.now }
    requires base { HasLowerBase row.now }
    ensures { IsTrue result ↔ CanBeBase records.now client.now set.now below row.now }
{
    row.level.rank() < below
        && is_same(&row.set, set)
        && is_same(&row.client, client)
        && is_usable(records, row)
}

fn is_same(one: &Name, other: &Name) -> bool
    ensures { IsTrue result ↔ (one.now ≡ other.now) }
{
    one == other
}

// Goes down the chain of bases.
fn is_usable(records: &[Record], row: &Record) -> bool
    requires records { AreRecords records.now }
    requires base { HasLowerBase row.now }
    ensures { IsTrue result ↔ Usable records.now row.now }
{
    let mut at = row;
    while is_ready(at) {
        if at.base.0 == 0 {
            return true;
        }
        match find_record_in(records, at.base) {
            Some(base) => at = base,
            None => return false,
        }
    }
    false
}

// The record is complete, not purged, and has a done copy.
fn is_ready(row: &Record) -> bool
    ensures { IsTrue result ↔ IsRestorable row.now }
{
    row.state == RecordState::Complete && !row.purged && has_done_copy(row)
}

fn has_done_copy(row: &Record) -> bool
    ensures { IsTrue result ↔ HasDoneCopy row.now }
{
    row.copies
        .as_slice()
        .iter()
        .any(|copy| copy.state == CopyState::Done)
}
