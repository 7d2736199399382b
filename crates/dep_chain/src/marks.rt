//! A mark for each record, which says that its set can't be purged.

ghost use Rattle.std.specs.Prelude.{◌≡◌, ◌↔◌, ◌⊎◌, IfOk, IsTrue, length};
ghost use Rattle.std.specs.Ordering.{nat_cmp};
ghost use Rattle.room_base.specs.Ordered.{IsPlace};
ghost use Rattle.media_db.specs.Rows.{AreRecords, ssid_of};
ghost use Rattle.dep_chain.specs.Need.{AreSessions};
ghost use Rattle.dep_chain.specs.Marks.{AreMarks, AreOwnMarks, MarksBase, Stays};

use crate::OpenSet;
use crate::states::{is_open, stays_browsed};
use media_db::Record;
use room_base::{Memory, Moment, Ssid};
use std::alloc::Global;

// Bases are lower: so from the greatest ssid down, each mark is settled when the walk comes to it,
// and then passes to the base.
pub(crate) fn marks_of(
    alloc: Global,
    records: &[Record],
    sessions: &[OpenSet],
    moment: Moment,
) -> Result<Vec<bool>, Memory>
    requires order { AreRecords records.now }
    requires sessions { AreSessions records.now sessions.now }
    ensures each { IfOk result (λ marks. length marks.items ≡ length records.now) }
    ensures marks { IfOk result (λ marks.
        AreMarks records.now sessions.now moment.0 marks.items) }
{
    let mut marks = own_marks(alloc, records, sessions, moment)?;
    let mut at = records.len();
    while at > 0 {
        at -= 1;
        if marks[at] {
            mark_base(records, &mut marks, records[at].base);
        }
    }
    Ok(marks)
}

// A mark for each set that can't be purged, whatever depends on it.
fn own_marks(
    alloc: Global,
    records: &[Record],
    sessions: &[OpenSet],
    moment: Moment,
) -> Result<Vec<bool>, Memory>
    ensures each { IfOk result (λ marks. length marks.items ≡ length records.now) }
    ensures marks { IfOk result (λ marks.
        AreOwnMarks records.now sessions.now moment.0 (length records.now) marks.items) }
{
    let mut marks = Vec::with_capacity(alloc, records.len())?;
    for row in records {
        marks.push(stays(sessions, row, moment))?;
    }
    Ok(marks)
}

// The set of a record has an open session, or is complete and held or still browsed.
fn stays(sessions: &[OpenSet], row: &Record, moment: Moment) -> bool
    ensures { IsTrue result ↔ Stays sessions.now moment.0 row.now }
{
    stays_browsed(row, moment) || is_open(sessions, row.ssid)
}

fn mark_base(records: &[Record], marks: &mut Vec<bool>, base: Ssid)
    requires order { AreRecords records.now }
    requires each { length marks.old.items ≡ length records.now }
    ensures each { length marks.new.items ≡ length records.now }
    ensures marks { MarksBase records.now base.0 marks.old.items marks.new.items }
{
    if let Ok(place) = place_of(records, base) {
        marks[place] = true;
    }
}

fn place_of(records: &[Record], ssid: Ssid) -> Result<usize, usize>
    requires { AreRecords records.now }
    ensures { IsPlace nat_cmp ssid_of ssid.0 records.now result }
{
    records.binary_search_by_key(&ssid.0, |row| row.ssid.0)
}
