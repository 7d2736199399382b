//! Amending the times of a save set, and whether it is held.

ghost use Rattle.std.specs.Prelude.{◌≡◌, ◌≤◌, IsTrue};
ghost use Rattle.room_base.specs.Numbers.{max_moment};
ghost use Rattle.room_catalog.specs.Invariant.{IsHeld};
ghost use Rattle.room_effects.specs.View.{IsBetweenCommands};
ghost use Rattle.room_effects.specs.Checked.{ComesTo};
ghost use Rattle.room_effects.specs.Plans.{Follows};
ghost use Rattle.room_records.specs.Amending.{amend_checks, amend_plan, amended_as, hold_or};
ghost use Rattle.room_records.specs.Amending.{in_order, is_moment, time_or};

use crate::entering::enter;
use catalog_change::Change;
use media_db::Record;
use room_base::{MAX_MOMENT, Moment, Refusal, Ssid};
use room_checks::{malformed, no_such};
use room_command::{Answer, Reply};
use room_disk::Store;
use room_state::RoomState;
use std::alloc::Global;

/// What a save set is to have: until when its files can be browsed, until when it is kept, and
/// whether it is held.
#[derive(Clone, Copy)]
pub(crate) struct Amendment {
    pub(crate) browse: Moment,
    pub(crate) retain: Moment,
    pub(crate) hold: bool,
}

/// Sets those of a save set's times that are given, and whether it is held.
pub fn amend<D: Store>(
    room: &mut RoomState,
    store: &mut D,
    m: Moment,
    ssid: Ssid,
    browse: Option<u64>,
    retain: Option<u64>,
    hold: Option<bool>,
) -> Reply
    requires opens { IsTrue room.old.room.is_open }
    requires moment { m.0 ≤ max_moment }
    requires between { IsBetweenCommands room.old.room }
    ensures follows { Follows (amend_plan m ssid browse retain hold room.old.room) result
        room.old.room room.new.room (D.view store.old) (D.view store.new) }
    ensures between { IsBetweenCommands room.new.room }
{
    match amend_checks(room, ssid, browse, retain, hold) {
        Ok(amended) => {
            let change = Change::Amended {
                ssid,
                browse: amended.browse,
                retain: amended.retain,
                hold: amended.hold,
            };
            enter(room, store, m, change, Answer::Empty)
        }
        Err(refusal) => Reply::Refused(refusal),
    }
}

fn amend_checks(
    room: &RoomState,
    ssid: Ssid,
    browse: Option<u64>,
    retain: Option<u64>,
    hold: Option<bool>,
) -> Result<Amendment, Refusal>
    ensures checks { ComesTo (amend_checks ssid browse retain hold room.now.room) result }
    ensures held { IsHeld room.now.room.catalogue }
{
    let alloc = room.allocator();
    let catalogue = room.catalogue();
    // A catalogue knows that it is allowed.
    let _number = catalogue.number();
    if !is_moment(browse) {
        return Err(malformed(alloc, "browse"));
    }
    if !is_moment(retain) {
        return Err(malformed(alloc, "retain"));
    }
    match catalogue.db().record(ssid) {
        Some(row) => in_order(alloc, amended_as(row, browse, retain, hold)),
        None => Err(no_such(alloc, "set", ssid.0)),
    }
}

// Whether it isn't above the greatest moment, if it is given.
fn is_moment(time: Option<u64>) -> bool
    ensures { result ≡ is_moment time }
{
    match time {
        Some(time) => time <= MAX_MOMENT.0,
        None => true,
    }
}

// What is given, and else what the set has.
fn amended_as(
    row: &Record,
    browse: Option<u64>,
    retain: Option<u64>,
    hold: Option<bool>,
) -> Amendment
    ensures { result ≡ amended_as browse retain hold row.now }
{
    Amendment {
        browse: time_or(browse, row.browse),
        retain: time_or(retain, row.retain),
        hold: hold_or(hold, row.hold),
    }
}

fn time_or(time: Option<u64>, was: Moment) -> Moment
    ensures { result ≡ time_or time was }
{
    match time {
        Some(time) => Moment(time),
        None => was,
    }
}

fn hold_or(hold: Option<bool>, was: bool) -> bool
    ensures { result ≡ hold_or hold was }
{
    match hold {
        Some(hold) => hold,
        None => was,
    }
}

// A set isn't kept for a shorter time than its files can be browsed.
fn in_order(alloc: Global, amended: Amendment) -> Result<Amendment, Refusal>
    ensures { ComesTo (in_order amended) result }
{
    if amended.browse.0 <= amended.retain.0 {
        return Ok(amended);
    }
    Err(malformed(alloc, "retain"))
}
