//! The level that is wanted of a save.

ghost use Rattle.std.specs.Prelude.{◌≡◌, ◌≢◌, ◌≤◌, None, true};
ghost use Rattle.room_base.specs.Numbers.{max_moment};
ghost use Rattle.sched_levels.specs.Calendar.{last_day};
ghost use Rattle.sched_levels.specs.Plans.{skip};
ghost use Rattle.save_begin.specs.Asking.{action_by, day_of, group_given, group_of, is_level};
ghost use Rattle.save_begin.specs.Asking.{level_check, wanted_level};

use crate::asked::Asked;
use crate::grouping::scheduled_group;
use room_base::{Moment, Name, Refusal};
use room_rules::Action;
use room_state::RoomState;
use save_stream::Level;
use sched_levels::level_on;

/// The seconds of a day.
const DAY: u64 = 86_400;

/// The action that skips a day.
const SKIP: u8 = 11;

/// The level that is wanted: the one that is given, or else that of the group's schedule.
pub(crate) fn level_check(room: &RoomState, m: Moment, asked: &Asked) -> Result<Level, Refusal>
    requires moment { m.0 ≤ max_moment }
    requires level { is_level asked.now.level asked.now.group ≡ true }
    ensures { result ≡ level_check m asked.now room.now.room }
{
    match asked.level {
        Some(action) => Ok(level_of(action)),
        None => scheduled_level(action_by(room, m, &asked.group), day_of(m)),
    }
}

// The level of an action that saves.
fn level_of(action: Action) -> Level
    requires { action ≢ skip }
    ensures { result ≡ action }
{
    Level::of(action.byte()).unwrap()
}

// The level of a schedule's action, unless it skips the day.
fn scheduled_level(action: Action, day: u32) -> Result<Level, Refusal>
    ensures { result ≡ wanted_level None action day }
{
    match Level::of(action.byte()) {
        Some(level) => Ok(level),
        None => Err(Refusal::Skipped { day }),
    }
}

// The action of a group on the day of m.
fn action_by(room: &RoomState, m: Moment, group: &Option<Name>) -> Action
    requires { m.0 ≤ max_moment }
    ensures { result ≡ action_by (group_given group.now room.now.room) m room.now.room }
{
    match group {
        Some(name) => action_of(room, m, name),
        None => skip(),
    }
}

fn action_of(room: &RoomState, m: Moment, name: &Name) -> Action
    requires { m.0 ≤ max_moment }
    ensures { result ≡ action_by (group_of name.now room.now.room) m room.now.room }
{
    match scheduled_group(room, name) {
        Some((_, schedule)) => level_on(schedule, day_of(m)),
        None => skip(),
    }
}

fn skip() -> Action
    ensures { result ≡ skip }
{
    Action::of(SKIP).unwrap()
}

/// The day of a moment, counted from 1970-01-01.
pub(crate) fn day_of(m: Moment) -> u32
    requires { m.0 ≤ max_moment }
    ensures day { result ≡ day_of m }
    ensures last { result ≤ last_day }
{
    (m.0 / DAY) as u32
}
