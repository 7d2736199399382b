//! The action of a schedule on a day.

ghost use Rattle.std.specs.Prelude.{◌≡◌, ◌↔◌, ◌≤◌, IsTrue, option_copied};
ghost use Rattle.std.specs.Ordering.{nat_cmp};
ghost use Rattle.room_base.specs.Ordered.{IsPlace};
ghost use Rattle.sched_levels.specs.Calendar.{last_day};
ghost use Rattle.sched_levels.specs.Actions.{OverridesAscend, DecidesEachDay, action_on, day_of};
ghost use Rattle.sched_levels.specs.Actions.{override_on};

use crate::calendar::place_of;
use room_rules::{Action, Override, Schedule};

/// The action of a schedule on a day, counted from 1970-01-01: that of the override of the day, or
/// else the one that stands in the list of actions at the day's place in its week or month. Takes
/// no memory.
pub fn level_on(schedule: &Schedule, day: u32) -> Action
    requires schedule { DecidesEachDay schedule.now }
    requires day { day ≤ last_day }
    ensures { result ≡ action_on schedule.now day }
{
    if let Some(found) = override_of(schedule.overrides.as_slice(), day) {
        return found.action;
    }
    let actions = schedule.actions.as_slice();
    actions[place_of(schedule.period, day) % actions.len()]
}

// The override of a day.
fn override_of(overrides: &[Override], day: u32) -> Option<&Override>
    requires { OverridesAscend overrides.now }
    ensures { option_copied result ≡ override_on overrides.now day }
{
    match override_place(overrides, day) {
        Ok(at) => Some(&overrides[at]),
        Err(_) => None,
    }
}

// Where the override of a day is, or where it would go.
fn override_place(overrides: &[Override], day: u32) -> Result<usize, usize>
    requires { OverridesAscend overrides.now }
    ensures { IsPlace nat_cmp day_of day overrides.now result }
{
    overrides.binary_search_by_key(&day, |one| one.day)
}

/// Whether a schedule has an action and its overrides ascend, as `level_on` needs.
pub fn decides_each_day(schedule: &Schedule) -> bool
    ensures { IsTrue result ↔ DecidesEachDay schedule.now }
{
    !schedule.actions.as_slice().is_empty() && overrides_ascend(schedule.overrides.as_slice())
}

/// Whether the days of the overrides ascend strictly.
pub fn overrides_ascend(overrides: &[Override]) -> bool
    ensures { IsTrue result ↔ OverridesAscend overrides.now }
{
    overrides.is_sorted_by(|one, other| one.day < other.day)
}
