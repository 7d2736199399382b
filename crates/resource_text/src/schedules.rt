ghost use Rattle.std.specs.Prelude.{MatchOption, codes};
ghost use Rattle.room_rules.specs.declared.schedule.Override.{Override as OneOverride};
ghost use Rattle.toml.specs.View.{items_view, table_view, view};
ghost use Rattle.resource_text.specs.Reading.{Reads, ReadsField};
ghost use Rattle.resource_text.specs.Resources.{AreActions, AreOverrides, HasActions, HasOverrides};
ghost use Rattle.resource_text.specs.Resources.{HasPeriod, IsOverrideText, schedule_gives};

use crate::TextFault;
use crate::days::day_of;
use crate::lists::words_of;
use crate::table::{know_keys, malformed, text_at, value_at};
use crate::words::{Word, period_of};
use catalog_change::Resource;
use room_base::{Items, Name};
use room_rules::{Action, Override, Period, Schedule};
use std::alloc::Global;
use toml::{Table, Value};

/// The most actions of a schedule, and the most overrides.
const MAX_ACTIONS: usize = 31;

const MAX_OVERRIDES: usize = 64;

/// Reads a schedule.
pub(crate) fn schedule_of(alloc: Global, name: Name, table: &Table) -> Result<Resource, TextFault>
    ensures { Reads (schedule_gives name (table_view table.now)) result }
{
    know_keys(alloc, table, &["period", "actions", "overrides"])?;
    let period = period_at(alloc, table)?;
    let actions = actions_at(alloc, table)?;
    let overrides = overrides_at(alloc, table)?;
    Ok(Resource::Schedule(Schedule {
        name,
        period,
        actions,
        overrides,
    }))
}

fn period_at(alloc: Global, table: &Table) -> Result<Period, TextFault>
    ensures { ReadsField (codes "period") (HasPeriod (table_view table.now)) result }
{
    match text_at(table, "period").and_then(period_of) {
        Some(period) => Ok(period),
        None => Err(malformed(alloc, "period")),
    }
}

fn actions_at(alloc: Global, table: &Table) -> Result<Items<Action>, TextFault>
    ensures { ReadsField (codes "actions") (HasActions (table_view table.now)) result }
{
    match value_at(table, "actions").and_then(Value::as_array) {
        Some(array) => actions_of(alloc, array),
        None => Err(malformed(alloc, "actions")),
    }
}

// The actions in an array, of which there has to be one.
fn actions_of(alloc: Global, array: &[Value]) -> Result<Items<Action>, TextFault>
    ensures { ReadsField (codes "actions") (AreActions (items_view array.now)) result }
{
    if array.is_empty() {
        return Err(malformed(alloc, "actions"));
    }
    words_of(alloc, "actions", array, MAX_ACTIONS)
}

fn overrides_at(alloc: Global, table: &Table) -> Result<Items<Override>, TextFault>
    ensures { ReadsField (codes "overrides") (HasOverrides (table_view table.now)) result }
{
    match value_at(table, "overrides") {
        Some(value) => match value.as_table() {
            Some(days) => overrides_of(alloc, days),
            None => Err(malformed(alloc, "overrides")),
        },
        None => Ok(Items::of(Vec::new(alloc))),
    }
}

// The overrides in a table from days to actions.
fn overrides_of(alloc: Global, days: &Table) -> Result<Items<Override>, TextFault>
    ensures { ReadsField (codes "overrides") (AreOverrides (table_view days.now)) result }
{
    if MAX_OVERRIDES < days.len() {
        return Err(malformed(alloc, "overrides"));
    }
    let mut overrides = Vec::with_capacity(alloc, days.len())?;
    'days: for (day, action) in days.iter() {
        match override_of(day.as_str(), action) {
            Some(one) => overrides.push(one)?,
            None => return Err(malformed(alloc, "overrides")),
        }
    }
    Ok(Items::of(overrides))
}

fn override_of(day: &str, action: &Value) -> Option<Override>
    ensures { MatchOption result
        ((one : OneOverride) → ¬ (IsOverrideText day.now (view action.now) one))
        (λ one. IsOverrideText day.now (view action.now) one) }
{
    let word = action.as_str()?;
    let day = day_of(day)?;
    let action = Action::of_text(word)?;
    Some(Override { day, action })
}
