ghost use Rattle.std.specs.Prelude.{codes};
ghost use Rattle.toml.specs.View.{table_view};
ghost use Rattle.resource_text.specs.Reading.{Reads, ReadsField};
ghost use Rattle.resource_text.specs.Resources.{HasCount, HasUnit, policy_gives};

use crate::TextFault;
use crate::table::{know_keys, malformed, text_at, value_at};
use crate::words::unit_of;
use catalog_change::Resource;
use room_base::Name;
use room_rules::{Policy, Unit};
use std::alloc::Global;
use toml::{Table, Value};

/// The greatest count of a policy.
const MAX_COUNT: i64 = 9_999;

/// Reads a policy.
pub(crate) fn policy_of(alloc: Global, name: Name, table: &Table) -> Result<Resource, TextFault>
    ensures { Reads (policy_gives name (table_view table.now)) result }
{
    know_keys(alloc, table, &["count", "period"])?;
    let count = count_at(alloc, table)?;
    let unit = unit_at(alloc, table)?;
    Ok(Resource::Policy(Policy { name, count, unit }))
}

fn count_at(alloc: Global, table: &Table) -> Result<u32, TextFault>
    ensures { ReadsField (codes "count") (HasCount (table_view table.now)) result }
{
    match value_at(table, "count").and_then(Value::as_integer) {
        Some(count) if 1 <= count && count <= MAX_COUNT => Ok(count as u32),
        _ => Err(malformed(alloc, "count")),
    }
}

fn unit_at(alloc: Global, table: &Table) -> Result<Unit, TextFault>
    ensures { ReadsField (codes "period") (HasUnit (table_view table.now)) result }
{
    match text_at(table, "period").and_then(unit_of) {
        Some(unit) => Ok(unit),
        None => Err(malformed(alloc, "period")),
    }
}
