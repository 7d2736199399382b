ghost use Rattle.std.specs.Prelude.{codes};
ghost use Rattle.toml.specs.View.{items_view, table_view, view};
ghost use Rattle.resource_text.specs.Reading.{Reads, ReadsAnyFault, ReadsField};
ghost use Rattle.resource_text.specs.Resources.{AreMembers, HasMembers, IsMemberTable, group_gives};

use crate::TextFault;
use crate::table::{MAX_NAME, MAX_SET_NAME, know_keys, malformed, name_at, value_at};
use catalog_change::Resource;
use room_base::{Items, Name};
use room_rules::{Group, Member};
use std::alloc::Global;
use toml::{Table, Value};

/// The most members of a group.
const MAX_MEMBERS: usize = 256;

/// Reads a group.
pub(crate) fn group_of(alloc: Global, name: Name, table: &Table) -> Result<Resource, TextFault>
    ensures { Reads (group_gives name (table_view table.now)) result }
{
    know_keys(alloc, table, &["schedule", "members"])?;
    let schedule = name_at(alloc, table, "schedule", MAX_NAME)?;
    let members = members_at(alloc, table)?;
    Ok(Resource::Group(Group {
        name,
        schedule,
        members,
    }))
}

fn members_at(alloc: Global, table: &Table) -> Result<Items<Member>, TextFault>
    ensures { ReadsField (codes "members") (HasMembers (table_view table.now)) result }
{
    match value_at(table, "members").and_then(Value::as_array) {
        Some(array) => members_of(alloc, array),
        None => Err(malformed(alloc, "members")),
    }
}

// The members in an array.
fn members_of(alloc: Global, array: &[Value]) -> Result<Items<Member>, TextFault>
    ensures { ReadsField (codes "members") (AreMembers (items_view array.now)) result }
{
    if MAX_MEMBERS < array.len() {
        return Err(malformed(alloc, "members"));
    }
    let mut members = Vec::with_capacity(alloc, array.len())?;
    for value in array {
        members.push(member_of(alloc, value)?)?;
    }
    Ok(Items::of(members))
}

// A member, of which every fault is called `members`.
fn member_of(alloc: Global, value: &Value) -> Result<Member, TextFault>
    ensures { ReadsField (codes "members") (IsMemberTable (view value.now)) result }
{
    match member_in(alloc, value) {
        Ok(member) => Ok(member),
        Err(TextFault::Memory) => Err(TextFault::Memory),
        Err(TextFault::Malformed { .. }) => Err(malformed(alloc, "members")),
    }
}

fn member_in(alloc: Global, value: &Value) -> Result<Member, TextFault>
    ensures { ReadsAnyFault (IsMemberTable (view value.now)) result }
{
    let Some(table) = value.as_table() else {
        return Err(malformed(alloc, "members"));
    };
    know_keys(alloc, table, &["client", "set"])?;
    let client = name_at(alloc, table, "client", MAX_NAME)?;
    let set = name_at(alloc, table, "set", MAX_SET_NAME)?;
    Ok(Member { client, set })
}
