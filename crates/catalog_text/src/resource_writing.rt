//! Writes resources.

ghost use Rattle.std.specs.Prelude.{◌≡◌, ◌<◌, ◌^◌, length};
ghost use Rattle.catalog_change.specs.Resources.{IsPolicy, IsPool, IsClient, IsSchedule, IsGroup};
ghost use Rattle.catalog_change.specs.Resources.{IsResource};
ghost use Rattle.catalog_change.specs.declared.resource.Resource.TheVariants as resources;
ghost use Rattle.catalog_spelling.specs.Resources.{resource_byte, resource_text, fields_text};
ghost use Rattle.catalog_spelling.specs.Resources.{unit_byte, period_byte, FitsResource};
ghost use Rattle.catalog_text.specs.Writing.{HasRoom, Appends};

use crate::list::{put_list_u8, put_list_u16};
use crate::names::{SetNames, ShortNames};
use crate::put::{put_text, put_u8, put_u32};
use crate::resource_items::{Actions, Levels, Members, Overrides};
use catalog_change::{Client, Resource, ResourceKind};
use room_rules::{Group, Period, Policy, Pool, Schedule, Unit};

/// Appends a resource, for which there is room.
pub fn put_resource(into: &mut Vec<u8>, resource: &Resource)
    requires allowed { IsResource resource.now }
    requires room { HasRoom into.old (resource_text resource.now) }
    ensures text { Appends into.old into.new (resource_text resource.now) }
    ensures fits { FitsResource resource.now }
{
    put_u8(into, resource_byte(resource.kind()));
    match resource {
        Resource::Policy(policy) => put_policy(into, policy),
        Resource::Pool(pool) => put_pool(into, pool),
        Resource::Client(client) => put_client(into, client),
        Resource::Schedule(schedule) => put_schedule(into, schedule),
        Resource::Group(group) => put_group(into, group),
    }
}

/// The byte that stands for a kind of resource.
pub fn resource_byte(kind: ResourceKind) -> u8
    ensures { result ≡ resource_byte kind }
{
    match kind {
        ResourceKind::Policy => b'P',
        ResourceKind::Pool => b'O',
        ResourceKind::Client => b'C',
        ResourceKind::Schedule => b'S',
        ResourceKind::Group => b'G',
    }
}

fn put_policy(into: &mut Vec<u8>, policy: &Policy)
    requires allowed { IsPolicy policy.now }
    requires room { HasRoom into.old (fields_text (resources.Policy policy.now)) }
    ensures { Appends into.old into.new (fields_text (resources.Policy policy.now)) }
{
    put_text(into, &policy.name);
    put_u32(into, policy.count);
    put_u8(into, unit_byte(policy.unit));
}

fn unit_byte(unit: Unit) -> u8
    ensures { result ≡ unit_byte unit }
{
    match unit {
        Unit::Days => 0,
        Unit::Weeks => 1,
        Unit::Months => 2,
        Unit::Years => 3,
    }
}

fn put_pool(into: &mut Vec<u8>, pool: &Pool)
    requires allowed { IsPool pool.now }
    requires room { HasRoom into.old (fields_text (resources.Pool pool.now)) }
    ensures text { Appends into.old into.new (fields_text (resources.Pool pool.now)) }
    ensures fits { FitsResource (resources.Pool pool.now) }
{
    put_text(into, &pool.name);
    put_list_u16::<ShortNames>(pool.groups.as_slice(), into);
    put_list_u16::<ShortNames>(pool.clients.as_slice(), into);
    put_list_u16::<SetNames>(pool.sets.as_slice(), into);
    put_list_u16::<Levels>(pool.levels.as_slice(), into);
}

fn put_client(into: &mut Vec<u8>, client: &Client)
    requires allowed { IsClient client.now }
    requires room { HasRoom into.old (fields_text (resources.Client client.now)) }
    ensures { Appends into.old into.new (fields_text (resources.Client client.now)) }
{
    put_text(into, &client.name);
    put_text(into, &client.browse);
    put_text(into, &client.retention);
}

fn put_schedule(into: &mut Vec<u8>, schedule: &Schedule)
    requires allowed { IsSchedule schedule.now }
    requires room { HasRoom into.old (fields_text (resources.Schedule schedule.now)) }
    ensures text { Appends into.old into.new (fields_text (resources.Schedule schedule.now)) }
    ensures fits { FitsResource (resources.Schedule schedule.now) }
{
    put_text(into, &schedule.name);
    put_u8(into, period_byte(schedule.period));
    put_list_u8::<Actions>(schedule.actions.as_slice(), into);
    put_list_u8::<Overrides>(schedule.overrides.as_slice(), into);
}

fn period_byte(period: Period) -> u8
    ensures { result ≡ period_byte period }
{
    match period {
        Period::Week => 0,
        Period::Month => 1,
    }
}

fn put_group(into: &mut Vec<u8>, group: &Group)
    requires allowed { IsGroup group.now }
    requires room { HasRoom into.old (fields_text (resources.Group group.now)) }
    ensures { Appends into.old into.new (fields_text (resources.Group group.now)) }
{
    put_text(into, &group.name);
    put_text(into, &group.schedule);
    put_list_u16::<Members>(group.members.as_slice(), into);
}
