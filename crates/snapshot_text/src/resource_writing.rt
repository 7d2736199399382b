//! Writes resources, each kind by itself.

ghost use Rattle.std.specs.Prelude.{◌≡◌, ◌≤◌, List, ℕ, length};
ghost use Rattle.std.specs.Io.Iter.{u64_saturate};
ghost use Rattle.catalog_change.specs.Resources.{IsPolicy, IsPool, IsClient, IsSchedule, IsGroup};
ghost use Rattle.catalog_change.specs.declared.resource.Resource.TheVariants as resources;
ghost use Rattle.catalog_spelling.specs.Resources.{fields_text, resource_text, unit_byte, period_byte};
ghost use Rattle.catalog_text.specs.Writing.{HasRoom, Appends};
ghost use Rattle.catalog_spelling.specs.Fits.{FitsPool, FitsSchedule};

use crate::put_item::PutItem;
use catalog_change::{Client, ResourceKind};
use catalog_text::{
    Actions, Levels, Members, Overrides, SetNames, ShortNames, items_length, put_list_u8,
    put_list_u16, put_text, put_u8, put_u32, resource_byte,
};
use room_base::Name;
use room_rules::{Group, Period, Policy, Pool, Schedule, Unit};

pub(crate) struct Policies;

impl PutItem for Policies {
    type Item = Policy;

    ghost text = { λ self policy. resource_text (resources.Policy policy) };

    ghost Is = { λ self. IsPolicy };

    fn put(&self, policy: &Policy, into: &mut Vec<u8>) {
        put_policy(into, policy)
    }

    fn length(&self, policy: &Policy) -> u64 {
        policy_length(policy)
    }
}

fn put_policy(into: &mut Vec<u8>, policy: &Policy)
    requires allowed { IsPolicy policy.now }
    requires room { HasRoom into.old (resource_text (resources.Policy policy.now)) }
    ensures { Appends into.old into.new (resource_text (resources.Policy policy.now)) }
{
    put_u8(into, resource_byte(ResourceKind::Policy));
    put_policy_fields(into, policy);
}

fn put_policy_fields(into: &mut Vec<u8>, policy: &Policy)
    requires allowed { IsPolicy policy.now }
    requires room { HasRoom into.old (fields_text (resources.Policy policy.now)) }
    ensures { Appends into.old into.new (fields_text (resources.Policy policy.now)) }
{
    put_text(into, &policy.name);
    put_u32(into, policy.count);
    put_u8(into, unit_byte(policy.unit));
}

fn unit_byte(unit: Unit) -> u8
    ensures { result ≡ unit_byte unit }
{
    match unit {
        Unit::Days => 0,
        Unit::Weeks => 1,
        Unit::Months => 2,
        Unit::Years => 3,
    }
}

pub(crate) struct Pools;

impl PutItem for Pools {
    type Item = Pool;

    ghost text = { λ self pool. resource_text (resources.Pool pool) };

    ghost Is = { λ self. IsPool };

    ghost Fits = { λ self. FitsPool };

    fn put(&self, pool: &Pool, into: &mut Vec<u8>) {
        put_pool(into, pool)
    }

    fn length(&self, pool: &Pool) -> u64 {
        pool_length(pool)
    }
}

fn put_pool(into: &mut Vec<u8>, pool: &Pool)
    requires allowed { IsPool pool.now }
    requires room { HasRoom into.old (resource_text (resources.Pool pool.now)) }
    ensures text { Appends into.old into.new (resource_text (resources.Pool pool.now)) }
    ensures fits { FitsPool pool.now }
{
    put_u8(into, resource_byte(ResourceKind::Pool));
    put_pool_fields(into, pool);
}

fn put_pool_fields(into: &mut Vec<u8>, pool: &Pool)
    requires allowed { IsPool pool.now }
    requires room { HasRoom into.old (fields_text (resources.Pool pool.now)) }
    ensures text { Appends into.old into.new (fields_text (resources.Pool pool.now)) }
    ensures fits { FitsPool pool.now }
{
    put_text(into, &pool.name);
    put_list_u16::<ShortNames>(pool.groups.as_slice(), into);
    put_list_u16::<ShortNames>(pool.clients.as_slice(), into);
    put_list_u16::<SetNames>(pool.sets.as_slice(), into);
    put_list_u16::<Levels>(pool.levels.as_slice(), into);
}

pub(crate) struct Clients;

impl PutItem for Clients {
    type Item = Client;

    ghost text = { λ self client. resource_text (resources.Client client) };

    ghost Is = { λ self. IsClient };

    fn put(&self, client: &Client, into: &mut Vec<u8>) {
        put_client(into, client)
    }

    fn length(&self, client: &Client) -> u64 {
        client_length(client)
    }
}

fn put_client(into: &mut Vec<u8>, client: &Client)
    requires allowed { IsClient client.now }
    requires room { HasRoom into.old (resource_text (resources.Client client.now)) }
    ensures { Appends into.old into.new (resource_text (resources.Client client.now)) }
{
    put_u8(into, resource_byte(ResourceKind::Client));
    put_client_fields(into, client);
}

fn put_client_fields(into: &mut Vec<u8>, client: &Client)
    requires allowed { IsClient client.now }
    requires room { HasRoom into.old (fields_text (resources.Client client.now)) }
    ensures { Appends into.old into.new (fields_text (resources.Client client.now)) }
{
    put_text(into, &client.name);
    put_text(into, &client.browse);
    put_text(into, &client.retention);
}

pub(crate) struct Schedules;

impl PutItem for Schedules {
    type Item = Schedule;

    ghost text = { λ self schedule. resource_text (resources.Schedule schedule) };

    ghost Is = { λ self. IsSchedule };

    ghost Fits = { λ self. FitsSchedule };

    fn put(&self, schedule: &Schedule, into: &mut Vec<u8>) {
        put_schedule(into, schedule)
    }

    fn length(&self, schedule: &Schedule) -> u64 {
        schedule_length(schedule)
    }
}

fn put_schedule(into: &mut Vec<u8>, schedule: &Schedule)
    requires allowed { IsSchedule schedule.now }
    requires room { HasRoom into.old (resource_text (resources.Schedule schedule.now)) }
    ensures text { Appends into.old into.new (resource_text (resources.Schedule schedule.now)) }
    ensures fits { FitsSchedule schedule.now }
{
    put_u8(into, resource_byte(ResourceKind::Schedule));
    put_schedule_fields(into, schedule);
}

fn put_schedule_fields(into: &mut Vec<u8>, schedule: &Schedule)
    requires allowed { IsSchedule schedule.now }
    requires room { HasRoom into.old (fields_text (resources.Schedule schedule.now)) }
    ensures text { Appends into.old into.new (fields_text (resources.Schedule schedule.now)) }
    ensures fits { FitsSchedule schedule.now }
{
    put_text(into, &schedule.name);
    put_u8(into, period_byte(schedule.period));
    put_list_u8::<Actions>(schedule.actions.as_slice(), into);
    put_list_u8::<Overrides>(schedule.overrides.as_slice(), into);
}

fn period_byte(period: Period) -> u8
    ensures { result ≡ period_byte period }
{
    match period {
        Period::Week => 0,
        Period::Month => 1,
    }
}

pub(crate) struct Groups;

impl PutItem for Groups {
    type Item = Group;

    ghost text = { λ self group. resource_text (resources.Group group) };

    ghost Is = { λ self. IsGroup };

    fn put(&self, group: &Group, into: &mut Vec<u8>) {
        put_group(into, group)
    }

    fn length(&self, group: &Group) -> u64 {
        group_length(group)
    }
}

fn put_group(into: &mut Vec<u8>, group: &Group)
    requires allowed { IsGroup group.now }
    requires room { HasRoom into.old (resource_text (resources.Group group.now)) }
    ensures { Appends into.old into.new (resource_text (resources.Group group.now)) }
{
    put_u8(into, resource_byte(ResourceKind::Group));
    put_group_fields(into, group);
}

fn put_group_fields(into: &mut Vec<u8>, group: &Group)
    requires allowed { IsGroup group.now }
    requires room { HasRoom into.old (fields_text (resources.Group group.now)) }
    ensures { Appends into.old into.new (fields_text (resources.Group group.now)) }
{
    put_text(into, &group.name);
    put_text(into, &group.schedule);
    put_list_u16::<Members>(group.members.as_slice(), into);
}

#[tactic(auto, using(crate::proofs::Sizes::size_policy))]
fn policy_length(policy: &Policy) -> u64
    requires { IsPolicy policy.now }
    ensures { result ≡ u64_saturate (length (resource_text (resources.Policy policy.now))) }
{
    7 + name_length(&policy.name)
}

#[tactic(auto, using(crate::proofs::Sizes::size_pool))]
fn pool_length(pool: &Pool) -> u64
    requires { IsPool pool.now }
    ensures { result ≡ u64_saturate (length (resource_text (resources.Pool pool.now))) }
{
    let groups = items_length::<ShortNames>(pool.groups.as_slice());
    let clients = items_length::<ShortNames>(pool.clients.as_slice());
    let sets = items_length::<SetNames>(pool.sets.as_slice());
    let levels = pool.levels.as_slice().len() as u64;
    10 + name_length(&pool.name) + groups + clients + sets + levels
}

#[tactic(auto, using(crate::proofs::Sizes::size_client))]
fn client_length(client: &Client) -> u64
    requires { IsClient client.now }
    ensures { result ≡ u64_saturate (length (resource_text (resources.Client client.now))) }
{
    4 + name_length(&client.name) + name_length(&client.browse) + name_length(&client.retention)
}

#[tactic(auto, using(crate::proofs::Sizes::size_schedule))]
fn schedule_length(schedule: &Schedule) -> u64
    requires { IsSchedule schedule.now }
    ensures { result ≡ u64_saturate (length (resource_text (resources.Schedule schedule.now))) }
{
    let actions = schedule.actions.as_slice().len() as u64;
    let overrides = schedule.overrides.as_slice().len() as u64;
    5 + name_length(&schedule.name) + actions + 5 * overrides
}

#[tactic(auto, using(crate::proofs::Sizes::size_group))]
fn group_length(group: &Group) -> u64
    requires { IsGroup group.now }
    ensures { result ≡ u64_saturate (length (resource_text (resources.Group group.now))) }
{
    let members = items_length::<Members>(group.members.as_slice());
    5 + name_length(&group.name) + name_length(&group.schedule) + members
}

fn name_length(name: &Name) -> u64
    requires { length name.now ≤ 64 }
    ensures { result ≡ length name.now }
{
    name.as_bytes().len() as u64
}
