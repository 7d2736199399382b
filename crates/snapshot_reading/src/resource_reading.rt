//! Reads the fields of each kind of resource, which are judged beside the resources before it.

ghost use Rattle.std.specs.Prelude.{◌≡◌, [], true, IfOk};
ghost use Rattle.std.specs.Ordering.{nat_cmp};
ghost use Rattle.std.specs.Cmp.Lexicographic.{slice_cmp};
ghost use Rattle.room_base.specs.Ordered.{Ascends};
ghost use Rattle.catalog_change.specs.Resources.{client_name, group_name, policy_name, pool_name};
ghost use Rattle.catalog_change.specs.Resources.{schedule_name};
ghost use Rattle.catalog_spelling.specs.Reading.{Gives};
ghost use Rattle.catalog_spelling.specs.Fields.{coded, code_at};
ghost use Rattle.catalog_spelling.specs.Lists.{items_at};
ghost use Rattle.catalog_spelling.specs.Resources.{unit_kinds, period_kinds};
ghost use Rattle.catalog_spelling.specs.SnapshotOrder.{AreInOrder};
ghost use Rattle.catalog_spelling.specs.Names.{is_next_name};
ghost use Rattle.catalog_spelling.specs.SnapshotResources.{policy_at, pool_at, client_at, schedule_at};
ghost use Rattle.catalog_spelling.specs.SnapshotResources.{group_at, member_at, members_at};

use crate::names::{read_known_name, read_next_name};
use catalog_change::Client;
use catalog_spelling::ResourceLists;
use catalog_text::{
    Actions, FieldFault, Levels, Overrides, SetNames, ShortNames, known, read_list_u8,
    read_list_u16, read_name, read_u8, read_u16_within, read_u32_within,
};
use room_base::Items;
use room_rules::{Group, Member, Period, Policy, Pool, Schedule, Unit};
use std::alloc::Global;

// The most criteria of one kind, actions, overrides and members.
const MAX_CRITERIA: u16 = 64;

const MAX_ACTIONS: u8 = 31;

const MAX_OVERRIDES: u8 = 64;

const MAX_MEMBERS: u16 = 256;

// The most periods that a policy keeps something.
const MAX_COUNT: u32 = 9_999;

/// A policy behind these.
#[tactic(auto, unfolding(catalog_spelling::specs::SnapshotResources::policy_at, catalog_spelling::specs::Fields::code_at))]
pub(crate) fn read_policy<'a>(
    alloc: Global,
    before: &[Policy],
    bytes: &'a [u8],
) -> Result<(Policy, &'a [u8]), FieldFault>
    ensures read { Gives (λ x. (x.0, x.1.now)) result (policy_at before.now bytes.now) }
    ensures next { IfOk result (λ x. is_next_name policy_name before.now x.0.name ≡ true) }
{
    let (name, rest) = read_next_name(alloc, before, bytes)?;
    let (count, rest) = read_u32_within(1, MAX_COUNT, rest)?;
    let (byte, after) = read_u8(rest)?;
    let unit = known(unit_of(byte), rest)?;
    Ok((Policy { name, count, unit }, after))
}

fn unit_of(byte: u8) -> Option<Unit>
    ensures { result ≡ coded unit_kinds byte }
{
    match byte {
        0 => Some(Unit::Days),
        1 => Some(Unit::Weeks),
        2 => Some(Unit::Months),
        3 => Some(Unit::Years),
        _ => None,
    }
}

/// A pool behind these.
#[tactic(auto, unfolding(catalog_spelling::specs::SnapshotResources::pool_at))]
pub(crate) fn read_pool<'a>(
    alloc: Global,
    before: &[Pool],
    bytes: &'a [u8],
) -> Result<(Pool, &'a [u8]), FieldFault>
    ensures read { Gives (λ x. (x.0, x.1.now)) result (pool_at before.now bytes.now) }
    ensures next { IfOk result (λ x. is_next_name pool_name before.now x.0.name ≡ true) }
{
    let (name, rest) = read_next_name(alloc, before, bytes)?;
    let (groups, rest) = read_list_u16::<ShortNames>(alloc, 0, MAX_CRITERIA, rest)?;
    let (clients, rest) = read_list_u16::<ShortNames>(alloc, 0, MAX_CRITERIA, rest)?;
    let (sets, rest) = read_list_u16::<SetNames>(alloc, 0, MAX_CRITERIA, rest)?;
    let (levels, rest) = read_list_u16::<Levels>(alloc, 0, MAX_CRITERIA, rest)?;
    let pool = Pool {
        name,
        groups,
        clients,
        sets,
        levels,
    };
    Ok((pool, rest))
}

/// A client behind these, whose policies are there.
#[tactic(auto, unfolding(catalog_spelling::specs::SnapshotResources::client_at))]
pub(crate) fn read_client<'a>(
    alloc: Global,
    policies: &[Policy],
    before: &[Client],
    bytes: &'a [u8],
) -> Result<(Client, &'a [u8]), FieldFault>
    requires { Ascends (slice_cmp nat_cmp) policy_name policies.now }
    ensures read { Gives (λ x. (x.0, x.1.now)) result
        (client_at policies.now before.now bytes.now) }
    ensures next { IfOk result (λ x. is_next_name client_name before.now x.0.name ≡ true) }
{
    let (name, rest) = read_next_name(alloc, before, bytes)?;
    let (browse, rest) = read_known_name(alloc, policies, rest)?;
    let (retention, rest) = read_known_name(alloc, policies, rest)?;
    let client = Client {
        name,
        browse,
        retention,
    };
    Ok((client, rest))
}

/// A schedule behind these.
#[tactic(auto, unfolding(catalog_spelling::specs::SnapshotResources::schedule_at, catalog_spelling::specs::Fields::code_at))]
pub(crate) fn read_schedule<'a>(
    alloc: Global,
    before: &[Schedule],
    bytes: &'a [u8],
) -> Result<(Schedule, &'a [u8]), FieldFault>
    ensures read { Gives (λ x. (x.0, x.1.now)) result (schedule_at before.now bytes.now) }
    ensures next { IfOk result (λ x. is_next_name schedule_name before.now x.0.name ≡ true) }
{
    let (name, rest) = read_next_name(alloc, before, bytes)?;
    let (byte, after) = read_u8(rest)?;
    let period = known(period_of(byte), rest)?;
    let (actions, rest) = read_list_u8::<Actions>(alloc, 1, MAX_ACTIONS, after)?;
    let (overrides, rest) = read_list_u8::<Overrides>(alloc, 0, MAX_OVERRIDES, rest)?;
    let schedule = Schedule {
        name,
        period,
        actions,
        overrides,
    };
    Ok((schedule, rest))
}

fn period_of(byte: u8) -> Option<Period>
    ensures { result ≡ coded period_kinds byte }
{
    match byte {
        0 => Some(Period::Week),
        1 => Some(Period::Month),
        _ => None,
    }
}

/// A group behind the others, whose schedule and whose members' clients are there.
#[tactic(auto, unfolding(catalog_spelling::specs::SnapshotResources::group_at))]
pub(crate) fn read_group<'a>(
    alloc: Global,
    lists: &ResourceLists,
    bytes: &'a [u8],
) -> Result<(Group, &'a [u8]), FieldFault>
    requires { AreInOrder lists.now }
    ensures read { Gives (λ x. (x.0, x.1.now)) result
        (group_at lists.now.schedules lists.now.clients lists.now.groups bytes.now) }
    ensures next { IfOk result
        (λ x. is_next_name group_name lists.now.groups x.0.name ≡ true) }
{
    let (name, rest) = read_next_name(alloc, lists.groups.as_slice(), bytes)?;
    let (schedule, rest) = read_known_name(alloc, lists.schedules.as_slice(), rest)?;
    let (members, rest) = read_members(alloc, lists.clients.as_slice(), rest)?;
    let group = Group {
        name,
        schedule,
        members,
    };
    Ok((group, rest))
}

#[tactic(auto, unfolding(catalog_spelling::specs::Lists::list_at))]
fn read_members<'a>(
    alloc: Global,
    clients: &[Client],
    bytes: &'a [u8],
) -> Result<(Items<Member>, &'a [u8]), FieldFault>
    requires { Ascends (slice_cmp nat_cmp) client_name clients.now }
    ensures { Gives (λ x. (x.0, x.1.now)) result (members_at clients.now bytes.now) }
{
    let (count, rest) = read_u16_within(0, MAX_MEMBERS, bytes)?;
    read_each_member(alloc, clients, usize::from(count), rest)
}

// So many members.
fn read_each_member<'a>(
    alloc: Global,
    clients: &[Client],
    count: usize,
    bytes: &'a [u8],
) -> Result<(Items<Member>, &'a [u8]), FieldFault>
    requires { Ascends (slice_cmp nat_cmp) client_name clients.now }
    ensures { Gives (λ x. (x.0, x.1.now)) result
        (items_at (λ before. member_at clients.now) count [] bytes.now) }
{
    let mut items = Vec::with_capacity(alloc, count.min(bytes.len() / MEMBER_SIZE))?;
    let mut rest = bytes;
    for _ in 0..count {
        let (item, after) = read_member(alloc, clients, rest)?;
        items.push(item)?;
        rest = after;
    }
    Ok((Items::of(items), rest))
}

// The least bytes of a member.
const MEMBER_SIZE: usize = 4;

#[tactic(auto, unfolding(catalog_spelling::specs::SnapshotResources::member_at))]
fn read_member<'a>(
    alloc: Global,
    clients: &[Client],
    bytes: &'a [u8],
) -> Result<(Member, &'a [u8]), FieldFault>
    requires { Ascends (slice_cmp nat_cmp) client_name clients.now }
    ensures { Gives (λ x. (x.0, x.1.now)) result (member_at clients.now bytes.now) }
{
    let (client, rest) = read_known_name(alloc, clients, bytes)?;
    let (set, rest) = read_name(alloc, 255, rest)?;
    Ok((Member { client, set }, rest))
}
