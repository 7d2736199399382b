//! Reads resources.

ghost use Rattle.std.specs.Prelude.{◌≡◌};
ghost use Rattle.catalog_spelling.specs.Reading.{Gives};
ghost use Rattle.catalog_spelling.specs.Fields.{coded, code_at};
ghost use Rattle.catalog_spelling.specs.Resources.{unit_kinds, period_kinds, policy_at, pool_at};
ghost use Rattle.catalog_spelling.specs.Resources.{client_at, schedule_at, group_at, resource_at};
ghost use Rattle.catalog_spelling.specs.Resources.{resource_kinds};

use crate::FieldFault;
use crate::field::{known, read_u8, read_u32_within};
use crate::list::{read_list_u8, read_list_u16};
use crate::names::{SetNames, ShortNames};
use crate::resource_items::{Actions, Levels, Members, Overrides};
use crate::text::read_name;
use catalog_change::{Client, Resource, ResourceKind};
use room_rules::{Group, Period, Policy, Pool, Schedule, Unit};
use std::alloc::Global;

// The most criteria of one kind, actions, overrides and members.
const MAX_CRITERIA: u16 = 64;

const MAX_ACTIONS: u8 = 31;

const MAX_OVERRIDES: u8 = 64;

const MAX_MEMBERS: u16 = 256;

// The most periods that a policy keeps something.
const MAX_COUNT: u32 = 9_999;

/// A resource, behind the byte of its kind.
#[tactic(auto, unfolding(catalog_spelling::specs::Kinds::by_kind_at))]
pub fn read_resource(alloc: Global, bytes: &[u8]) -> Result<(Resource, &[u8]), FieldFault>
    ensures { Gives (λ x. (x.0, x.1.now)) result (resource_at bytes.now) }
{
    let (kind, rest) = read_u8(bytes)?;
    match kind {
        b'P' => read_policy(alloc, rest),
        b'O' => read_pool(alloc, rest),
        b'C' => read_client(alloc, rest),
        b'S' => read_schedule(alloc, rest),
        b'G' => read_group(alloc, rest),
        _ => Err(FieldFault::Bad {
            behind: bytes.len(),
        }),
    }
}

/// The byte of a kind of resource.
#[tactic(auto, unfolding(catalog_spelling::specs::Fields::code_at))]
pub fn read_resource_kind(bytes: &[u8]) -> Result<(ResourceKind, &[u8]), FieldFault>
    ensures { Gives (λ x. (x.0, x.1.now)) result (code_at resource_kinds bytes.now) }
{
    let (byte, rest) = read_u8(bytes)?;
    let kind = known(kind_of(byte), bytes)?;
    Ok((kind, rest))
}

fn kind_of(byte: u8) -> Option<ResourceKind>
    ensures { result ≡ coded resource_kinds byte }
{
    match byte {
        b'P' => Some(ResourceKind::Policy),
        b'O' => Some(ResourceKind::Pool),
        b'C' => Some(ResourceKind::Client),
        b'S' => Some(ResourceKind::Schedule),
        b'G' => Some(ResourceKind::Group),
        _ => None,
    }
}

#[tactic(auto, unfolding(catalog_spelling::specs::Resources::policy_at, catalog_spelling::specs::Fields::code_at))]
fn read_policy(alloc: Global, bytes: &[u8]) -> Result<(Resource, &[u8]), FieldFault>
    ensures { Gives (λ x. (x.0, x.1.now)) result (policy_at bytes.now) }
{
    let (name, rest) = read_name(alloc, 64, bytes)?;
    let (count, rest) = read_u32_within(1, MAX_COUNT, rest)?;
    let (byte, after) = read_u8(rest)?;
    let unit = known(unit_of(byte), rest)?;
    Ok((Resource::Policy(Policy { name, count, unit }), after))
}

fn unit_of(byte: u8) -> Option<Unit>
    ensures { result ≡ coded unit_kinds byte }
{
    match byte {
        0 => Some(Unit::Days),
        1 => Some(Unit::Weeks),
        2 => Some(Unit::Months),
        3 => Some(Unit::Years),
        _ => None,
    }
}

#[tactic(auto, unfolding(catalog_spelling::specs::Resources::pool_at))]
fn read_pool(alloc: Global, bytes: &[u8]) -> Result<(Resource, &[u8]), FieldFault>
    ensures { Gives (λ x. (x.0, x.1.now)) result (pool_at bytes.now) }
{
    let (name, rest) = read_name(alloc, 64, bytes)?;
    let (groups, rest) = read_list_u16::<ShortNames>(alloc, 0, MAX_CRITERIA, rest)?;
    let (clients, rest) = read_list_u16::<ShortNames>(alloc, 0, MAX_CRITERIA, rest)?;
    let (sets, rest) = read_list_u16::<SetNames>(alloc, 0, MAX_CRITERIA, rest)?;
    let (levels, rest) = read_list_u16::<Levels>(alloc, 0, MAX_CRITERIA, rest)?;
    let pool = Pool {
        name,
        groups,
        clients,
        sets,
        levels,
    };
    Ok((Resource::Pool(pool), rest))
}

#[tactic(auto, unfolding(catalog_spelling::specs::Resources::client_at))]
fn read_client(alloc: Global, bytes: &[u8]) -> Result<(Resource, &[u8]), FieldFault>
    ensures { Gives (λ x. (x.0, x.1.now)) result (client_at bytes.now) }
{
    let (name, rest) = read_name(alloc, 64, bytes)?;
    let (browse, rest) = read_name(alloc, 64, rest)?;
    let (retention, rest) = read_name(alloc, 64, rest)?;
    let client = Client {
        name,
        browse,
        retention,
    };
    Ok((Resource::Client(client), rest))
}

#[tactic(auto, unfolding(catalog_spelling::specs::Resources::schedule_at, catalog_spelling::specs::Fields::code_at))]
fn read_schedule(alloc: Global, bytes: &[u8]) -> Result<(Resource, &[u8]), FieldFault>
    ensures { Gives (λ x. (x.0, x.1.now)) result (schedule_at bytes.now) }
{
    let (name, rest) = read_name(alloc, 64, bytes)?;
    let (byte, after) = read_u8(rest)?;
    let period = known(period_of(byte), rest)?;
    let (actions, rest) = read_list_u8::<Actions>(alloc, 1, MAX_ACTIONS, after)?;
    let (overrides, rest) = read_list_u8::<Overrides>(alloc, 0, MAX_OVERRIDES, rest)?;
    let schedule = Schedule {
        name,
        period,
        actions,
        overrides,
    };
    Ok((Resource::Schedule(schedule), rest))
}

fn period_of(byte: u8) -> Option<Period>
    ensures { result ≡ coded period_kinds byte }
{
    match byte {
        0 => Some(Period::Week),
        1 => Some(Period::Month),
        _ => None,
    }
}

#[tactic(auto, unfolding(catalog_spelling::specs::Resources::group_at))]
fn read_group(alloc: Global, bytes: &[u8]) -> Result<(Resource, &[u8]), FieldFault>
    ensures { Gives (λ x. (x.0, x.1.now)) result (group_at bytes.now) }
{
    let (name, rest) = read_name(alloc, 64, bytes)?;
    let (schedule, rest) = read_name(alloc, 64, rest)?;
    let (members, rest) = read_list_u16::<Members>(alloc, 0, MAX_MEMBERS, rest)?;
    let group = Group {
        name,
        schedule,
        members,
    };
    Ok((Resource::Group(group), rest))
}
