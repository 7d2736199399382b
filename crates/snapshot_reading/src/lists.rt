//! The resources of a catalogue: all kinds in one list.

ghost use Rattle.std.specs.Prelude.{◌≡◌, IfOk};
ghost use Rattle.catalog_spelling.specs.Reading.{Gives};
ghost use Rattle.catalog_spelling.specs.SnapshotOrder.{AreInOrder};
ghost use Rattle.catalog_spelling.specs.SnapshotResources.{can_follow, has_lasting};
ghost use Rattle.catalog_spelling.specs.SnapshotResources.{lists_at, more_at};
ghost use Rattle.catalog_spelling.specs.SnapshotResources.{next_at, no_resources};
ghost use Rattle.catalog_spelling.specs.SnapshotResources.{with_policy_at, with_pool_at};
ghost use Rattle.catalog_spelling.specs.SnapshotResources.{with_client_at};
ghost use Rattle.catalog_spelling.specs.SnapshotResources.{with_schedule_at, with_group_at};

use crate::names::is_there;
use crate::resource_reading::{read_client, read_group, read_policy, read_pool, read_schedule};
use catalog_spelling::ResourceLists;
use catalog_text::{FieldFault, allow, read_u8, read_u32_within};
use room_base::Items;
use room_rules::DEFAULT_POOL;
use std::alloc::Global;

// The client of the room's own saves.
const ROOM_CLIENT: &str = "room";

// There are no resources yet.
fn no_resources(alloc: Global) -> ResourceLists
    ensures lists { result ≡ no_resources }
    ensures order { AreInOrder result }
{
    ResourceLists {
        policies: Items::of(Vec::new(alloc)),
        pools: Items::of(Vec::new(alloc)),
        clients: Items::of(Vec::new(alloc)),
        schedules: Items::of(Vec::new(alloc)),
        groups: Items::of(Vec::new(alloc)),
    }
}

// None of these has a kind that comes behind that of the byte.
fn can_follow(lists: &ResourceLists, byte: u8) -> bool
    ensures { result ≡ can_follow lists.now byte }
{
    let groups = lists.groups.as_slice().is_empty();
    let schedules = lists.schedules.as_slice().is_empty() && groups;
    let clients = lists.clients.as_slice().is_empty();
    let pools = lists.pools.as_slice().is_empty();
    match byte {
        b'P' => pools && clients && schedules,
        b'O' => clients && schedules,
        b'C' => schedules,
        b'S' => groups,
        _ => true,
    }
}

/// Pool `Default` and client `room` are there.
pub(crate) fn has_lasting(lists: &ResourceLists) -> bool
    requires { AreInOrder lists.now }
    ensures { result ≡ has_lasting lists.now }
{
    is_there(lists.pools.as_slice(), DEFAULT_POOL.as_bytes())
        && is_there(lists.clients.as_slice(), ROOM_CLIENT.as_bytes())
}

/// A list of resources behind four bytes of count.
#[tactic(auto, unfolding(catalog_spelling::specs::SnapshotResources::lists_at))]
pub(crate) fn read_lists(alloc: Global, bytes: &[u8]) -> Result<(ResourceLists, &[u8]), FieldFault>
    ensures read { Gives (λ x. (x.0, x.1.now)) result (lists_at bytes.now) }
    ensures order { IfOk result (λ x. AreInOrder x.0) }
{
    let (count, rest) = read_u32_within(0, u32::MAX, bytes)?;
    read_more(alloc, count, rest)
}

// So many resources.
fn read_more(alloc: Global, count: u32, bytes: &[u8]) -> Result<(ResourceLists, &[u8]), FieldFault>
    ensures read { Gives (λ x. (x.0, x.1.now)) result (more_at count no_resources bytes.now) }
    ensures order { IfOk result (λ x. AreInOrder x.0) }
{
    let mut lists = no_resources(alloc);
    let mut rest = bytes;
    for _ in 0..count {
        let (more, after) = read_next(alloc, lists, rest)?;
        lists = more;
        rest = after;
    }
    Ok((lists, rest))
}

// One more resource, behind the byte of its kind.
#[tactic(auto, unfolding(catalog_spelling::specs::SnapshotResources::next_at))]
fn read_next(
    alloc: Global,
    lists: ResourceLists,
    bytes: &[u8],
) -> Result<(ResourceLists, &[u8]), FieldFault>
    requires { AreInOrder lists }
    ensures read { Gives (λ x. (x.0, x.1.now)) result (next_at lists bytes.now) }
    ensures order { IfOk result (λ x. AreInOrder x.0) }
{
    let (kind, rest) = read_u8(bytes)?;
    allow(can_follow(&lists, kind), bytes)?;
    match kind {
        b'P' => with_policy(alloc, lists, rest),
        b'O' => with_pool(alloc, lists, rest),
        b'C' => with_client(alloc, lists, rest),
        b'S' => with_schedule(alloc, lists, rest),
        b'G' => with_group(alloc, lists, rest),
        _ => Err(FieldFault::Bad {
            behind: bytes.len(),
        }),
    }
}

#[tactic(auto, using(snapshot_laws::proofs::Ordered::ascends_push), unfolding(catalog_spelling::specs::SnapshotResources::with_policy_at))]
fn with_policy(
    alloc: Global,
    lists: ResourceLists,
    bytes: &[u8],
) -> Result<(ResourceLists, &[u8]), FieldFault>
    requires { AreInOrder lists }
    ensures read { Gives (λ x. (x.0, x.1.now)) result (with_policy_at lists bytes.now) }
    ensures order { IfOk result (λ x. AreInOrder x.0) }
{
    let (policy, rest) = read_policy(alloc, lists.policies.as_slice(), bytes)?;
    let mut policies = lists.policies.into_list();
    policies.push(policy)?;
    let lists = ResourceLists {
        policies: Items::of(policies),
        ..lists
    };
    Ok((lists, rest))
}

#[tactic(auto, using(snapshot_laws::proofs::Ordered::ascends_push), unfolding(catalog_spelling::specs::SnapshotResources::with_pool_at))]
fn with_pool(
    alloc: Global,
    lists: ResourceLists,
    bytes: &[u8],
) -> Result<(ResourceLists, &[u8]), FieldFault>
    requires { AreInOrder lists }
    ensures read { Gives (λ x. (x.0, x.1.now)) result (with_pool_at lists bytes.now) }
    ensures order { IfOk result (λ x. AreInOrder x.0) }
{
    let (pool, rest) = read_pool(alloc, lists.pools.as_slice(), bytes)?;
    let mut pools = lists.pools.into_list();
    pools.push(pool)?;
    let lists = ResourceLists {
        pools: Items::of(pools),
        ..lists
    };
    Ok((lists, rest))
}

#[tactic(auto, using(snapshot_laws::proofs::Ordered::ascends_push), unfolding(catalog_spelling::specs::SnapshotResources::with_client_at))]
fn with_client(
    alloc: Global,
    lists: ResourceLists,
    bytes: &[u8],
) -> Result<(ResourceLists, &[u8]), FieldFault>
    requires { AreInOrder lists }
    ensures read { Gives (λ x. (x.0, x.1.now)) result (with_client_at lists bytes.now) }
    ensures order { IfOk result (λ x. AreInOrder x.0) }
{
    let (client, rest) = read_client(
        alloc,
        lists.policies.as_slice(),
        lists.clients.as_slice(),
        bytes,
    )?;
    let mut clients = lists.clients.into_list();
    clients.push(client)?;
    let lists = ResourceLists {
        clients: Items::of(clients),
        ..lists
    };
    Ok((lists, rest))
}

#[tactic(auto, using(snapshot_laws::proofs::Ordered::ascends_push), unfolding(catalog_spelling::specs::SnapshotResources::with_schedule_at))]
fn with_schedule(
    alloc: Global,
    lists: ResourceLists,
    bytes: &[u8],
) -> Result<(ResourceLists, &[u8]), FieldFault>
    requires { AreInOrder lists }
    ensures read { Gives (λ x. (x.0, x.1.now)) result (with_schedule_at lists bytes.now) }
    ensures order { IfOk result (λ x. AreInOrder x.0) }
{
    let (schedule, rest) = read_schedule(alloc, lists.schedules.as_slice(), bytes)?;
    let mut schedules = lists.schedules.into_list();
    schedules.push(schedule)?;
    let lists = ResourceLists {
        schedules: Items::of(schedules),
        ..lists
    };
    Ok((lists, rest))
}

#[tactic(auto, using(snapshot_laws::proofs::Ordered::ascends_push), unfolding(catalog_spelling::specs::SnapshotResources::with_group_at))]
fn with_group(
    alloc: Global,
    lists: ResourceLists,
    bytes: &[u8],
) -> Result<(ResourceLists, &[u8]), FieldFault>
    requires { AreInOrder lists }
    ensures read { Gives (λ x. (x.0, x.1.now)) result (with_group_at lists bytes.now) }
    ensures order { IfOk result (λ x. AreInOrder x.0) }
{
    let (group, rest) = read_group(alloc, &lists, bytes)?;
    let mut groups = lists.groups.into_list();
    groups.push(group)?;
    let lists = ResourceLists {
        groups: Items::of(groups),
        ..lists
    };
    Ok((lists, rest))
}
