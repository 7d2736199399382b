ghost use Rattle.std.specs.Prelude.{◌≡◌, ◌↔◌, ◌<◌, ◌^◌, length, IfOk, IsTrue};
ghost use Rattle.std.specs.List.{HoldsAt};
ghost use Rattle.std.specs.Ordering.{nat_cmp};
ghost use Rattle.std.specs.Cmp.Lexicographic.{slice_cmp};
ghost use Rattle.room_rules.specs.Pools.{Allows, HasCriterion, Matches, IsDefault, HasDefault};
ghost use Rattle.room_rules.specs.Pools.{NamesAscend, IsFirstChosen, IsPoolOf};

use crate::lists::names_copy;
use room_base::{Items, Memory, Name};
use save_stream::Level;
use std::cmp::Ordering;

/// The pool of every save that no other pool takes.
pub const DEFAULT_POOL: &str = "Default";

/// Where saves go that meet its criteria. A list without items is no criterion.
#[derive(Drop)]
pub struct Pool {
    pub name: Name,
    pub groups: Items<Name>,
    pub clients: Items<Name>,
    pub sets: Items<Name>,
    pub levels: Items<Level>,
}

impl Pool {
    pub fn copy(&self) -> Result<Pool, Memory>
        ensures { IfOk result (λ copy. copy ≡ self.now) }
    {
        let levels = Vec::from_slice(self.levels.allocator(), self.levels.as_slice())?;
        Ok(Pool {
            name: self.name.copy()?,
            groups: names_copy(&self.groups)?,
            clients: names_copy(&self.clients)?,
            sets: names_copy(&self.sets)?,
            levels: Items::of(levels),
        })
    }
}

impl Pool {
    // It is the pool of every save that no other one takes.
    fn is_default(&self) -> bool
        ensures { IsTrue result ↔ IsDefault self.now }
    {
        self.name.as_str() == DEFAULT_POOL
    }

    // Some criterion has items.
    fn has_criterion(&self) -> bool
        ensures { IsTrue result ↔ HasCriterion self.now }
    {
        !self.groups.as_slice().is_empty()
            || !self.clients.as_slice().is_empty()
            || !self.sets.as_slice().is_empty()
            || !self.levels.as_slice().is_empty()
    }

    // A save with these meets each criterion that has items, and there is one.
    fn matches(&self, group: &[u8], client: &[u8], set: &[u8], level: Level) -> bool
        ensures { IsTrue result ↔ Matches self.now
            (record { group = group.now; client = client.now; set = set.now; level = level }) }
    {
        self.has_criterion()
            && allows_name(&self.groups, group)
            && allows_name(&self.clients, client)
            && allows_name(&self.sets, set)
            && allows_level(&self.levels, level)
    }
}

fn allows_name(names: &Items<Name>, name: &[u8]) -> bool
    ensures { IsTrue result ↔ Allows names.now name.now }
{
    let names = names.as_slice();
    names.is_empty() || names.iter().any(|one| one.as_bytes() == name)
}

fn allows_level(levels: &Items<Level>, level: Level) -> bool
    ensures { IsTrue result ↔ Allows levels.now level }
{
    let levels = levels.as_slice();
    levels.is_empty() || levels.contains(&level)
}

/// The place of the pool that a save goes to: the first in the order of their names whose criteria
/// it meets, `Default` last, which takes every save. A save without a group has an empty one. Takes
/// no memory.
pub fn pool_of(pools: &[Pool], group: &[u8], client: &[u8], set: &[u8], level: Level) -> u32
    requires order { NamesAscend pools.now }
    requires default { HasDefault pools.now }
    requires few { length pools.now < 2 ^ 32 }
    ensures { IsPoolOf pools.now
        (record { group = group.now; client = client.now; set = set.now; level = level }) result }
{
    match first_match(pools, group, client, set, level) {
        Some(place) => place as u32,
        None => default_place(pools) as u32,
    }
}

// The place of the first pool other than `Default` that a save matches.
fn first_match(
    pools: &[Pool],
    group: &[u8],
    client: &[u8],
    set: &[u8],
    level: Level,
) -> Option<usize>
    ensures { IsFirstChosen pools.now
        (record { group = group.now; client = client.now; set = set.now; level = level }) result }
{
    for (place, pool) in pools.iter().enumerate() {
        if !pool.is_default() && pool.matches(group, client, set, level) {
            return Some(place);
        }
    }
    None
}

// The place of the pool `Default`.
fn default_place(pools: &[Pool]) -> usize
    requires { HasDefault pools.now }
    ensures within { result < length pools.now }
    ensures default { HoldsAt IsDefault pools.now result }
{
    for (place, pool) in pools.iter().enumerate() {
        if pool.is_default() {
            return place;
        }
    }
    0
}

/// Whether one of the pools is `Default`, as `pool_of` needs.
pub fn hold_default(pools: &[Pool]) -> bool
    ensures { IsTrue result ↔ HasDefault pools.now }
{
    pools.iter().any(|pool| pool.is_default())
}

/// Whether the names ascend strictly by bytes, as `pool_of` needs.
pub fn names_ascend(pools: &[Pool]) -> bool
    ensures { IsTrue result ↔ NamesAscend pools.now }
{
    pools.is_sorted_by(|one, other| compare(one, other.name.as_bytes()).is_lt())
}

// The name of a pool against this one, by bytes.
fn compare(pool: &Pool, name: &[u8]) -> Ordering
    ensures { result ≡ slice_cmp nat_cmp pool.now.name name.now }
{
    pool.name.as_bytes().cmp(name)
}
