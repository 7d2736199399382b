//! The resources of a catalogue, each kind in the order of its names.

ghost use Rattle.std.specs.Prelude.{◌≡◌, ◌↔◌, [], IfOk, OnOk, IsTrue};
ghost use Rattle.std.specs.Prelude.{◌∷◌, option_copied};
ghost use Rattle.std.specs.Ordering.{nat_cmp};
ghost use Rattle.std.specs.Cmp.Lexicographic.{slice_cmp};
ghost use Rattle.room_base.specs.Ordered.{Ascends};
ghost use Rattle.catalog_change.specs.Resources.{client_name, group_name, policy_name, pool_name};
ghost use Rattle.catalog_change.specs.Resources.{schedule_name};
ghost use Rattle.resource_lists.specs.Counts.{counts_of};
ghost use Rattle.resource_lists.specs.Changing.{with_each, without_named};
ghost use Rattle.resource_lists.specs.Adding.{HasResource};
ghost use Rattle.resource_lists.specs.Lists.{default_pool, lasting, opening_resources, room_client};
ghost use Rattle.resource_lists.specs.Kinds.{AreInOrder, find_named};
ghost use Rattle.resource_lists.specs.Room.{HasRoomFor, KeepsRoomBeside};

use crate::counts::KindCounts;
use crate::named::{find, put, remove};
use catalog_change::{Client, Resource, ResourceKind};
use room_base::{Items, Memory, Name};
use room_rules::{DEFAULT_POOL, Group, Policy, Pool, Schedule, Unit};
use std::alloc::Global;
use std::marker::Model;

/// The client of the room's own saves.
pub(crate) const ROOM_CLIENT: &str = "room";

/// The resources of a catalogue.
#[derive(Drop)]
pub struct Resources {
    policies: Vec<Policy>,
    pools: Vec<Pool>,
    clients: Vec<Client>,
    schedules: Vec<Schedule>,
    groups: Vec<Group>,
}

impl Model for Resources {
    ghost use Rattle.std.specs.Prelude.{◌-◌, vec_len, vec_capacity};
    ghost use Rattle.resource_lists.specs.Lists.{HeldResources};
    ghost use Rattle.resource_lists.specs.Kinds.{AreInOrder};

    ghost Value = { HeldResources };

    ghost view = { λ resources. record {
      lists = record {
        policies = resources.policies.items;
        pools = resources.pools.items;
        clients = resources.clients.items;
        schedules = resources.schedules.items;
        groups = resources.groups.items;
      };
      room = record {
        policies = vec_capacity resources.policies - vec_len resources.policies;
        pools = vec_capacity resources.pools - vec_len resources.pools;
        clients = vec_capacity resources.clients - vec_len resources.clients;
        schedules = vec_capacity resources.schedules - vec_len resources.schedules;
        groups = vec_capacity resources.groups - vec_len resources.groups;
      };
    } };

    ghost invariant = { λ resources. AreInOrder (record {
      policies = resources.policies.items;
      pools = resources.pools.items;
      clients = resources.clients.items;
      schedules = resources.schedules.items;
      groups = resources.groups.items;
    }) };
}

impl Resources {
    /// The resources of a room that has just been made.
    pub fn opening(alloc: Global) -> Result<Resources, Memory>
        ensures { IfOk result (λ resources. resources.lists ≡ opening_resources) }
    {
        let mut policies = Vec::with_capacity(alloc, 2)?;
        policies.push(one_of("Month", Unit::Months, alloc)?)?;
        policies.push(one_of("Year", Unit::Years, alloc)?)?;
        let mut pools = Vec::with_capacity(alloc, 1)?;
        pools.push(default_pool(alloc)?)?;
        let mut clients = Vec::with_capacity(alloc, 1)?;
        clients.push(room_client(alloc)?)?;
        Ok(Resources {
            policies,
            pools,
            clients,
            schedules: Vec::new(alloc),
            groups: Vec::new(alloc),
        })
    }

    /// Resources in the order of their names. Takes no memory.
    pub fn of(
        policies: Vec<Policy>,
        pools: Vec<Pool>,
        clients: Vec<Client>,
        schedules: Vec<Schedule>,
        groups: Vec<Group>,
    ) -> Resources
        requires policies { Ascends (slice_cmp nat_cmp) policy_name policies.items }
        requires pools { Ascends (slice_cmp nat_cmp) pool_name pools.items }
        requires clients { Ascends (slice_cmp nat_cmp) client_name clients.items }
        requires schedules { Ascends (slice_cmp nat_cmp) schedule_name schedules.items }
        requires groups { Ascends (slice_cmp nat_cmp) group_name groups.items }
        ensures policies { result.lists.policies ≡ policies.items }
        ensures pools { result.lists.pools ≡ pools.items }
        ensures clients { result.lists.clients ≡ clients.items }
        ensures schedules { result.lists.schedules ≡ schedules.items }
        ensures groups { result.lists.groups ≡ groups.items }
    {
        Resources {
            policies,
            pools,
            clients,
            schedules,
            groups,
        }
    }

    pub fn policies(&self) -> &[Policy]
        ensures value { result.now ≡ self.now.lists.policies }
        ensures order { AreInOrder self.now.lists }
    {
        &self.policies
    }

    pub fn pools(&self) -> &[Pool]
        ensures value { result.now ≡ self.now.lists.pools }
        ensures order { AreInOrder self.now.lists }
    {
        &self.pools
    }

    pub fn clients(&self) -> &[Client]
        ensures value { result.now ≡ self.now.lists.clients }
        ensures order { AreInOrder self.now.lists }
    {
        &self.clients
    }

    pub fn schedules(&self) -> &[Schedule]
        ensures value { result.now ≡ self.now.lists.schedules }
        ensures order { AreInOrder self.now.lists }
    {
        &self.schedules
    }

    pub fn groups(&self) -> &[Group]
        ensures value { result.now ≡ self.now.lists.groups }
        ensures order { AreInOrder self.now.lists }
    {
        &self.groups
    }

    pub fn policy(&self, name: &[u8]) -> Option<&Policy>
        ensures { option_copied result ≡ find_named policy_name name.now self.now.lists.policies }
    {
        find(&self.policies, name)
    }

    pub fn pool(&self, name: &[u8]) -> Option<&Pool>
        ensures { option_copied result ≡ find_named pool_name name.now self.now.lists.pools }
    {
        find(&self.pools, name)
    }

    pub fn client(&self, name: &[u8]) -> Option<&Client>
        ensures { option_copied result ≡ find_named client_name name.now self.now.lists.clients }
    {
        find(&self.clients, name)
    }

    pub fn schedule(&self, name: &[u8]) -> Option<&Schedule>
        ensures { option_copied result
            ≡ find_named schedule_name name.now self.now.lists.schedules }
    {
        find(&self.schedules, name)
    }

    pub fn group(&self, name: &[u8]) -> Option<&Group>
        ensures { option_copied result ≡ find_named group_name name.now self.now.lists.groups }
    {
        find(&self.groups, name)
    }

    /// The resource of this kind and name is there.
    pub fn has(&self, kind: ResourceKind, name: &[u8]) -> bool
        ensures { IsTrue result ↔ HasResource self.now.lists kind name.now }
    {
        match kind {
            ResourceKind::Policy => self.policy(name).is_some(),
            ResourceKind::Pool => self.pool(name).is_some(),
            ResourceKind::Client => self.client(name).is_some(),
            ResourceKind::Schedule => self.schedule(name).is_some(),
            ResourceKind::Group => self.group(name).is_some(),
        }
    }

    /// How many there are of each kind.
    pub fn counts(&self) -> KindCounts
        ensures { result ≡ counts_of self.now.lists }
    {
        KindCounts {
            policies: self.policies.len(),
            pools: self.pools.len(),
            clients: self.clients.len(),
            schedules: self.schedules.len(),
            groups: self.groups.len(),
        }
    }

    /// Makes room for more.
    pub fn reserve(&mut self, more: &[Resource]) -> Result<(), Memory>
        ensures lists { self.new.lists ≡ self.old.lists }
        ensures no_less { KeepsRoomBeside [] self.old.room self.new.room }
        ensures ok { OnOk result (HasRoomFor self.new.room more.now) }
    {
        let more = KindCounts::of(more);
        self.policies.reserve(more.policies)?;
        self.pools.reserve(more.pools)?;
        self.clients.reserve(more.clients)?;
        self.schedules.reserve(more.schedules)?;
        self.groups.reserve(more.groups)?;
        Ok(())
    }

    /// Adds resources. There is room, and no memory is taken.
    pub fn define(&mut self, new: Items<Resource>)
        requires room { HasRoomFor self.old.room new }
        ensures lists { self.new.lists ≡ with_each new self.old.lists }
        ensures room { KeepsRoomBeside new self.old.room self.new.room }
    {
        for resource in new.into_list() {
            self.add(resource);
        }
    }

    // Adds a resource, in its list.
    fn add(&mut self, resource: Resource)
        requires room { HasRoomFor self.old.room (resource ∷ []) }
        ensures lists { self.new.lists ≡ with_each (resource ∷ []) self.old.lists }
        ensures room { KeepsRoomBeside (resource ∷ []) self.old.room self.new.room }
    {
        match resource {
            Resource::Policy(policy) => put(&mut self.policies, policy),
            Resource::Pool(pool) => put(&mut self.pools, pool),
            Resource::Client(client) => put(&mut self.clients, client),
            Resource::Schedule(schedule) => put(&mut self.schedules, schedule),
            Resource::Group(group) => put(&mut self.groups, group),
        }
    }

    /// Removes the resource of this kind and name, if it is there. Takes no memory.
    pub fn remove(&mut self, kind: ResourceKind, name: &[u8])
        ensures lists { self.new.lists ≡ without_named kind name.now self.old.lists }
        ensures room { KeepsRoomBeside [] self.old.room self.new.room }
    {
        match kind {
            ResourceKind::Policy => remove(&mut self.policies, name),
            ResourceKind::Pool => remove(&mut self.pools, name),
            ResourceKind::Client => remove(&mut self.clients, name),
            ResourceKind::Schedule => remove(&mut self.schedules, name),
            ResourceKind::Group => remove(&mut self.groups, name),
        }
    }
}

// The policy of one unit.
fn one_of(name: &str, unit: Unit, alloc: Global) -> Result<Policy, Memory>
    ensures { IfOk result (λ policy. policy ≡ lasting name.now unit) }
{
    Ok(Policy {
        name: Name::from_text(alloc, name)?,
        count: 1,
        unit,
    })
}

// The pool without criteria.
fn default_pool(alloc: Global) -> Result<Pool, Memory>
    ensures { IfOk result (λ pool. pool ≡ default_pool) }
{
    Ok(Pool {
        name: Name::from_text(alloc, DEFAULT_POOL)?,
        groups: Items::of(Vec::new(alloc)),
        clients: Items::of(Vec::new(alloc)),
        sets: Items::of(Vec::new(alloc)),
        levels: Items::of(Vec::new(alloc)),
    })
}

// The client of the room's own saves.
fn room_client(alloc: Global) -> Result<Client, Memory>
    ensures { IfOk result (λ client. client ≡ room_client) }
{
    Ok(Client {
        name: Name::from_text(alloc, ROOM_CLIENT)?,
        browse: Name::from_text(alloc, "Month")?,
        retention: Name::from_text(alloc, "Year")?,
    })
}
