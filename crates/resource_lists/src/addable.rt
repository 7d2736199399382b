//! Which resources can be added, and which can be dropped.

ghost use Rattle.std.specs.Prelude.{◌≡◌, ◌≢◌, ◌+◌, ◌≤◌, ◌↔◌, IsTrue};
ghost use Rattle.std.specs.List.{AllByRecursion};
ghost use Rattle.catalog_change.specs.Resources.{kind_of, name_of};
ghost use Rattle.catalog_change.specs.declared.resource.ResourceKind.TheVariants as kinds;
ghost use Rattle.resource_lists.specs.Adding.{AreAddable, AreDistinct, HasResource, IsNamed};
ghost use Rattle.resource_lists.specs.Adding.{IsNotMemberOf, IsNotPolicyOf, IsThere, IsUnused};
ghost use Rattle.resource_lists.specs.Adding.{Refers, StayWithin, max_of_kind};

use crate::counts::KindCounts;
use crate::resources::{ROOM_CLIENT, Resources};
use catalog_change::{Client, Resource, ResourceKind};
use room_base::Name;
use room_rules::{DEFAULT_POOL, Group, Member};

// The most resources of a kind.
const MAX_OF_KIND: usize = 256;

impl Resources {
    /// There are at most 256 of each kind, with the new ones.
    pub fn room_for(&self, new: &[Resource]) -> bool
        ensures { IsTrue result ↔ StayWithin self.now.lists new.now }
    {
        let now = self.counts();
        let new = KindCounts::of(new);
        can_hold(now.policies, new.policies)
            && can_hold(now.pools, new.pools)
            && can_hold(now.clients, new.clients)
            && can_hold(now.schedules, new.schedules)
            && can_hold(now.groups, new.groups)
    }

    /// Resources that are new and differ, and refer to what is there or among them.
    pub fn are_addable(&self, new: &[Resource]) -> bool
        ensures { IsTrue result ↔ AreAddable self.now.lists new.now }
    {
        are_distinct(new) && self.are_absent(new) && self.all_refer(new)
    }

    // None of them is there.
    fn are_absent(&self, new: &[Resource]) -> bool
        ensures { IsTrue result ↔ AllByRecursion (λ resource.
            ¬ HasResource self.now.lists (kind_of resource) (name_of resource)) new.now }
    {
        new.iter()
            .all(|one| !self.has(one.kind(), one.name().as_bytes()))
    }

    // What they refer to is there, or among them.
    fn all_refer(&self, new: &[Resource]) -> bool
        ensures { IsTrue result ↔ AllByRecursion (Refers self.now.lists new.now) new.now }
    {
        new.iter().all(|one| self.refers(new, one))
    }

    fn refers(&self, new: &[Resource], one: &Resource) -> bool
        ensures { IsTrue result ↔ Refers self.now.lists new.now one.now }
    {
        match one {
            Resource::Client(client) => {
                self.is_there(new, ResourceKind::Policy, client.browse.as_bytes())
                    && self.is_there(new, ResourceKind::Policy, client.retention.as_bytes())
            }
            Resource::Group(group) => {
                self.is_there(new, ResourceKind::Schedule, group.schedule.as_bytes())
                    && self.have_clients(new, group.members.as_slice())
            }
            Resource::Policy(_) | Resource::Pool(_) | Resource::Schedule(_) => true,
        }
    }

    // The clients of members are there, or among the new ones.
    fn have_clients(&self, new: &[Resource], members: &[Member]) -> bool
        ensures { IsTrue result ↔ AllByRecursion (λ member.
            IsThere self.now.lists new.now kinds.Client member.client) members.now }
    {
        members.iter().all(|member| self.is_there(
            new,
            ResourceKind::Client,
            member.client.as_bytes(),
        ))
    }

    fn is_there(&self, new: &[Resource], kind: ResourceKind, name: &[u8]) -> bool
        ensures { IsTrue result ↔ IsThere self.now.lists new.now kind name.now }
    {
        self.has(kind, name) || new.iter().any(|one| is_named(one, kind, name))
    }

    /// None of them needs the resource of this kind and name.
    pub fn are_free_of(&self, kind: ResourceKind, name: &[u8]) -> bool
        ensures { IsTrue result ↔ IsUnused self.now.lists kind name.now }
    {
        match kind {
            ResourceKind::Policy => {
                self.clients()
                    .iter()
                    .all(|client| is_not_policy_of(client, name))
            }
            ResourceKind::Pool => name != DEFAULT_POOL.as_bytes(),
            ResourceKind::Client => {
                name != ROOM_CLIENT.as_bytes()
                    && self
                        .groups()
                        .iter()
                        .all(|group| is_not_member_of(group, name))
            }
            ResourceKind::Schedule => {
                self.groups()
                    .iter()
                    .all(|group| is_other(&group.schedule, name))
            }
            ResourceKind::Group => true,
        }
    }
}

// The catalogue can hold so many new ones of a kind.
fn can_hold(now: usize, new: usize) -> bool
    ensures { IsTrue result ↔ (now + new ≤ max_of_kind) }
{
    now <= MAX_OF_KIND && new <= MAX_OF_KIND - now
}

// No two have one kind and name.
fn are_distinct(resources: &[Resource]) -> bool
    ensures { IsTrue result ↔ AreDistinct resources.now }
{
    let mut rest = resources;
    while let [one, others @ ..] = rest {
        if !differs_from(one, others) {
            return false;
        }
        rest = others;
    }
    true
}

// None of the others has its kind and name.
fn differs_from(one: &Resource, others: &[Resource]) -> bool
    ensures { IsTrue result ↔ AllByRecursion
        (λ other. ¬ IsNamed (kind_of one.now) (name_of one.now) other) others.now }
{
    others.iter().all(|other| !is_named(other, one.kind(), one.name().as_bytes()))
}

fn is_named(resource: &Resource, kind: ResourceKind, name: &[u8]) -> bool
    ensures { IsTrue result ↔ IsNamed kind name.now resource.now }
{
    resource.kind() == kind && resource.name().as_bytes() == name
}

fn is_not_policy_of(client: &Client, name: &[u8]) -> bool
    ensures { IsTrue result ↔ IsNotPolicyOf name.now client.now }
{
    is_other(&client.browse, name) && is_other(&client.retention, name)
}

fn is_not_member_of(group: &Group, name: &[u8]) -> bool
    ensures { IsTrue result ↔ IsNotMemberOf name.now group.now }
{
    group
        .members
        .as_slice()
        .iter()
        .all(|member| is_other(&member.client, name))
}

fn is_other(one: &Name, name: &[u8]) -> bool
    ensures { IsTrue result ↔ (one.now ≢ name.now) }
{
    one.as_bytes() != name
}
