ghost use Rattle.std.specs.Prelude.{◌≡◌, IfOk};
ghost use Rattle.catalog_change.specs.Resources.{kind_of, name_of};

use room_base::{Memory, Name};
use room_rules::{Group, Policy, Pool, Schedule};

/// Whose files are saved, and by which policies they are kept.
#[derive(Drop)]
pub struct Client {
    pub name: Name,
    /// The policy that says how long its files can be browsed.
    pub browse: Name,
    /// The policy that says how long its save sets are kept.
    pub retention: Name,
}

impl Client {
    pub fn copy(&self) -> Result<Client, Memory>
        ensures { IfOk result (λ copy. copy ≡ self.now) }
    {
        Ok(Client {
            name: self.name.copy()?,
            browse: self.browse.copy()?,
            retention: self.retention.copy()?,
        })
    }
}

/// What a resource is. A resource is known by its kind and its name.
#[derive(Clone, Copy)]
pub enum ResourceKind {
    Policy,
    Pool,
    Client,
    Schedule,
    Group,
}

/// What an operator sets up.
#[derive(Drop)]
pub enum Resource {
    Policy(Policy),
    Pool(Pool),
    Client(Client),
    Schedule(Schedule),
    Group(Group),
}

impl Resource {
    pub fn kind(&self) -> ResourceKind
        ensures { result ≡ kind_of self.now }
    {
        match self {
            Resource::Policy(_) => ResourceKind::Policy,
            Resource::Pool(_) => ResourceKind::Pool,
            Resource::Client(_) => ResourceKind::Client,
            Resource::Schedule(_) => ResourceKind::Schedule,
            Resource::Group(_) => ResourceKind::Group,
        }
    }

    /// Lends its name.
    pub fn name(&self) -> &Name
        ensures { result.now ≡ name_of self.now }
    {
        match self {
            Resource::Policy(policy) => &policy.name,
            Resource::Pool(pool) => &pool.name,
            Resource::Client(client) => &client.name,
            Resource::Schedule(schedule) => &schedule.name,
            Resource::Group(group) => &group.name,
        }
    }

    pub fn copy(&self) -> Result<Resource, Memory>
        ensures { IfOk result (λ copy. copy ≡ self.now) }
    {
        Ok(match self {
            Resource::Policy(policy) => Resource::Policy(policy.copy()?),
            Resource::Pool(pool) => Resource::Pool(pool.copy()?),
            Resource::Client(client) => Resource::Client(client.copy()?),
            Resource::Schedule(schedule) => Resource::Schedule(schedule.copy()?),
            Resource::Group(group) => Resource::Group(group.copy()?),
        })
    }
}
