ghost use Rattle.std.specs.Prelude.{◌≡◌, IfOk};

use crate::Action;
use room_base::{Items, Memory, Name, Ssid};

/// A client's set that a group saves.
#[derive(Drop)]
pub struct Member {
    pub client: Name,
    pub set: Name,
}

impl Member {
    pub fn copy(&self) -> Result<Member, Memory>
        ensures { IfOk result (λ copy. copy ≡ self.now) }
    {
        Ok(Member {
            client: self.client.copy()?,
            set: self.set.copy()?,
        })
    }
}

/// Sets that are saved by one schedule.
#[derive(Drop)]
pub struct Group {
    pub name: Name,
    pub schedule: Name,
    pub members: Items<Member>,
}

impl Group {
    pub fn copy(&self) -> Result<Group, Memory>
        ensures { IfOk result (λ copy. copy ≡ self.now) }
    {
        let mut members = Vec::with_capacity(
            self.members.allocator(),
            self.members.as_slice().len(),
        )?;
        for member in self.members.as_slice() {
            members.push(member.copy()?)?;
        }
        Ok(Group {
            name: self.name.copy()?,
            schedule: self.schedule.copy()?,
            members: Items::of(members),
        })
    }
}

/// What a group does with one of its members on a day.
#[derive(Drop)]
pub struct Planned {
    pub client: Name,
    pub set: Name,
    pub action: Action,
    /// The save set that it adds to; 0 where it stands alone or is skipped.
    pub base: Ssid,
}

impl Planned {
    pub fn copy(&self) -> Result<Planned, Memory>
        ensures { IfOk result (λ copy. copy ≡ self.now) }
    {
        Ok(Planned {
            client: self.client.copy()?,
            set: self.set.copy()?,
            action: self.action,
            base: self.base,
        })
    }
}
