ghost use Rattle.std.specs.Prelude.{◌≡◌, IfOk};

use crate::Action;
use room_base::{Items, Memory, Name};

/// What the actions of a schedule are counted by: the days of a week from Sunday on, or those of a
/// month.
#[derive(Clone, Copy)]
pub enum Period {
    Week,
    Month,
}

/// The action of one day, counted from 1970-01-01.
#[derive(Clone, Copy)]
pub struct Override {
    pub day: u32,
    pub action: Action,
}

/// Which action there is on which day. A period that is longer than the list of actions goes over
/// it again and again.
#[derive(Drop)]
pub struct Schedule {
    pub name: Name,
    pub period: Period,
    pub actions: Items<Action>,
    /// Ascending by day. They decide before the actions.
    pub overrides: Items<Override>,
}

impl Schedule {
    pub fn copy(&self) -> Result<Schedule, Memory>
        ensures { IfOk result (λ copy. copy ≡ self.now) }
    {
        let actions = Vec::from_slice(self.actions.allocator(), self.actions.as_slice())?;
        let overrides = Vec::from_slice(self.overrides.allocator(), self.overrides.as_slice())?;
        Ok(Schedule {
            name: self.name.copy()?,
            period: self.period,
            actions: Items::of(actions),
            overrides: Items::of(overrides),
        })
    }
}
