ghost use Rattle.std.specs.Prelude.{◌≡◌, ◌+◌, ◌*◌, min, IfOk};
ghost use Rattle.room_base.specs.Numbers.{max_moment};
ghost use Rattle.room_rules.specs.Times.{unit_seconds};

use room_base::{MAX_MOMENT, Memory, Moment, Name};

/// What a policy counts in. A month has 31 days here, and a year 366.
#[derive(Clone, Copy)]
pub enum Unit {
    Days,
    Weeks,
    Months,
    Years,
}

impl Unit {
    fn seconds(self) -> u64
        ensures { result ≡ unit_seconds self }
    {
        match self {
            Unit::Days => 86_400,
            Unit::Weeks => 604_800,
            Unit::Months => 2_678_400,
            Unit::Years => 31_622_400,
        }
    }
}

/// How long something is kept: `count` units.
#[derive(Drop)]
pub struct Policy {
    pub name: Name,
    pub count: u32,
    pub unit: Unit,
}

impl Policy {
    pub fn copy(&self) -> Result<Policy, Memory>
        ensures { IfOk result (λ copy. copy ≡ self.now) }
    {
        Ok(Policy {
            name: self.name.copy()?,
            count: self.count,
            unit: self.unit,
        })
    }
}

/// The moment until which what began at `from` is kept: so many units later, or the greatest moment
/// that is written.
pub fn until(from: Moment, policy: &Policy) -> Moment
    ensures { result.0 ≡ min (from.0 + policy.now.count * unit_seconds policy.now.unit) max_moment }
{
    let length = u64::from(policy.count) * policy.unit.seconds();
    Moment(from.0.saturating_add(length).min(MAX_MOMENT.0))
}
