//! The rules by which the room decides: which pool a save goes to, and how long it is kept. The
//! resources that say so (policies, pools, schedules and groups) have their types here.
//! docs/definitions.md says what the words of the contracts mean.
#![tactic(auto)]

mod action;
mod group;
mod lists;
mod policy;
mod pool;
mod schedule;

pub use action::Action;
pub use group::{Group, Member, Planned};
pub use policy::{Policy, Unit, until};
pub use pool::{DEFAULT_POOL, Pool, hold_default, names_ascend, pool_of};
pub use schedule::{Override, Period, Schedule};
