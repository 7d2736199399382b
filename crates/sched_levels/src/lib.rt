//! What is saved on which day: the action that a schedule has for it, and the save set that a save
//! of that level stands on. `group_plan` says both for each member of a group.
//! docs/definitions.md says what the words of the contracts mean.
#![tactic(auto)]

mod action;
mod base;
mod calendar;
mod laws;
mod plan;

pub use action::{decides_each_day, level_on, overrides_ascend};
pub use base::base_for;
pub use calendar::LAST_DAY;
pub use laws::{
    days_stand_in_one_month, full_saves_alone_have_no_base, one_base_for_a_save,
    overrides_decide_their_days,
};
pub use plan::group_plan;
