//! What is true of a room between two commands, and in the middle of one that changes a session: laws
//! of what each effect leaves of it. docs/definitions.md reads the definitions aloud.
#![tactic(auto)]

mod faults;
mod plans;
mod quiet;
mod steps;

pub use faults::between_behind_a_fault;
pub use plans::{between_behind_quiet_deeds, between_behind_quiet_plans};
pub use quiet::{between_behind_quiet_effects, middle_behind_quiet_effects};
pub use steps::{between_is_the_middle_of_any, steps_of_a_session};
