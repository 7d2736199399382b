//! The commands that begin a save and give one up, and what a group saves today. Each follows its
//! plan, and leaves what is true between two commands. docs/definitions.md reads the plans aloud.
#![tactic(auto)]

mod aborting;
mod asked;
mod beginning;
mod checking;
mod choosing;
mod entering;
mod grouping;
mod heading;
mod leveling;

pub use aborting::abort;
pub use asked::{Allowed, Asked};
pub use beginning::begin;
pub use choosing::Chosen;
pub use grouping::savegrp;
