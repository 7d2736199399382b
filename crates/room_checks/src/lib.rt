//! What the checks of several commands have in common: refusals whose names take memory, and the
//! sets of the open sessions. docs/definitions.md reads the definitions aloud.
#![tactic(auto)]

mod refusals;
mod sessions;

pub use refusals::{exists, in_use, malformed, no_such, no_such_name};
pub use sessions::open_sets;
