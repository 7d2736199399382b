//! The commands that define resources and drop them. docs/definitions.md reads the plans that they
//! follow aloud.
#![tactic(auto)]

mod adding;
mod calls;
mod defining;
mod dropping;
mod users;

pub use defining::define;
pub use dropping::drop_resource;
