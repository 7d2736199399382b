//! The state of a running room in memory, with a method for each effect that commands are made of.
//! It prepares memory, does effects, and is asked what a command needs to know.
//! docs/definitions.md says what the words of the contracts mean.
#![tactic(auto)]

mod busy;
mod closing;
mod committing;
mod entering;
mod entries;
mod laws;
mod looking;
mod moving;
mod preparing;
mod sending;
mod state;

pub use laws::{prepared_commits_are_any, prepared_entries_stay};
pub use state::RoomState;
