//! From a request to the command that it asks for. docs/http.md has the table of the routes, and
//! says which refusal is answered where a request asks for no command.
#![tactic(auto)]

mod asking;
mod body;
mod commands;
mod laws;
mod part;
mod place;
mod refusing;
mod route;
mod target;

pub use asking::command_of;
pub use laws::{commands_are_one, names_are_tested};
pub use place::Routes;
