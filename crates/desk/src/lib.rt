//! Requests in, replies out: the desk opens the room of a disk, and does what the requests of its
//! input ask, one after the other. docs/definitions.md reads the definitions aloud.
#![tactic(auto)]

mod answering;
mod end;
mod intake;
mod laws;
mod limited;
mod opening;
mod serving;

pub use end::DeskEnd;
pub use laws::crashes_keep_the_trail;
pub use serving::desk;
