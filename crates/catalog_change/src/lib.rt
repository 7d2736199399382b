//! What the room's catalogue is made of, and what changes it: resources, filled slots, and each
//! kind of change that its journal holds. Which of them are allowed is said in specs/.
//! docs/definitions.md says what the words of the contracts mean.
#![tactic(auto)]

mod change;
mod lists;
mod resource;
mod slot;

pub use change::Change;
pub use resource::{Client, Resource, ResourceKind};
pub use slot::FilledSlot;
