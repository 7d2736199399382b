//! The room: it is opened on a disk, and does what commands ask of it. docs/definitions.md reads the
//! definitions aloud, docs/architecture.md says what stands below.
#![tactic(auto)]

mod dispatch;
mod media;
mod moment;
mod resources;
mod room;

pub use journal_replay::ReplayFault;
pub use room::Room;
