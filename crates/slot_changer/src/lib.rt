//! The drives of the room: which volume is in which, the buffer of its next file, which drive takes
//! a piece of a stream, and the commit of a buffer. docs/definitions.md says what the words of the
//! contracts mean.
#![tactic(auto)]

mod drives;
mod laws;
mod mounted;

pub use drives::{Drives, MAX_DRIVE};
pub use laws::{drives_are_apart, one_pick, pushed_can_be_committed, taken_can_be_pushed};
