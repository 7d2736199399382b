//! The command that finishes a save: what was sent is compared with what the sender says of it, the
//! drives that hold it are committed, and the set is entered as complete. It follows its plan.
//! docs/definitions.md reads the plan aloud.
#![tactic(auto)]

mod again;
mod checks;
mod committing;
mod finishing;
mod index;
mod lengths;
mod part_room;
mod parts;
mod stream;
mod whole;

pub use finishing::finish;
