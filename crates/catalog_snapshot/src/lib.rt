//! Snapshots of a room's catalogue, as `snapshot_text` writes them.
//! docs/definitions.md says what the words of the contracts mean, docs/formats.md has the bytes.
#![tactic(auto)]

mod writing;

pub use writing::{snapshot, snapshot_into, snapshot_length};
