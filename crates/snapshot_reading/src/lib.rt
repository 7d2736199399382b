//! Reads snapshots of the room's catalogue, which the crate `snapshot_text` writes and
//! `catalog_spelling` defines. A text has one first field that isn't allowed, or is the one spelling
//! of a catalogue that is allowed. docs/formats.md has the bytes.
#![tactic(auto)]

mod copies;
mod decode;
mod heads;
mod item;
mod laws;
mod lists;
mod names;
mod reading;
mod records;
mod resource_reading;
mod slots;
mod volumes;

pub use decode::read_snapshot;
pub use laws::{bytes_are_a_snapshot_or_bad, one_spelling, written_snapshots_are_read};
