//! Writes snapshots of the room's catalogue, each in its one spelling. The crate `catalog_spelling` has
//! the definitions, and `snapshot_reading` reads by them. docs/formats.md has the bytes.
#![tactic(auto)]

mod encode;
mod media_writing;
mod put_item;
mod resource_writing;

pub use catalog_spelling::{ListedRecord, ResourceLists, Snapshot, SnapshotFields, SnapshotParts};
pub use encode::{FORM, SNAPSHOT_KIND, snapshot, snapshot_into, snapshot_length};
