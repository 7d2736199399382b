//! How changes and snapshots of the room's catalogue are spelled as bytes, and how bytes are read:
//! definitions, their laws, and the types that they name. The crates `catalog_text`, `snapshot_text`
//! and `snapshot_reading` do as they say. docs/formats.md has the bytes.
#![tactic(auto)]

mod fault;
mod parts;
mod snapshot_fields;

pub use fault::{DecodeFault, FieldFault};
pub use parts::{Snapshot, SnapshotParts};
pub use snapshot_fields::{ListedRecord, ResourceLists, SnapshotFields};
