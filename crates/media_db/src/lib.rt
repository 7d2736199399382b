//! The media database: the records of save sets with their copies, and the records of volumes. It
//! says which save set lies where, and which of them a later save can stand on.
//! docs/definitions.md says what the words of the contracts mean.
#![tactic(auto)]

mod copies;
mod database;
mod edits;
mod laws;
mod place;
mod records;
mod usable;
mod volumes;

pub use copies::{CopyState, Section, SetCopy};
pub use database::MediaDb;
pub use laws::{
    found_after_a_drop, found_after_a_put, found_after_a_removal, found_after_an_edit,
    found_is_listed, least_on_a_cartridge, lists_are_what_is_found, no_copy_is_left_on_the_volume,
    record_keeps_the_head,
};
pub use records::{Record, RecordState};
pub use volumes::VolumeRec;
