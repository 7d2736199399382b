//! The catalogue of a room: its resources, slots, volumes, records and indexes, and what changes
//! make of them. A change that fits and was prepared is applied without taking memory.
//! docs/definitions.md says what the words of the contracts mean.
#![tactic(auto)]

mod catalogue;
mod catalogue_parts;
mod copy_room;
mod fitting;
mod kept;
mod laws;
mod parts;
mod preparing;
mod saves;
mod slots;
mod volumes;

pub use catalog_change::{Change, Client, FilledSlot, Resource, ResourceKind};
pub use catalogue::Catalogue;
pub use catalogue_parts::CatalogueParts;
pub use laws::{catalogues_are_what_is_found, prepared_changes_stay_ready};
pub use room_rules::{
    Action, Group, Member, Override, Period, Planned, Policy, Pool, Schedule, Unit,
};
