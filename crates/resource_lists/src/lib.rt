//! The resources of a catalogue, each kind in the order of its names: which can be added, which can
//! be dropped, and the lists that a room begins with. What was prepared is added without taking
//! memory. docs/definitions.md says what the words of the contracts mean.
#![tactic(auto)]

mod addable;
mod counts;
mod named;
mod resources;

pub use counts::KindCounts;
pub use resources::Resources;
