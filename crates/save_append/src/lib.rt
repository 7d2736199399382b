//! The command that sends a piece of a save set. It follows its plan, which docs/definitions.md reads
//! aloud.
#![tactic(auto)]

mod appending;
mod laws;
mod sending;

pub use appending::{MAX_PIECE, append};
pub use laws::repeats_change_nothing;
