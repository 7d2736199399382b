//! What a room answers to each command, and what becomes of a room and of its journal's files over
//! many calls and reopenings: definitions, and laws of them. docs/definitions.md reads the
//! definitions aloud.
#![tactic(auto)]

mod calls;
mod runs;

pub use calls::{
    images_of_a_call_replay, refused_calls_keep, repeated_ends_change_nothing,
    repeated_pieces_change_nothing, two_changes_at_most,
};
pub use runs::{a_call_more, a_reopening, no_call};
