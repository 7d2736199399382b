//! How a change is entered: its memory is taken before anything is written, and the first file of
//! the journal is written before it where none is open. docs/definitions.md reads the definitions
//! aloud.
#![tactic(auto)]

mod ceiling;
mod entering;

pub use ceiling::{CEILING, is_at_ceiling};
pub use entering::{enter_alone, enter_prepared, prepare_entry};
