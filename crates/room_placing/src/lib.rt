//! Where the bytes of a session go: which drive takes a piece, and the effects that put it there.
//! docs/definitions.md reads the definitions aloud.
#![tactic(auto)]

mod choosing;
mod placing;

pub use choosing::drive_for;
pub use placing::place;
