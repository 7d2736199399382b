//! Reads what was saved: bytes of save sets' streams, from whichever copy has them, and files.
//! docs/definitions.md says which copy that is.
#![tactic(auto)]

mod blocks;
mod chunks;
mod fault;
mod files;
mod laws;
mod range;
mod run;
mod sections;
mod spots;

pub use fault::{RangeFault, RecoverFault};
pub use files::recover;
pub use laws::{one_answer, ranges_join};
pub use range::read_range;
