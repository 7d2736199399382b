//! What the program `room` does with its words, over any input, output, disk and clock: `put`, `get`
//! and `desk`, with the statuses that it ends with and the lines that name them.
//! docs/operations.md tells how to use it, docs/formats.md what it writes.
#![tactic(auto)]

mod fault_status;
mod get;
mod input;
mod laws;
mod put;
mod raw;
mod reporting;
mod running;
mod serving;
mod site;
mod status;
mod store;
mod words;

pub use laws::what_is_put_is_given;
pub use reporting::{report, report_unlocked};
pub use running::run;
pub use status::Status;
pub use words::{Command, misfit, read_words};
