//! The commands on save sets that are on record: showing and amending one, taking one off the
//! record, and giving up the indexes of those whose files aren't browsed any more. Each follows its
//! plan. docs/definitions.md reads the plans aloud.
#![tactic(auto)]

mod amending;
mod deleting;
mod entering;
mod purging;
mod showing;

pub use amending::amend;
pub use deleting::delete;
pub use purging::nsrim;
pub use showing::show;
