//! The catalogue's journal: two files, of which the one of greater generation holds a snapshot and
//! the entries behind it. It knows nothing of what snapshots and entries hold.
//! docs/formats.md has the files, docs/definitions.md the words of the contracts.
#![tactic(auto)]

mod current;
mod digest;
mod entries;
mod entry;
mod entry_list;
mod front;
mod head;
mod journal;
mod laws;
mod opening;
mod reading;

pub use current::CurrentFile;
pub use entry_list::Entry;
pub use journal::Journal;
pub use laws::{
    a_fresh_journal_is_its_snapshot, a_turn_over_is_whole_or_absent, an_entry_is_whole_or_absent,
    every_meaning, one_meaning,
};
pub use opening::{OpenFault, Opened};
