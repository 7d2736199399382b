//! What opening a room's journal gives: the catalogue of the current file's snapshot behind the
//! entries, and a journal that stands behind them. It writes nothing.
//! docs/definitions.md reads the words of the contracts aloud, docs/formats.md has the files.
#![tactic(auto)]

mod entries;
mod fault;
mod laws;
mod replaying;
mod snapshot;

pub use fault::ReplayFault;
pub use laws::{
    files_replay_as_one, files_replay_as_the_catalogue, images_replay_as_the_catalogue,
};
pub use replaying::{Replayed, replay};
pub use snapshot::read_snapshot;
