//! Which path lies in which save set: the indexes of the save sets, and the view of a chain of
//! them. docs/definitions.md says what a view is.
#![tactic(auto)]

mod entries;
mod index;
mod laws;
mod seen;
mod walk;

pub use entries::paths_ascend;
pub use index::ClientIndex;
pub use laws::{
    entries_of_streams_ascend, forgotten_is_not_seen, indexes_are_what_is_found,
    no_index_is_as_an_empty_one, one_set_hides_what_is_gone, put_is_seen, seen_is_of_its_owner,
};
pub use seen::Seen;
