//! The stream of a save set: a head, entries with strictly ascending paths, and an end with their
//! count. It is written in one spelling, and read in any pieces.
//! docs/formats.md has its bytes.
#![tactic(auto)]

mod encode;
mod entry;
mod entry_reading;
mod fault;
mod field;
mod head;
mod head_reading;
mod laws;
mod level;
mod progress;
mod reader;
mod state;
mod stop;

pub use encode::{encode_head, encode_head_into, head_length};
pub use entry::{EntryKind, IndexEntry, MAX_ENTRIES, MAX_SIZE};
pub use fault::{HeadFault, StreamFault};
pub use head::{HeadParts, SetHead};
pub use head_reading::read_head;
pub use laws::{
    ended_streams_are_whole, ends_have_the_fields, faults_begin_no_stream,
    faults_have_their_causes, fields_are_one, heads_are_read, index_has_the_files, one_spelling,
    paths_that_are_read_ascend, same_in_any_pieces, streams_are_read, texts_are_allowed_or_bad,
    what_is_read_is_spelled,
};
pub use level::Level;
pub use reader::StreamReader;
