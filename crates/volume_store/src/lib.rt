//! Volumes on cartridges: labelling, mounting, commits of files, and the reading of blocks.
//! docs/formats.md has the sequences of writes.
#![tactic(auto)]

mod commit;
mod label;
mod laws;
mod marks;
mod reading;
mod standing;

pub use commit::Volume;
pub use label::{Found, read_label, write_label};
pub use laws::{every_cartridge_is, one_contents};
pub use marks::{
    FIRST_MARK, FilePlace, MarkPlace, MarkWalk, MountFault, WalkFault, mount, read_mark, walk_marks,
};
pub use reading::{ReadFault, judge_block, read_block, read_blocks};
pub use standing::{a_file_adds_its_chunks, chunks_stand_in_files, one_chunk_stands_in_a_place};
