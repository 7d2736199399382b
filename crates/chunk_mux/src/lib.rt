//! Packs pieces of save sets' streams into the data blocks of a file, and judges whether chunks
//! make a whole stream. docs/formats.md has the bytes of a block.
#![tactic(auto)]

mod blocks;
mod buffer;
mod laws;
mod sealing;
mod size;
mod span;
mod ssids;
mod tiling;

pub use buffer::MuxBuffer;
pub use laws::{
    a_hole_is_the_first, a_push_adds_its_chunks, a_push_fills_its_span, all_pushes_are_kept,
    an_overlap_is_the_first, one_push_is_kept, pushed_blocks_are_allowed, pushes_are_counted,
    sections_are_longest_runs, whole_chunks_join, whole_covers_once,
};
pub use span::Span;
pub use tiling::{Placed, Tiling, tile};
