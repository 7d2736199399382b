//! The blocks of a volume: labels and marks of 4,096 bytes and data blocks of one to sixteen times
//! as many, each with a digest of its own. docs/formats.md has their bytes.
#![tactic(auto)]

mod block;
mod chunks;
mod decode;
mod encode;
mod joining;
mod label;
mod laws;
mod layout;
mod payload;
mod sealing;
mod units;

pub use block::{
    BLOCK_SIZE, BadBlock, Block, Chunk, MAX_BLOCK_SIZE, MAX_FILE_BLOCKS, MAX_UNITS, Reason,
};
pub use chunks::next_chunk;
pub use decode::{decode_block, decode_label};
pub use encode::{encode_label, encode_mark, seal_data, write_chunk_head};
pub use joining::{append_chunks, chunk_bytes};
pub use label::{FIRST_RAW_VOLID, Label, MAX_CAPACITY, MAX_CART, min_capacity};
pub use laws::{joined_chunks, one_block, one_list_of_chunks};
pub use layout::{CHUNK_HEAD_SIZE, PAYLOAD_START};
pub use units::{is_units, size_told};
