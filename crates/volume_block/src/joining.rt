//! The bytes of a data block's chunks.

ghost use Rattle.std.specs.Prelude.{◌≡◌, ◌++◌, ◌+◌, ◌≤◌, ℕ, List, length, take, drop, OnOk};
ghost use Rattle.volume_block.specs.Chunks.{ChunkText, joined};
ghost use Rattle.volume_block.specs.Valid.{HoldsChunks};

use crate::block::Chunk;
use crate::chunks::next_chunk;
use room_base::Memory;
use std::alloc::Global;

/// Appends the bytes of the chunks of a valid data block, in their order. What was there stays.
/// After an error some of the chunks may be appended.
pub fn append_chunks(block: &[u8], bytes: &mut Vec<u8, Global>) -> Result<(), Memory>
    requires { (volid : ℕ) × ((number : ℕ) × ((units : ℕ) ×
        ((chunks : List ChunkText) × HoldsChunks block.now volid number units chunks))) }
    ensures stays { take (length bytes.old.items) bytes.new.items ≡ bytes.old.items }
    ensures appended { (volid number units : ℕ) (chunks : List ChunkText)
        → HoldsChunks block.now volid number units chunks
        → OnOk result (bytes.new.items ≡ bytes.old.items ++ joined chunks) }
{
    let mut at = 0;
    while let Some(chunk) = next_chunk(block, at) {
        bytes.extend_from_slice(chunk_bytes(block, &chunk))?;
        at = chunk.next;
    }
    Ok(())
}

/// The bytes of a chunk that was found in the block.
pub fn chunk_bytes<'a>(block: &'a [u8], chunk: &Chunk) -> &'a [u8]
    requires { chunk.now.start + chunk.now.length ≤ length block.now }
    ensures { result.now ≡ take chunk.now.length (drop chunk.now.start block.now) }
{
    let start = chunk.start as usize;
    &block[start..start + chunk.length as usize]
}
