//! Reads the chunks of a data block.

ghost use Rattle.std.specs.Prelude.{◌≡◌, ◌≢◌, ◌≤◌, ◌+◌, ◌^◌, ◌++◌, ◌↔◌, ℕ, List, length, IfSome};
ghost use Rattle.std.specs.Prelude.{IsTrue, MatchOption};
ghost use Rattle.volume_block.specs.Layout.{data_size};
ghost use Rattle.volume_block.specs.Chunks.{ChunkText, IsChunk, chunk_text, ssid_in, copy_in};
ghost use Rattle.volume_block.specs.Chunks.{offset_in, count_in, IsFirstChunk};
ghost use Rattle.volume_block.specs.Places.{SplitsAt, IsChunkPlace, FindsFirst};
ghost use Rattle.volume_block.specs.Why.{AreChunksIn};

use crate::block::Chunk;
use crate::layout::{CHUNK_HEAD_SIZE, PAYLOAD_START, used_length};
use byteorder::{BigEndian, ByteOrder};
use room_base::{CopyNo, Ssid};

/// A save set's stream has no byte from here on.
const STREAM_LIMIT: u64 = 1 << 36;

/// Finds the chunk of a valid data block that begins at this place: 0, or `next` of the chunk
/// before. There is none behind the last chunk.
pub fn next_chunk(bytes: &[u8], at: u32) -> Option<Chunk>
    requires { IsChunkPlace bytes.now at }
    ensures found { (volid number units : ℕ) (before after : List ChunkText)
        → SplitsAt bytes.now volid number units at before after
        → FindsFirst bytes.now at after result }
    ensures again { IfSome result (λ found. IsChunkPlace bytes.now found.next) }
{
    if at == used_length(bytes) {
        return None;
    }
    let head = head_in(&bytes[PAYLOAD_START + at as usize..]);
    let start = at + CHUNK_HEAD_SIZE as u32;
    Some(Chunk {
        ssid: Ssid(head.ssid),
        copy: CopyNo(head.copy),
        offset: head.offset,
        length: head.count,
        start: PAYLOAD_START as u32 + start,
        next: start + head.count,
    })
}

// What stands before a chunk's bytes, of which there are `count`.
#[derive(Clone, Copy)]
struct ChunkHead {
    ssid: u64,
    copy: u32,
    offset: u64,
    count: u32,
}

fn head_in(text: &[u8]) -> ChunkHead
    requires { 24 ≤ length text.now }
    ensures ssid { result.ssid ≡ ssid_in text.now }
    ensures copy { result.copy ≡ copy_in text.now }
    ensures offset { result.offset ≡ offset_in text.now }
    ensures count { result.count ≡ count_in text.now }
{
    ChunkHead {
        ssid: BigEndian::read_u64(text),
        copy: BigEndian::read_u32(&text[8..]),
        offset: BigEndian::read_u64(&text[12..]),
        count: BigEndian::read_u32(&text[20..]),
    }
}

fn is_allowed(head: &ChunkHead) -> bool
    ensures { IsTrue result
        ↔ ((1 ≤ head.now.ssid) × (1 ≤ head.now.copy) × (1 ≤ head.now.count)
        × (head.now.offset + head.now.count ≤ 2 ^ 36)) }
{
    head.ssid >= 1
        && head.copy >= 1
        && head.count >= 1
        && head.offset <= STREAM_LIMIT - u64::from(head.count)
}

// How many bytes the first chunk takes, where a chunk begins the text.
fn first_chunk_size(text: &[u8]) -> Option<usize>
    requires { length text.now ≤ 2 ^ 32 }
    ensures { MatchOption result
        ((chunk : ChunkText) (tail : List ℕ) → IsChunk chunk → text.now ≢ chunk_text chunk ++ tail)
        (λ size. (chunk : ChunkText) × IsFirstChunk text.now size chunk) }
{
    if text.len() < CHUNK_HEAD_SIZE {
        return None;
    }
    let head = head_in(text);
    let count = head.count as usize;
    if count > text.len() - CHUNK_HEAD_SIZE || !is_allowed(&head) {
        return None;
    }
    Some(CHUNK_HEAD_SIZE + count)
}

/// Whether the payload is chunks one behind the other, at least one.
pub(crate) fn are_chunks(payload: &[u8]) -> bool
    requires { length payload.now ≤ 2 ^ 32 }
    ensures { (units : ℕ) → 56 + length payload.now ≤ data_size units
        → IsTrue result ↔ ((chunks : List ChunkText) × AreChunksIn units payload.now chunks) }
{
    let mut rest = payload;
    while !rest.is_empty() {
        let Some(size) = first_chunk_size(rest) else {
            return false;
        };
        rest = &rest[size..];
    }
    !payload.is_empty()
}
