//! Takes bytes of a stream from the chunks of a block, which need not be a valid one.

ghost use Rattle.std.specs.Prelude.{◌≡◌, ◌+◌, ◌-◌, ◌≤◌, ◌<◌, ◌↔◌, ℕ, List, length, take, drop, IfSome};
ghost use Rattle.std.specs.Prelude.{IsTrue, MatchOption};
ghost use Rattle.volume_block.specs.Chunks.{ChunkText, count_in};
ghost use Rattle.volume_block.specs.Places.{SplitsAt, FindsFirst};
ghost use Rattle.volume_block.specs.Valid.{HoldsChunks};
ghost use Rattle.volume_block.specs.Why.{used_in};
ghost use Rattle.recover_files.specs.Bytes.{GiveByte, GiveNone};
ghost use Rattle.recover_files.specs.Stages.{FoundCovers, IsHeadOf, IsRun, HasBounds};

use crate::run::{Run, Wanted};
use byteorder::{BigEndian, ByteOrder};
use room_base::{CopyNo, Ssid};
use volume_block::{CHUNK_HEAD_SIZE, Chunk, PAYLOAD_START};

/// Where a block tells how many bytes of its payload are used.
const USED_PLACE: usize = 4;

/// Takes what the first chunk that covers the wanted place gives. Where the bytes are a valid data
/// block, that is the first of its chunks that does.
pub(crate) fn take_run(block: &[u8], wanted: &Wanted, into: &mut [u8]) -> Run
    requires size { length block.now ≤ 65536 }
    requires some { 1 ≤ wanted.now.most }
    requires room { wanted.now.most ≤ length into.old }
    ensures bounds { HasBounds wanted.now.most result }
    ensures run { (volid number units : ℕ) (chunks : List ChunkText)
        → HoldsChunks block.now volid number units chunks
        → IsRun (λ place byte. GiveByte wanted.now.ssid.0 wanted.now.copy.0 place chunks byte)
        (λ place. GiveNone wanted.now.ssid.0 wanted.now.copy.0 place chunks)
        wanted.now.place into.new result }
{
    let mut clear = wanted.most;
    let mut at = 0;
    while let Some(chunk) = chunk_at(block, at) {
        if covers(&chunk, wanted) {
            let count = take_bytes(block, &chunk, wanted.place, clear, into);
            return Run { count, clear };
        }
        clear = clear_before(&chunk, wanted, clear);
        at = chunk.next;
    }
    Run { count: 0, clear }
}

// Finds the chunk that begins at a place of the payload, as `next_chunk` does in a valid block. In
// other bytes it finds whatever has room there.
fn chunk_at(block: &[u8], at: u32) -> Option<Chunk>
    requires { length block.now ≤ 65536 }
    ensures found { (volid number units : ℕ) (before after : List ChunkText)
        → SplitsAt block.now volid number units at before after
        → FindsFirst block.now at after result }
    ensures inside { IfSome result (λ found. found.start + found.length ≤ length block.now) }
    ensures next { IfSome result (λ found. (at < found.next)
        × (found.next ≤ length block.now)) }
{
    if has_head(block, at) {
        chunk_behind(&block[PAYLOAD_START + at as usize..], at)
    } else {
        None
    }
}

// Whether there is room for what stands before a chunk's bytes.
fn has_head(block: &[u8], at: u32) -> bool
    ensures { IsTrue result ↔ ((at < used_in block.now) × (80 + at ≤ length block.now)) }
{
    let least = PAYLOAD_START + CHUNK_HEAD_SIZE;
    block.len() >= least && at < used_length(block) && at as usize <= block.len() - least
}

// How many bytes of the payload are used, as the block tells.
fn used_length(block: &[u8]) -> u32
    requires { 8 ≤ length block.now }
    ensures { result ≡ used_in block.now }
{
    BigEndian::read_u32(&block[USED_PLACE..])
}

// The chunk at the front of the text, which begins at a place of the payload.
fn chunk_behind(text: &[u8], at: u32) -> Option<Chunk>
    requires head { 24 ≤ length text.now }
    requires small { at + length text.now ≤ 65536 }
    ensures { MatchOption result (length text.now < 24 + count_in text.now)
        (IsHeadOf text.now at) }
{
    let count = BigEndian::read_u32(&text[20..]);
    if count as usize > text.len() - CHUNK_HEAD_SIZE {
        return None;
    }
    let start = at + CHUNK_HEAD_SIZE as u32;
    Some(Chunk {
        ssid: Ssid(BigEndian::read_u64(text)),
        copy: CopyNo(BigEndian::read_u32(&text[8..])),
        offset: BigEndian::read_u64(&text[12..]),
        length: count,
        start: PAYLOAD_START as u32 + start,
        next: start + count,
    })
}

fn covers(chunk: &Chunk, wanted: &Wanted) -> bool
    ensures { IsTrue result
        ↔ FoundCovers wanted.now.ssid.0 wanted.now.copy.0 wanted.now.place chunk.now }
{
    chunk.ssid == wanted.ssid
        && chunk.copy == wanted.copy
        && chunk.offset <= wanted.place
        && wanted.place - chunk.offset < u64::from(chunk.length)
}

// How many bytes from the wanted place on, at most `clear`, are before a chunk that doesn't cover
// that place, or behind it.
fn clear_before(chunk: &Chunk, wanted: &Wanted, clear: usize) -> usize
    requires { 1 ≤ clear }
    ensures most { result ≤ clear }
    ensures some { 1 ≤ result }
    ensures clear { (i : ℕ) → i < result
        → FoundCovers wanted.now.ssid.0 wanted.now.copy.0 (wanted.now.place + i) chunk.now
        → FoundCovers wanted.now.ssid.0 wanted.now.copy.0 wanted.now.place chunk.now }
{
    if chunk.offset <= wanted.place {
        return clear;
    }
    let ahead = chunk.offset - wanted.place;
    if ahead < clear as u64 {
        ahead as usize
    } else {
        clear
    }
}

// Takes the chunk's bytes from this place of the stream on, at most `most`.
fn take_bytes(block: &[u8], chunk: &Chunk, place: u64, most: usize, into: &mut [u8]) -> usize
    requires inside { chunk.now.start + chunk.now.length ≤ length block.now }
    requires from { chunk.now.offset ≤ place }
    requires to { place < chunk.now.offset + chunk.now.length }
    requires some { 1 ≤ most }
    requires room { most ≤ length into.old }
    ensures most { result ≤ most }
    ensures some { 1 ≤ result }
    ensures within { place + result ≤ chunk.now.offset + chunk.now.length }
    ensures taken { take result into.new
        ≡ take result (drop (chunk.now.start + (place - chunk.now.offset)) block.now) }
{
    let skip = (place - chunk.offset) as usize;
    let count = most.min(chunk.length as usize - skip);
    let start = chunk.start as usize + skip;
    into[..count].copy_from_slice(&block[start..start + count]);
    count
}
