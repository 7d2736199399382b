//! Reads an entry up to the bytes of its file, and the end.

ghost use Rattle.std.specs.Prelude.{◌≡◌};
ghost use Rattle.save_stream.specs.Reading.{GivesField, kind_at, kind_of, is_below, path_at};
ghost use Rattle.save_stream.specs.Reading.{mtime_at, size_at, front_at, end_at};
ghost use Rattle.save_stream.specs.Texts.{front_from};

use crate::field::{allow, byte_of, bytes_of, expect_byte, u16_of, u64_of};
use crate::stop::Stop;
use crate::{EntryKind, MAX_ENTRIES, MAX_SIZE};
use room_base::{MAX_PATH, path_text};
use std::cmp::Ordering;

/// The byte that begins an end.
pub(crate) const END_KIND: u8 = b'E';

/// The fields of an entry before the bytes of its file.
#[derive(Clone, Copy)]
pub(crate) struct EntryFront<'a> {
    pub(crate) kind: EntryKind,
    pub(crate) path: &'a str,
    pub(crate) mtime: u64,
    pub(crate) size: u64,
}

/// The entry that begins these bytes. `count` entries stand before it, and `last` is the path of
/// the last of them.
#[tactic(auto, unfolding(crate::specs::Reading::front_at))]
pub(crate) fn front_of<'a>(
    count: usize,
    last: &[u8],
    bytes: &'a [u8],
) -> Result<(EntryFront<'a>, &'a [u8]), Stop>
    ensures { GivesField (λ x. (front_from x.0, x.1.now)) result
        (front_at count last.now bytes.now) }
{
    let (kind, rest) = next_kind_of(count, bytes)?;
    let (path, rest) = path_of(last, rest)?;
    let (mtime, rest) = mtime_of(kind, rest)?;
    let (size, rest) = size_of(kind, rest)?;
    let front = EntryFront {
        kind,
        path,
        mtime,
        size,
    };
    Ok((front, rest))
}

#[tactic(auto, unfolding(crate::specs::Reading::kind_at))]
fn next_kind_of(count: usize, bytes: &[u8]) -> Result<(EntryKind, &[u8]), Stop>
    ensures { GivesField (λ x. (x.0, x.1.now)) result (kind_at count bytes.now) }
{
    let (byte, rest) = byte_of(bytes)?;
    match kind_of(byte) {
        None => Err(Stop::Wrong(bytes.len())),
        Some(_) if count >= MAX_ENTRIES => Err(Stop::Full),
        Some(kind) => Ok((kind, rest)),
    }
}

fn kind_of(byte: u8) -> Option<EntryKind>
    ensures { result ≡ kind_of byte }
{
    match byte {
        b'F' => Some(EntryKind::File),
        b'D' => Some(EntryKind::Folder),
        b'G' => Some(EntryKind::Gone),
        _ => None,
    }
}

#[tactic(auto, using(crate::proofs::Names::path_is, crate::proofs::Names::no_path), unfolding(crate::specs::Reading::path_at))]
fn path_of<'a>(last: &[u8], bytes: &'a [u8]) -> Result<(&'a str, &'a [u8]), Stop>
    ensures { GivesField (λ x. (x.0.now, x.1.now)) result (path_at last.now bytes.now) }
{
    let (size, start) = u16_of(bytes)?;
    let size = usize::from(size);
    allow(0 < size && size <= MAX_PATH, bytes)?;
    let (path, rest) = bytes_of(size, start)?;
    match path_text(path) {
        Some(text) if is_below(last, path) => Ok((text, rest)),
        _ => Err(Stop::Wrong(start.len())),
    }
}

#[tactic(auto, unfolding(crate::specs::Reading::is_below))]
fn is_below(one: &[u8], other: &[u8]) -> bool
    ensures { result ≡ is_below one.now other.now }
{
    one.cmp(other) == Ordering::Less
}

fn mtime_of(kind: EntryKind, bytes: &[u8]) -> Result<(u64, &[u8]), Stop>
    ensures { GivesField (λ x. (x.0, x.1.now)) result (mtime_at kind bytes.now) }
{
    match kind {
        EntryKind::File | EntryKind::Folder => u64_of(bytes),
        EntryKind::Gone => Ok((0, bytes)),
    }
}

fn size_of(kind: EntryKind, bytes: &[u8]) -> Result<(u64, &[u8]), Stop>
    ensures { GivesField (λ x. (x.0, x.1.now)) result (size_at kind bytes.now) }
{
    match kind {
        EntryKind::File => {
            let (size, rest) = u64_of(bytes)?;
            allow(size <= MAX_SIZE, bytes)?;
            Ok((size, rest))
        }
        EntryKind::Folder | EntryKind::Gone => Ok((0, bytes)),
    }
}

/// The end that begins these bytes, of a stream of `count` entries.
#[tactic(auto, unfolding(crate::specs::Reading::end_at))]
pub(crate) fn end_of(count: usize, bytes: &[u8]) -> Result<(u64, &[u8]), Stop>
    ensures { GivesField (λ x. (x.0, x.1.now)) result (end_at count bytes.now) }
{
    let (_, rest) = expect_byte(END_KIND, bytes)?;
    let (number, after) = u64_of(rest)?;
    allow(number == count as u64, rest)?;
    Ok((number, after))
}
