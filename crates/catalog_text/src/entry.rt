//! Entries of an index as bytes.

ghost use Rattle.std.specs.Prelude.{◌≡◌, ◌≤◌, ◌+◌, ◌<◌, ◌^◌, List, ℕ, length};
ghost use Rattle.catalog_change.specs.Changes.{IsEntry};
ghost use Rattle.catalog_spelling.specs.Reading.{Gives};
ghost use Rattle.catalog_spelling.specs.Fields.{coded, code_at};
ghost use Rattle.catalog_spelling.specs.Entries.{entry_kinds, entry_byte, has_mtime, has_bytes};
ghost use Rattle.catalog_spelling.specs.Entries.{low_path, entry_at, entry_text, FitsEntry};
ghost use Rattle.catalog_text.specs.Writing.{HasRoom, Appends};

use crate::field::{known, read_u8, read_u64_if};
use crate::put::{put_long_text, put_u8, put_u64};
use crate::text::read_path;
use crate::{FieldFault, Format};
use room_base::Name;
use save_stream::{EntryKind, IndexEntry};
use std::alloc::Global;

/// The bytes of an entry but for its path.
const ENTRY_SIZE: usize = 27;

/// Entries of an index, with strictly ascending paths.
pub struct Entries;

impl Format for Entries {
    type Item = IndexEntry;

    const LEAST: usize = ENTRY_SIZE + 1;

    ghost at = { entry_at };

    ghost text = { entry_text };

    ghost Is = { IsEntry };

    ghost LEAST = { 28 };

    ghost Fits = { FitsEntry };

    fn read<'a>(
        alloc: Global,
        before: &[IndexEntry],
        bytes: &'a [u8],
    ) -> Result<(IndexEntry, &'a [u8]), FieldFault> {
        entry_of(alloc, before, bytes)
    }

    fn put(entry: &IndexEntry, into: &mut Vec<u8>) {
        put_entry(entry, into)
    }

    #[tactic(auto, using(crate::proofs::Lengths::length_entry))]
    fn length(entry: &IndexEntry) -> u64 {
        (ENTRY_SIZE + entry.path.as_bytes().len()) as u64
    }
}

#[tactic(auto, unfolding(catalog_spelling::specs::Entries::entry_at))]
fn entry_of<'a>(
    alloc: Global,
    before: &[IndexEntry],
    bytes: &'a [u8],
) -> Result<(IndexEntry, &'a [u8]), FieldFault>
    ensures { Gives (λ x. (x.0, x.1.now)) result (entry_at before.now bytes.now) }
{
    let (kind, rest) = read_entry_kind(bytes)?;
    let (path, rest) = read_path(low_path(before), rest)?;
    let (mtime, rest) = read_u64_if(has_mtime(kind), rest)?;
    let (size, rest) = read_u64_if(has_bytes(kind), rest)?;
    let (place, rest) = read_u64_if(has_bytes(kind), rest)?;
    let entry = IndexEntry {
        kind,
        path: Name::from_text(alloc, path)?,
        mtime,
        size,
        place,
    };
    Ok((entry, rest))
}

#[tactic(auto, unfolding(catalog_spelling::specs::Fields::code_at))]
fn read_entry_kind(bytes: &[u8]) -> Result<(EntryKind, &[u8]), FieldFault>
    ensures { Gives (λ x. (x.0, x.1.now)) result (code_at entry_kinds bytes.now) }
{
    let (byte, rest) = read_u8(bytes)?;
    let kind = known(kind_of(byte), bytes)?;
    Ok((kind, rest))
}

fn kind_of(byte: u8) -> Option<EntryKind>
    ensures { result ≡ coded entry_kinds byte }
{
    match byte {
        b'F' => Some(EntryKind::File),
        b'D' => Some(EntryKind::Folder),
        b'G' => Some(EntryKind::Gone),
        _ => None,
    }
}

fn byte_of(kind: EntryKind) -> u8
    ensures { result ≡ entry_byte kind }
{
    match kind {
        EntryKind::File => b'F',
        EntryKind::Folder => b'D',
        EntryKind::Gone => b'G',
    }
}

fn has_mtime(kind: EntryKind) -> bool
    ensures { result ≡ has_mtime kind }
{
    match kind {
        EntryKind::File | EntryKind::Folder => true,
        EntryKind::Gone => false,
    }
}

// Whether an entry of the kind has a size and a place.
fn has_bytes(kind: EntryKind) -> bool
    ensures { result ≡ has_bytes kind }
{
    match kind {
        EntryKind::File => true,
        EntryKind::Folder | EntryKind::Gone => false,
    }
}

// The path that the next one has to stand above.
fn low_path(before: &[IndexEntry]) -> &[u8]
    ensures { result.now ≡ low_path before.now }
{
    match before.last() {
        Some(entry) => entry.path.as_bytes(),
        None => &[],
    }
}

fn put_entry(entry: &IndexEntry, into: &mut Vec<u8>)
    requires allowed { IsEntry entry.now }
    requires room { HasRoom into.old (entry_text entry.now) }
    ensures text { Appends into.old into.new (entry_text entry.now) }
    ensures fits { FitsEntry entry.now }
{
    put_u8(into, byte_of(entry.kind));
    put_long_text(into, &entry.path);
    put_u64(into, entry.mtime);
    put_u64(into, entry.size);
    put_u64(into, entry.place);
}
