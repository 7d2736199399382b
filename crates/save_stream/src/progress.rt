//! What is read of a stream item by item: a head, entries and an end.

ghost use Rattle.std.specs.Prelude.{◌≡◌, true, false, take, None, Err, IfOk, IsSome};
ghost use Rattle.save_stream.specs.Reading.{last_path, entry_from, begins_end};
ghost use Rattle.save_stream.specs.Items.{TakesNext, Stopped, WantsNumbers, item_at, numbers_size};
ghost use Rattle.save_stream.specs.declared.stop.Stop.TheVariants as stops;
ghost use Rattle.save_stream.specs.Texts.{front_from};
ghost use Rattle.save_stream.specs.View.{idle_reading, KeepsProgress};

use crate::entry_reading::{END_KIND, EntryFront, end_of, front_of};
use crate::head_reading::head_of;
use crate::stop::Stop;
use crate::{EntryKind, IndexEntry, MAX_ENTRIES, SetHead, StreamFault};
use byteorder::{BigEndian, ByteOrder};
use room_base::{Memory, Name};
use std::alloc::Global;

/// What is read of a stream.
#[derive(Drop)]
pub(crate) struct Progress {
    /// How many bytes.
    pub(crate) read: u64,
    /// How many bytes are still to come of the last entry's file.
    pub(crate) left: u64,
    pub(crate) ended: bool,
    pub(crate) head: Option<SetHead>,
    pub(crate) entries: Vec<IndexEntry>,
}

impl Progress {
    /// Takes the item that begins these bytes, which end at byte `end` of the stream, and answers
    /// how many of them are behind it; `None`, where it isn't complete.
    pub(crate) fn take_item(
        &mut self,
        alloc: Global,
        bytes: &[u8],
        end: u64,
    ) -> Result<Option<usize>, StreamFault>
        ensures read { let old = idle_reading self.old in
            TakesNext old (idle_reading self.new) end bytes.now result }
        ensures kept { KeepsProgress self.old self.new }
    {
        if self.head.is_none() {
            self.take_head(alloc, bytes, end)
        } else if begins_end(bytes) {
            self.take_end(bytes, end)
        } else {
            self.take_entry(alloc, bytes, end)
        }
    }

    /// Takes the item that begins these bytes, as `take_item` does. The first `judged` of them
    /// were looked at before, and didn't complete it: a path among them isn't judged again.
    pub(crate) fn take_more(
        &mut self,
        alloc: Global,
        judged: usize,
        bytes: &[u8],
        end: u64,
    ) -> Result<Option<usize>, StreamFault>
        requires { let first = take judged bytes.now in
            item_at self.old.head self.old.entries.items first ≡ Err stops.More }
        ensures read { let old = idle_reading self.old in
            TakesNext old (idle_reading self.new) end bytes.now result }
        ensures kept { KeepsProgress self.old self.new }
    {
        if self.head.is_some() && wants_numbers(judged, bytes) {
            Ok(None)
        } else {
            self.take_item(alloc, bytes, end)
        }
    }

    fn take_head(
        &mut self,
        alloc: Global,
        bytes: &[u8],
        end: u64,
    ) -> Result<Option<usize>, StreamFault>
        requires { self.old.head ≡ None }
        ensures read { let old = idle_reading self.old in
            TakesNext old (idle_reading self.new) end bytes.now result }
        ensures kept { KeepsProgress self.old self.new }
    {
        match head_of(alloc, bytes) {
            Ok((head, rest)) => {
                self.head = Some(head);
                self.read = end.saturating_sub(rest.len() as u64);
                Ok(Some(rest.len()))
            }
            Err(stop) => stopped(stop, end),
        }
    }

    fn take_end(&mut self, bytes: &[u8], end: u64) -> Result<Option<usize>, StreamFault>
        requires some { IsSome self.old.head }
        requires begins { begins_end bytes.now ≡ true }
        ensures read { let old = idle_reading self.old in
            TakesNext old (idle_reading self.new) end bytes.now result }
        ensures kept { KeepsProgress self.old self.new }
    {
        match end_of(self.entries.len(), bytes) {
            Ok((_, rest)) => {
                self.ended = true;
                self.read = end.saturating_sub(rest.len() as u64);
                Ok(Some(rest.len()))
            }
            Err(stop) => stopped(stop, end),
        }
    }

    fn take_entry(
        &mut self,
        alloc: Global,
        bytes: &[u8],
        end: u64,
    ) -> Result<Option<usize>, StreamFault>
        requires some { IsSome self.old.head }
        requires begins { begins_end bytes.now ≡ false }
        ensures read { let old = idle_reading self.old in
            TakesNext old (idle_reading self.new) end bytes.now result }
        ensures kept { KeepsProgress self.old self.new }
    {
        let last = last_path(&self.entries);
        match front_of(self.entries.len(), last, bytes) {
            Ok((front, rest)) => {
                let place = end.saturating_sub(rest.len() as u64);
                let entry = entry_from(alloc, place, &front)?;
                let size = entry.size;
                self.entries.push(entry)?;
                self.left = size;
                self.read = place;
                Ok(Some(rest.len()))
            }
            Err(stop) => stopped(stop, end),
        }
    }
}

fn begins_end(bytes: &[u8]) -> bool
    ensures { result ≡ begins_end bytes.now }
{
    match bytes {
        [first, ..] => *first == END_KIND,
        [] => false,
    }
}

// Of the entry that these bytes begin, the path stands whole in the first `judged` of them, and the
// numbers behind it aren't complete.
fn wants_numbers(judged: usize, bytes: &[u8]) -> bool
    ensures { result ≡ true → WantsNumbers judged bytes.now }
{
    match bytes {
        [kind, rest @ ..] if rest.len() >= 2 => {
            let behind = 2 + usize::from(BigEndian::read_u16(rest));
            behind < judged && rest.len() < behind + numbers_size(*kind)
        }
        _ => false,
    }
}

// How many bytes the numbers take of an entry that this byte begins.
fn numbers_size(kind: u8) -> usize
    ensures { result ≡ numbers_size kind }
{
    match kind {
        b'F' => 16,
        b'D' => 8,
        _ => 0,
    }
}

// The path of the last entry; without entries the text without bytes, which is below every path.
fn last_path(entries: &[IndexEntry]) -> &[u8]
    ensures { result.now ≡ last_path entries.now }
{
    match entries {
        [.., last] => last.path.as_bytes(),
        [] => &[],
    }
}

// The entry of these fields, whose file's bytes stand behind the `read` first ones.
fn entry_from(alloc: Global, read: u64, front: &EntryFront) -> Result<IndexEntry, Memory>
    ensures { IfOk result (λ entry. entry ≡ entry_from read (front_from front.now)) }
{
    let place = match front.kind {
        EntryKind::File => read,
        EntryKind::Folder | EntryKind::Gone => 0,
    };
    Ok(IndexEntry {
        kind: front.kind,
        path: Name::from_text(alloc, front.path)?,
        mtime: front.mtime,
        size: front.size,
        place,
    })
}

// What it means that bytes which end at byte `end` weren't read to the end of an item. A field that
// isn't allowed begins among these bytes, so the difference is never cut off at 0.
fn stopped(stop: Stop, end: u64) -> Result<Option<usize>, StreamFault>
    ensures { Stopped stop end result }
{
    match stop {
        Stop::More => Ok(None),
        Stop::Wrong(behind) => Err(StreamFault::Bad {
            offset: end.saturating_sub(behind as u64),
        }),
        Stop::Full => Err(StreamFault::TooMany {
            limit: MAX_ENTRIES as u64,
        }),
        Stop::Memory => Err(StreamFault::Memory),
    }
}
