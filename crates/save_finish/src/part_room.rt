//! The memory in which an index is cut into parts.

ghost use Rattle.std.specs.Prelude.{IfOk};
ghost use Rattle.save_finish.specs.Parts.{AreListsFor, IsForForm};

use crate::lengths::{MAX_PART, part_count};
use crate::stream::EndedStream;
use room_base::{Items, Memory};
use room_state::RoomState;
use save_stream::IndexEntry;
use std::alloc::Global;

/// What the end of a session takes whose index stands in parts: a list for each of them, and the
/// snapshot that a new file of the journal begins with, where the current one takes no parts.
#[derive(Drop)]
pub(crate) struct PartRoom {
    pub stream: EndedStream,
    pub lists: Vec<Vec<IndexEntry>>,
    pub snapshot: Option<Items<u8>>,
}

// An empty list for each part of so many entries.
pub(crate) fn part_lists(alloc: Global, files: u32) -> Result<Vec<Vec<IndexEntry>>, Memory>
    ensures { IfOk result (λ lists. AreListsFor files lists.items) }
{
    let mut lists = Vec::new(alloc);
    for _part in 0..part_count(files as usize) {
        lists.push(Vec::with_capacity(alloc, MAX_PART)?)?;
    }
    Ok(lists)
}

// The snapshot that a new file of the journal begins with, where the current one takes no parts.
pub(crate) fn second_snapshot(room: &RoomState) -> Result<Option<Items<u8>>, Memory>
    ensures { IfOk result (λ snapshot. IsForForm snapshot room.now.room) }
{
    if room.journal_form() != 1 {
        return Ok(None);
    }
    let snapshot = catalog_snapshot::snapshot(room.catalogue(), room.allocator(), true)?;
    Ok(Some(Items::of(snapshot)))
}
