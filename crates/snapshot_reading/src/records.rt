//! Records of save sets as bytes.

ghost use Rattle.std.specs.Prelude.{◌≡◌, ◌≤◌, ℕ, List, IfOk};
ghost use Rattle.catalog_spelling.specs.Reading.{Gives};
ghost use Rattle.catalog_spelling.specs.Fields.{coded};
ghost use Rattle.save_stream.specs.Spelling.{IsHead};
ghost use Rattle.catalog_spelling.specs.Storing.{AreListed};
ghost use Rattle.catalog_spelling.specs.Records.{fields_at, index_if_at, is_longer, listed_at};
ghost use Rattle.catalog_spelling.specs.Records.{record_kinds, records_at};

use crate::copies::read_copies;
use crate::heads::read_head;
use crate::item::{ReadItem, read_items};
use catalog_spelling::ListedRecord;
use catalog_text::{
    Entries, FieldFault, allow, known, read_digest, read_flag, read_list_u32, read_u8, read_u32,
    read_u32_within, read_u64,
};
use media_db::{Record, RecordState};
use room_base::Items;
use save_stream::{IndexEntry, SetHead, head_length};
use std::alloc::Global;

/// Records that ascend, below the next one, each with its index where there are indexes.
#[derive(Clone, Copy)]
struct RecordReader {
    next_ssid: u64,
    indexed: bool,
}

impl ReadItem for RecordReader {
    type Item = ListedRecord;

    const LEAST: usize = 120;

    ghost at = { λ reader. listed_at reader.next_ssid reader.indexed };

    fn read<'a>(
        &self,
        alloc: Global,
        before: &[ListedRecord],
        bytes: &'a [u8],
    ) -> Result<(ListedRecord, &'a [u8]), FieldFault> {
        read_listed(alloc, self, before, bytes)
    }
}

/// A list of records.
#[tactic(auto, unfolding(catalog_spelling::specs::Lists::list_at))]
fn read_records(
    alloc: Global,
    next_ssid: u64,
    indexed: bool,
    bytes: &[u8],
) -> Result<(Items<ListedRecord>, &[u8]), FieldFault>
    ensures { Gives (λ x. (x.0, x.1.now)) result (records_at next_ssid indexed bytes.now) }
{
    let (count, rest) = read_u32_within(0, u32::MAX, bytes)?;
    let reader = RecordReader { next_ssid, indexed };
    read_items(&reader, alloc, count as usize, rest)
}

/// Such a list, which can be put into a database.
pub(crate) fn read_listed_records(
    alloc: Global,
    next_ssid: u64,
    indexed: bool,
    bytes: &[u8],
) -> Result<(Items<ListedRecord>, &[u8]), FieldFault>
    ensures read { Gives (λ x. (x.0, x.1.now)) result (records_at next_ssid indexed bytes.now) }
    ensures listed { IfOk result (λ x. AreListed x.0) }
{
    match read_records(alloc, next_ssid, indexed, bytes) {
        Ok((records, rest)) => Ok((records, rest)),
        Err(fault) => Err(fault),
    }
}

#[tactic(auto, unfolding(catalog_spelling::specs::Records::listed_at))]
fn read_listed<'a>(
    alloc: Global,
    reader: &RecordReader,
    before: &[ListedRecord],
    bytes: &'a [u8],
) -> Result<(ListedRecord, &'a [u8]), FieldFault>
    ensures { Gives (λ x. (x.0, x.1.now)) result
        (listed_at reader.now.next_ssid reader.now.indexed before.now bytes.now) }
{
    let (head, rest) = read_head(alloc, reader.next_ssid, before, bytes)?;
    let (row, rest) = read_fields(alloc, head, rest)?;
    let (index, rest) = read_index(alloc, reader.indexed, rest)?;
    Ok((ListedRecord { row, index }, rest))
}

// The fields behind a head.
#[tactic(auto, unfolding(catalog_spelling::specs::Records::fields_at, catalog_spelling::specs::Fields::code_at))]
fn read_fields(alloc: Global, head: SetHead, bytes: &[u8]) -> Result<(Record, &[u8]), FieldFault>
    requires { IsHead head }
    ensures { Gives (λ x. (x.0, x.1.now)) result (fields_at head bytes.now) }
{
    let (hold, at_state) = read_flag(bytes)?;
    let (byte, rest) = read_u8(at_state)?;
    let state = known(state_of(byte), at_state)?;
    let (purged, rest) = read_flag(rest)?;
    let (files, at_size) = read_u32(rest)?;
    let (size, rest) = read_u64(at_size)?;
    allow(is_longer(state, &head, size), at_size)?;
    let (digest, rest) = read_digest(rest)?;
    let (next_copy, rest) = read_u32(rest)?;
    let (changed, rest) = read_u64(rest)?;
    let (copies, rest) = read_copies(alloc, state, next_copy, rest)?;
    let row = Record {
        ssid: head.ssid,
        client: head.client,
        set: head.set,
        group: head.group,
        pool: head.pool,
        level: head.level,
        base: head.base,
        saved: head.saved,
        browse: head.browse,
        retain: head.retain,
        hold,
        state,
        purged,
        files,
        bytes: size,
        digest,
        copies,
        next_copy,
        changed,
    };
    Ok((row, rest))
}

fn state_of(byte: u8) -> Option<RecordState>
    ensures { result ≡ coded record_kinds byte }
{
    match byte {
        0 => Some(RecordState::Begun),
        1 => Some(RecordState::Complete),
        2 => Some(RecordState::Aborted),
        _ => None,
    }
}

// A complete set is longer than the head of its stream.
fn is_longer(state: RecordState, head: &SetHead, size: u64) -> bool
    requires { IsHead head.now }
    ensures { result ≡ is_longer state head.now size }
{
    match state {
        RecordState::Begun | RecordState::Aborted => true,
        RecordState::Complete => head_length(&head.parts()) < size,
    }
}

// The index stands where there are indexes.
#[tactic(auto, unfolding(catalog_spelling::specs::Records::index_if_at))]
fn read_index(
    alloc: Global,
    indexed: bool,
    bytes: &[u8],
) -> Result<(Items<IndexEntry>, &[u8]), FieldFault>
    ensures { Gives (λ x. (x.0, x.1.now)) result (index_if_at indexed bytes.now) }
{
    if !indexed {
        return Ok((Items::of(Vec::new(alloc)), bytes));
    }
    read_list_u32::<Entries>(alloc, 0, u32::MAX, bytes)
}
