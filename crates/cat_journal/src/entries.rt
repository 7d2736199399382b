//! Reads entries one behind the other.

ghost use Rattle.std.specs.Prelude.{◌≡◌, ◌<◌, ◌≤◌, ◌+◌, ◌^◌, length, IfOk, IfSome, MatchOption};
ghost use Rattle.room_base.specs.Outside.{Told};
ghost use Rattle.room_disk.specs.Disk.{Quiet};
ghost use Rattle.cat_journal.specs.Fields.{entry_size_in};
ghost use Rattle.cat_journal.specs.Reads.{ReadCause, ahead, IsOf, TakesBytes, HasFields};
ghost use Rattle.cat_journal.specs.Reads.{SpellsFields, FindsBehind, FindsEntry, FitsRoom};

use crate::digest::{DIGEST_SIZE, has_digest};
use crate::entry::{BYTES_PLACE, ENTRY_GATE, FRAME_SIZE};
use crate::reading::{Pieces, ReadFault};
use byteorder::{BigEndian, ByteOrder};
use room_base::Items;
use room_disk::Store;
use std::alloc::Global;

/// What stands from a gate on: it is closed, or neither closed nor before an entry, or open before
/// an entry with these bytes.
#[derive(Drop)]
pub(crate) enum EntryRead {
    Closed,
    Broken,
    Entry(Items<u8>),
}

/// Reads from a gate on, where the last change has the number `last` and so many bytes are left of
/// the file.
pub(crate) fn read_entry<D: Store>(
    alloc: Global,
    store: &mut D,
    pieces: &mut Pieces,
    last: u64,
    room: u64,
) -> Result<EntryRead, ReadFault>
    ensures file { pieces.new.file ≡ pieces.old.file }
    ensures end { pieces.new.end ≡ pieces.old.end }
    ensures fits { IfOk result (FitsRoom (last + 1) room) }
    ensures cause { ReadCause pieces.old.file (D.view store.old) (D.view store.new) result }
    ensures tells { (D.view store.new).tells ≡ (D.view store.old).tells }
    ensures quiet { Told (D.view store.old).tells (Quiet (D.view store.old) (D.view store.new)) }
    ensures found { Told (D.view store.old).tells
        (IsOf pieces.old ((D.view store.old).reads pieces.old.file)
        → room ≡ length (ahead pieces.old ((D.view store.old).reads pieces.old.file))
        → IfOk result (FindsEntry (last + 1)
        (ahead pieces.old ((D.view store.old).reads pieces.old.file))
        (ahead pieces.new ((D.view store.old).reads pieces.old.file)))) }
{
    let mut gate = [0; 1];
    if !pieces.take(store, &mut gate)? {
        return Ok(EntryRead::Broken);
    }
    if gate[0] != ENTRY_GATE {
        return Ok(EntryRead::Closed);
    }
    match read_behind(alloc, store, pieces, last, room)? {
        Some(bytes) => Ok(EntryRead::Entry(bytes)),
        None => Ok(EntryRead::Broken),
    }
}

// Reads an entry behind its gate, if one stands there.
fn read_behind<D: Store>(
    alloc: Global,
    store: &mut D,
    pieces: &mut Pieces,
    last: u64,
    room: u64,
) -> Result<Option<Items<u8>>, ReadFault>
    ensures file { pieces.new.file ≡ pieces.old.file }
    ensures end { pieces.new.end ≡ pieces.old.end }
    ensures fits { IfOk result (λ found. IfSome found (λ bytes.
        (last + 1 < 2 ^ 64) × (45 + length bytes ≤ room))) }
    ensures cause { ReadCause pieces.old.file (D.view store.old) (D.view store.new) result }
    ensures tells { (D.view store.new).tells ≡ (D.view store.old).tells }
    ensures quiet { Told (D.view store.old).tells (Quiet (D.view store.old) (D.view store.new)) }
    ensures found { Told (D.view store.old).tells
        (IsOf pieces.old ((D.view store.old).reads pieces.old.file)
        → room ≡ 1 + length (ahead pieces.old ((D.view store.old).reads pieces.old.file))
        → IfOk result (FindsBehind (last + 1)
        (ahead pieces.old ((D.view store.old).reads pieces.old.file))
        (ahead pieces.new ((D.view store.old).reads pieces.old.file)))) }
{
    let mut fields = [0; BYTES_PLACE];
    if !pieces.take(store, &mut fields)? {
        return Ok(None);
    }
    let Some(size) = size_in(&fields, last, room) else {
        return Ok(None);
    };
    let Some(bytes) = take_bytes(alloc, store, pieces, size)? else {
        return Ok(None);
    };
    let mut digest = [0; DIGEST_SIZE];
    if !pieces.take(store, &mut digest)? {
        return Ok(None);
    }
    if !has_digest(&fields, bytes.as_slice(), &digest) {
        return Ok(None);
    }
    Ok(Some(bytes))
}

// Reads so many bytes, if they are there.
fn take_bytes<D: Store>(
    alloc: Global,
    store: &mut D,
    pieces: &mut Pieces,
    size: usize,
) -> Result<Option<Items<u8>>, ReadFault>
    ensures file { pieces.new.file ≡ pieces.old.file }
    ensures end { pieces.new.end ≡ pieces.old.end }
    ensures size { IfOk result (λ found. IfSome found (λ bytes. length bytes ≡ size)) }
    ensures cause { ReadCause pieces.old.file (D.view store.old) (D.view store.new) result }
    ensures tells { (D.view store.new).tells ≡ (D.view store.old).tells }
    ensures quiet { Told (D.view store.old).tells (Quiet (D.view store.old) (D.view store.new)) }
    ensures found { Told (D.view store.old).tells
        (IsOf pieces.old ((D.view store.old).reads pieces.old.file)
        → IfOk result (TakesBytes size
        (ahead pieces.old ((D.view store.old).reads pieces.old.file))
        (ahead pieces.new ((D.view store.old).reads pieces.old.file)))) }
{
    let mut bytes = Vec::new(alloc);
    bytes.resize(size, 0)?;
    if !pieces.take(store, &mut bytes)? {
        return Ok(None);
    }
    Ok(Some(Items::of(bytes)))
}

// How many bytes an entry with these fields has, if its number comes next and it ends in the file.
fn size_in(fields: &[u8], last: u64, room: u64) -> Option<usize>
    requires { length fields.now ≡ 12 }
    ensures found { MatchOption result (¬ HasFields fields.now (last + 1) room)
        (λ size. HasFields fields.now (last + 1) room × (size ≡ entry_size_in fields.now)) }
    ensures spelled { IfSome result (SpellsFields fields.now (last + 1)) }
{
    let number = BigEndian::read_u64(fields);
    let size = BigEndian::read_u32(&fields[8..]);
    let whole = u64::from(size) + FRAME_SIZE as u64;
    if last.checked_add(1)? != number || whole > room {
        return None;
    }
    Some(size as usize)
}
