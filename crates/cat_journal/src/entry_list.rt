//! The entries of a file, one behind the other, up to the first gate that isn't open before one.

ghost use Rattle.std.specs.Prelude.{◌≡◌, ◌≤◌, ◌<◌, ◌+◌, ◌^◌, length, IfOk, IfErr, OnOk};
ghost use Rattle.room_base.specs.Outside.{Told};
ghost use Rattle.room_disk.specs.Disk.{Quiet};
ghost use Rattle.cat_journal.specs.declared.reading.ReadFault.TheVariants.{Memory};
ghost use Rattle.cat_journal.specs.Reads.{ReadCause, ahead, IsOf};
ghost use Rattle.cat_journal.specs.Entries.{with_entry, FindsEntries, IsCounted, HasRange};

use crate::entries::{EntryRead, read_entry};
use crate::entry::{FRAME_SIZE, is_part};
use crate::front::FileHead;
use crate::head::FRONT_SIZE;
use crate::reading::{Pieces, ReadFault};
use room_base::Items;
use room_disk::Store;
use std::alloc::Global;

/// An entry of a journal: its number, where its gate stands, and its bytes. A part has the number
/// of the next change.
#[derive(Drop)]
pub struct Entry {
    pub number: u64,
    pub place: u64,
    pub bytes: Items<u8>,
}

/// Entries, the number of the last change, and the gate behind them, which is closed or broken.
#[derive(Drop)]
pub(crate) struct EntryList {
    pub(crate) entries: Items<Entry>,
    pub(crate) last: u64,
    pub(crate) gate: u64,
    pub(crate) closed: bool,
}

impl EntryList {
    // The list with one entry more, which stands at the gate.
    fn add(&mut self, form: u8, bytes: Items<u8>) -> Result<(), ReadFault>
        requires gate { self.old.gate + (45 + length bytes) < 2 ^ 64 }
        requires last { self.old.last + 1 < 2 ^ 64 }
        ensures added { OnOk result (self.new ≡ with_entry form self.old bytes) }
        ensures memory { IfErr result (λ fault. fault ≡ Memory) }
    {
        let part = is_part(form, bytes.as_slice());
        let size = bytes.as_slice().len() as u64;
        self.entries.list().push(Entry {
            number: self.last + 1,
            place: self.gate,
            bytes,
        })?;
        self.gate += size + FRAME_SIZE as u64;
        if !part {
            self.last += 1;
        }
        Ok(())
    }
}

/// Reads the entries ahead, which stand behind the front of a file.
pub(crate) fn read_entries<D: Store>(
    alloc: Global,
    store: &mut D,
    pieces: &mut Pieces,
    head: &FileHead,
) -> Result<EntryList, ReadFault>
    requires { 64 + head.now.size ≤ head.now.end }
    ensures range { IfOk result (HasRange head.now.end) }
    ensures counted { IfOk result (IsCounted head.now.form head.now.number) }
    ensures cause { ReadCause pieces.old.file (D.view store.old) (D.view store.new) result }
    ensures tells { (D.view store.new).tells ≡ (D.view store.old).tells }
    ensures quiet { Told (D.view store.old).tells (Quiet (D.view store.old) (D.view store.new)) }
    ensures found { Told (D.view store.old).tells
        (IsOf pieces.old ((D.view store.old).reads pieces.old.file)
        → head.now.end ≡ 64 + head.now.size
        + length (ahead pieces.old ((D.view store.old).reads pieces.old.file))
        → IfOk result (FindsEntries head.now.form head.now.number (64 + head.now.size)
        (ahead pieces.old ((D.view store.old).reads pieces.old.file)))) }
{
    let mut list = EntryList {
        entries: Items::of(Vec::new(alloc)),
        last: head.number,
        gate: FRONT_SIZE + head.size,
        closed: false,
    };
    while list.gate < head.end {
        match read_entry(alloc, store, pieces, list.last, head.end - list.gate)? {
            EntryRead::Closed => {
                list.closed = true;
                return Ok(list);
            }
            EntryRead::Broken => return Ok(list),
            EntryRead::Entry(bytes) => list.add(head.form, bytes)?,
        }
    }
    Ok(list)
}
