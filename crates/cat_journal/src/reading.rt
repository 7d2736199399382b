//! How a journal's files are read: whole parts, or in large pieces.

ghost use Rattle.std.specs.Prelude.{◌≡◌, ◌≤◌, [], min, length, take, drop, IfOk, IfErr, OnOk};
ghost use Rattle.room_base.specs.Outside.{Told};
ghost use Rattle.room_disk.specs.Disk.{Quiet};
ghost use Rattle.cat_journal.specs.declared.reading.ReadFault.TheVariants.{Memory};
ghost use Rattle.cat_journal.specs.Reads.{ReadCause, ReadsWhole, ReadsPart, ahead, IsOf, ReadsOn};
ghost use Rattle.cat_journal.specs.Reads.{HandsOut, Fills};

use room_base::Failed;
use room_disk::Store;
use std::alloc::{AllocError, AllocFailed, Global};
use std::marker::Model;

/// Why reading ended.
#[derive(Clone, Copy)]
pub(crate) enum ReadFault {
    Failed { file: u32 },
    Memory,
}

impl From<AllocError> for ReadFault {
    ghost use Rattle.std.specs.Prelude.{◌≡◌};
    ghost use Rattle.cat_journal.specs.declared.reading.ReadFault.TheVariants.{Memory};

    ghost from_gives = { λ _ fault. fault ≡ Memory };

    fn from(_: AllocError) -> ReadFault {
        ReadFault::Memory
    }
}

impl<T: Drop> From<AllocFailed<T>> for ReadFault {
    ghost use Rattle.std.specs.Prelude.{◌≡◌};
    ghost use Rattle.cat_journal.specs.declared.reading.ReadFault.TheVariants.{Memory};

    ghost from_gives = { λ _ fault. fault ≡ Memory };

    fn from(_: AllocFailed<T>) -> ReadFault {
        ReadFault::Memory
    }
}

/// Fills `into` from the file, and says whether it has so many bytes from `at` on.
pub(crate) fn read_whole<D: Store>(
    store: &mut D,
    file: u32,
    at: u64,
    into: &mut [u8],
) -> Result<bool, ReadFault>
    ensures cause { ReadCause file (D.view store.old) (D.view store.new) result }
    ensures tells { (D.view store.new).tells ≡ (D.view store.old).tells }
    ensures quiet { Told (D.view store.old).tells (Quiet (D.view store.old) (D.view store.new)) }
    ensures read { Told (D.view store.old).tells
        (IfOk result (ReadsWhole ((D.view store.old).reads file) at into.new)) }
{
    match store.read_at(file, at, into) {
        Ok(count) => Ok(count as usize == into.len()),
        Err(Failed) => Err(ReadFault::Failed { file }),
    }
}

// Reads at most so many bytes into the front of a piece, and answers how many there are.
fn read_part<D: Store>(
    store: &mut D,
    file: u32,
    at: u64,
    most: u64,
    piece: &mut [u8],
) -> Result<usize, ReadFault>
    ensures within { IfOk result (λ count. count ≤ min most (length piece.old)) }
    ensures size { length piece.new ≡ length piece.old }
    ensures cause { ReadCause file (D.view store.old) (D.view store.new) result }
    ensures tells { (D.view store.new).tells ≡ (D.view store.old).tells }
    ensures quiet { Told (D.view store.old).tells (Quiet (D.view store.old) (D.view store.new)) }
    ensures read { Told (D.view store.old).tells (IfOk result
        (ReadsPart ((D.view store.old).reads file) at (min most (length piece.old)) piece.new)) }
{
    let room = most.min(piece.len() as u64) as usize;
    match store.read_at(file, at, &mut piece[..room]) {
        Ok(count) => Ok(count as usize),
        Err(Failed) => Err(ReadFault::Failed { file }),
    }
}

/// How many bytes are read at once.
pub(crate) const PIECE_SIZE: usize = 1 << 20;

/// A file from a place on, which is read in large pieces.
#[derive(Drop)]
pub(crate) struct Pieces {
    file: u32,
    next: u64,
    end: u64,
    piece: Vec<u8>,
    from: usize,
    to: usize,
}

impl Model for Pieces {
    ghost use Rattle.std.specs.Prelude.{◌<◌, ◌≤◌, ◌-◌, take, drop, vec_len};
    ghost use Rattle.cat_journal.specs.Reads.{PiecesView};

    ghost Value = { PiecesView };

    ghost view = { λ pieces. record {
      file = pieces.file;
      next = pieces.next;
      end = pieces.end;
      unread = take (pieces.to - pieces.from) (drop pieces.from pieces.piece.items);
    } };

    ghost invariant = { λ pieces. (pieces.from ≤ pieces.to) × (pieces.to ≤ vec_len pieces.piece)
        × (pieces.next ≤ pieces.end) × (0 < vec_len pieces.piece) };
}

impl Pieces {
    /// The file from `at` on, which has `end` bytes.
    pub(crate) fn new(alloc: Global, file: u32, at: u64, end: u64) -> Result<Pieces, ReadFault>
        requires { at ≤ end }
        ensures begins { IfOk result (λ pieces. pieces
            ≡ record { file = file; next = at; end = end; unread = [] }) }
        ensures memory { IfErr result (λ fault. fault ≡ Memory) }
    {
        let mut piece = Vec::new(alloc);
        piece.resize(PIECE_SIZE, 0)?;
        Ok(Pieces {
            file,
            next: at,
            end,
            piece,
            from: 0,
            to: 0,
        })
    }

    /// Fills `into`, or says that fewer bytes are ahead.
    pub(crate) fn take<D: Store>(
        &mut self,
        store: &mut D,
        into: &mut [u8],
    ) -> Result<bool, ReadFault>
        ensures file { self.new.file ≡ self.old.file }
        ensures end { self.new.end ≡ self.old.end }
        ensures size { length into.new ≡ length into.old }
        ensures cause { ReadCause self.old.file (D.view store.old) (D.view store.new) result }
        ensures tells { (D.view store.new).tells ≡ (D.view store.old).tells }
        ensures quiet { Told (D.view store.old).tells
            (Quiet (D.view store.old) (D.view store.new)) }
        ensures filled { Told (D.view store.old).tells
            (IsOf self.old ((D.view store.old).reads self.old.file)
            → IfOk result (Fills (ahead self.old ((D.view store.old).reads self.old.file))
            (ahead self.new ((D.view store.old).reads self.old.file)) into.new)) }
    {
        let mut done = 0;
        while done < into.len() {
            let (_, room) = into.split_at_mut(done);
            let count = self.take_some(store, room)?;
            if count == 0 {
                return Ok(false);
            }
            done += count;
        }
        Ok(true)
    }

    // Fills a front of `into`, and answers how long it is.
    fn take_some<D: Store>(&mut self, store: &mut D, into: &mut [u8]) -> Result<usize, ReadFault>
        ensures file { self.new.file ≡ self.old.file }
        ensures end { self.new.end ≡ self.old.end }
        ensures size { length into.new ≡ length into.old }
        ensures within { IfOk result (λ count. count ≤ length into.old) }
        ensures cause { ReadCause self.old.file (D.view store.old) (D.view store.new) result }
        ensures tells { (D.view store.new).tells ≡ (D.view store.old).tells }
        ensures quiet { Told (D.view store.old).tells
            (Quiet (D.view store.old) (D.view store.new)) }
        ensures handed { Told (D.view store.old).tells
            (IsOf self.old ((D.view store.old).reads self.old.file)
            → IfOk result (HandsOut (ahead self.old ((D.view store.old).reads self.old.file))
            (ahead self.new ((D.view store.old).reads self.old.file)) into.new)) }
    {
        self.read_on(store)?;
        Ok(self.hand_out(into))
    }

    // Reads the next piece, where none is left of the one before.
    fn read_on<D: Store>(&mut self, store: &mut D) -> Result<(), ReadFault>
        ensures file { self.new.file ≡ self.old.file }
        ensures end { self.new.end ≡ self.old.end }
        ensures cause { ReadCause self.old.file (D.view store.old) (D.view store.new) result }
        ensures tells { (D.view store.new).tells ≡ (D.view store.old).tells }
        ensures quiet { Told (D.view store.old).tells
            (Quiet (D.view store.old) (D.view store.new)) }
        ensures read { Told (D.view store.old).tells
            (IsOf self.old ((D.view store.old).reads self.old.file)
            → OnOk result (ReadsOn ((D.view store.old).reads self.old.file) self.old self.new)) }
    {
        if self.from == self.to {
            let left = self.end - self.next;
            let count = read_part(store, self.file, self.next, left, &mut self.piece)?;
            self.from = 0;
            self.to = count;
            self.next += count as u64;
        }
        Ok(())
    }

    // Hands out what is left of the piece, as far as there is room.
    fn hand_out(&mut self, into: &mut [u8]) -> usize
        ensures count { result ≡ min (length into.old) (length self.old.unread) }
        ensures size { length into.new ≡ length into.old }
        ensures given { take result into.new ≡ take result self.old.unread }
        ensures left { self.new ≡ record self.old { unread = drop result self.old.unread } }
    {
        let count = into.len().min(self.to - self.from);
        into[..count].copy_from_slice(&self.piece[self.from..self.from + count]);
        self.from += count;
        count
    }
}
