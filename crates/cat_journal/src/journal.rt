//! A journal that stands at its next gate, and the calls that write it.

ghost use Rattle.std.specs.Prelude.{◌≡◌, ◌==◌, ◌≤◌, ◌<◌, ◌+◌, ◌-◌, ◌^◌, [], ◌∷◌, ◌++◌, max, length, None};
ghost use Rattle.std.specs.Prelude.{IfOk, IsOk, OnOk, OnErr, MatchOption};
ghost use Rattle.std.specs.Option.{is_some};
ghost use Rattle.room_base.specs.Outside.{Told};
ghost use Rattle.room_disk.specs.Disk.{Leaves};
ghost use Rattle.room_disk.specs.Crash.{Overlays, GatedTorn, IsAnew, AnewTorn};
ghost use Rattle.room_disk.specs.Writing.{WritesFile};
ghost use Rattle.cat_journal.specs.Journal.{IsKnown, IsOpen, IsPart, file_of, form_of};
ghost use Rattle.cat_journal.specs.Journal.{behind_entry, AddsEntry, MayAddEntry, IsLast};
ghost use Rattle.cat_journal.specs.Journal.{next_file, next_generation, next_head};
ghost use Rattle.cat_journal.specs.Journal.{new_text, in_new_file, turned_over, new_head};
ghost use Rattle.cat_journal.specs.Journal.{first_head, MakesAnew};
ghost use Rattle.cat_journal.specs.Contents.{Contents, contents_of, with_payload, IsFront};
ghost use Rattle.cat_journal.specs.Images.{HasContents, IsJournal, IsEntryImage, IsTurnedImage};
ghost use Rattle.cat_journal.specs.Layout.{entry_text};

use crate::current::CurrentFile;
use crate::digest::digest_of;
use crate::entry::{ENTRY_GATE, FRAME_SIZE, spell_entry};
use crate::head::{FILE_GATE, FORM, FRONT_SIZE, spell_fields};
use room_base::{Failed, Memory};
use room_disk::{Store, write_anew, write_gated, write_synced, write_unsynced};
use std::alloc::Global;
use std::marker::Model;

/// A journal that stands at the gate behind its last entry, with memory for entries of some length.
#[derive(Drop)]
pub struct Journal {
    current: Option<CurrentFile>,
    last: u64,
    text: Vec<u8>,
}

impl Model for Journal {
    ghost use Rattle.std.specs.Prelude.{◌-◌, vec_len};
    ghost use Rattle.cat_journal.specs.Journal.{JournalView, IsKnown};

    ghost Value = { JournalView };

    ghost view = { λ journal. record {
      current = journal.current;
      last = journal.last;
      spare = vec_len journal.text - 45;
    } };

    ghost invariant = { λ journal. IsKnown journal.current };
}

impl Journal {
    // A journal that stands so, with memory for no entry.
    pub(crate) fn at(alloc: Global, current: Option<CurrentFile>, last: u64) -> Journal
        requires { IsKnown current }
        ensures { result ≡ record { current = current; last = last; spare = 0 } }
    {
        Journal {
            current,
            last,
            text: Vec::new(alloc),
        }
    }

    /// Makes memory for an entry of that length, and keeps what there is.
    pub fn reserve(&mut self, length: u32) -> Result<(), Memory>
        ensures ok { OnOk result
            (self.new ≡ record self.old { spare = max self.old.spare length }) }
        ensures err { OnErr result (self.new ≡ self.old) }
    {
        let size = length as usize + FRAME_SIZE;
        if self.text.len() < size {
            self.text.resize(size, 0)?;
        }
        Ok(())
    }

    /// The form of the current file; where none is open, that of the file that is written first.
    /// Only a file of form 2 takes parts.
    pub fn form(&self) -> u8
        ensures { result ≡ form_of self.now.current }
    {
        match self.current {
            Some(current) => current.form,
            None => FORM,
        }
    }

    /// Whether a file is open. Only an open one takes entries.
    pub fn is_open(&self) -> bool
        ensures open { result ≡ is_some self.now.current }
        ensures known { IsKnown self.now.current }
    {
        self.current.is_some()
    }

    /// Whether the current file has the last generation, so that a turn-over writes nothing.
    pub fn is_at_last(&self) -> bool
        ensures { result ≡ (next_generation self.now.current == 2 ^ 64) }
    {
        match self.current {
            Some(current) => current.generation == u64::MAX,
            None => false,
        }
    }

    /// Writes a change behind the last entry, and answers its number. After `Failed` the journal is
    /// to be opened again.
    pub fn append<D: Store>(&mut self, store: &mut D, bytes: &[u8]) -> Result<u64, Failed>
        requires open { IsOpen self.old }
        requires spare { length bytes.now ≤ self.old.spare }
        requires short { length bytes.now < 2 ^ 32 }
        requires last { self.old.last + 1 < 2 ^ 64 }
        requires change { ¬ IsPart self.old bytes.now }
        ensures number { IfOk result (λ number. number ≡ self.old.last + 1) }
        ensures moved { OnOk result (self.new ≡ record self.old {
          current = behind_entry self.old.current (length bytes.now);
          last = self.old.last + 1;
        }) }
        ensures kept { OnErr result (self.new ≡ self.old) }
        ensures writes { WritesFile (file_of self.old.current) (AddsEntry self.old bytes.now)
            (MayAddEntry self.old bytes.now) (D.view store.old) (D.view store.new) result }
        ensures images { Told (D.view store.old).tells ((contents : Contents)
            → HasContents self.old contents (D.view store.old)
            → Leaves (D.view store.old) (D.view store.new)
            (IsEntryImage self.old contents bytes.now (D.view store.old))) }
        ensures stands { Told (D.view store.old).tells ((contents : Contents)
            → HasContents self.old contents (D.view store.old) → OnOk result
            (HasContents self.new (with_payload contents bytes.now) (D.view store.new))) }
    {
        let number = self.last + 1;
        self.add_entry(store, bytes, number)?;
        Ok(number)
    }

    /// Writes a part, which has the number of the next change. After `Failed` the journal is to be
    /// opened again.
    pub fn append_part<D: Store>(&mut self, store: &mut D, bytes: &[u8]) -> Result<(), Failed>
        requires open { IsOpen self.old }
        requires spare { length bytes.now ≤ self.old.spare }
        requires short { length bytes.now < 2 ^ 32 }
        requires last { self.old.last + 1 < 2 ^ 64 }
        requires part { IsPart self.old bytes.now }
        ensures moved { OnOk result (self.new ≡ record self.old {
          current = behind_entry self.old.current (length bytes.now);
        }) }
        ensures kept { OnErr result (self.new ≡ self.old) }
        ensures writes { WritesFile (file_of self.old.current) (AddsEntry self.old bytes.now)
            (MayAddEntry self.old bytes.now) (D.view store.old) (D.view store.new) result }
        ensures images { Told (D.view store.old).tells ((contents : Contents)
            → HasContents self.old contents (D.view store.old)
            → Leaves (D.view store.old) (D.view store.new)
            (IsEntryImage self.old contents bytes.now (D.view store.old))) }
        ensures stands { Told (D.view store.old).tells ((contents : Contents)
            → HasContents self.old contents (D.view store.old) → OnOk result
            (HasContents self.new (with_payload contents bytes.now) (D.view store.new))) }
    {
        let last = self.last;
        self.add_entry(store, bytes, last)
    }

    /// Writes a snapshot of what the journal has come to into the other file, with the next
    /// generation, which becomes the current file; where none is open, into file 0 with generation
    /// 1. No entry stands behind it yet. Behind the last generation nothing is written. After
    /// `Failed` the journal is to be opened again.
    pub fn turn_over<D: Store>(&mut self, store: &mut D, snapshot: &[u8]) -> Result<(), Failed>
        ensures last { IsLast self.old
            → IsOk result × (self.new ≡ self.old) × (store.new ≡ store.old) }
        ensures moved { ¬ IsLast self.old → OnOk result
            (self.new ≡ turned_over self.old (length snapshot.now)) }
        ensures kept { OnErr result (self.new ≡ self.old) }
        ensures allowed { ¬ IsLast self.old → IsFront (next_head self.old) snapshot.now }
        ensures writes { ¬ IsLast self.old → WritesFile (next_file self.old.current)
            (IsAnew 0x4A (new_text (next_head self.old) snapshot.now))
            (AnewTorn 0x4A (new_text (next_head self.old) snapshot.now))
            (D.view store.old) (D.view store.new) result }
        ensures images { Told (D.view store.old).tells (¬ IsLast self.old
            → IsJournal self.old (D.view store.old)
            → Leaves (D.view store.old) (D.view store.new)
            (IsTurnedImage self.old snapshot.now (D.view store.old))) }
        ensures stands { Told (D.view store.old).tells (¬ IsLast self.old
            → IsJournal self.old (D.view store.old) → OnOk result (HasContents self.new
            (contents_of (next_head self.old) snapshot.now []) (D.view store.new))) }
    {
        self.write_next(store, snapshot)
    }

    /// Makes a journal of a snapshot alone, whatever the two files hold: closes both, and then
    /// writes generation 1 into file 0. `number` is that of the last change in the snapshot.
    pub fn fresh<D: Store>(
        alloc: Global,
        store: &mut D,
        number: u64,
        snapshot: &[u8],
    ) -> Result<Journal, Failed>
        ensures journal { IfOk result (λ journal. journal ≡ in_new_file 0 1
            (record { current = None; last = number; spare = 0 }) (length snapshot.now)) }
        ensures allowed { IsFront (first_head number) snapshot.now }
        ensures makes { MakesAnew (new_text (first_head number) snapshot.now)
            (D.view store.old) (D.view store.new) result }
        ensures stands { Told (D.view store.old).tells (IfOk result (λ journal. HasContents journal
            (contents_of (first_head number) snapshot.now []) (D.view store.new))) }
    {
        write_synced(store, 0, 0, &[0])?;
        write_synced(store, 1, 0, &[0])?;
        let current = write_file(store, 0, 1, number, snapshot)?;
        Ok(Journal::at(alloc, Some(current), number))
    }

    // The same, told of the one file that is written.
    fn write_next<D: Store>(&mut self, store: &mut D, snapshot: &[u8]) -> Result<(), Failed>
        ensures last { IsLast self.old
            → IsOk result × (self.new ≡ self.old) × (store.new ≡ store.old) }
        ensures moved { ¬ IsLast self.old → OnOk result
            (self.new ≡ turned_over self.old (length snapshot.now)) }
        ensures kept { OnErr result (self.new ≡ self.old) }
        ensures allowed { ¬ IsLast self.old → IsFront (next_head self.old) snapshot.now }
        ensures writes { ¬ IsLast self.old → WritesFile (next_file self.old.current)
            (IsAnew 0x4A (new_text (next_head self.old) snapshot.now))
            (AnewTorn 0x4A (new_text (next_head self.old) snapshot.now))
            (D.view store.old) (D.view store.new) result }
    {
        let Some((file, generation)) = next_place(self.current) else {
            return Ok(());
        };
        let next = write_file(store, file, generation, self.last, snapshot)?;
        self.current = Some(next);
        Ok(())
    }

    // Writes an entry with the next number, and moves the gate behind it, where the last change has
    // the number `last`.
    fn add_entry<D: Store>(&mut self, store: &mut D, bytes: &[u8], last: u64) -> Result<(), Failed>
        requires open { IsOpen self.old }
        requires spare { length bytes.now ≤ self.old.spare }
        requires short { length bytes.now < 2 ^ 32 }
        requires number { self.old.last + 1 < 2 ^ 64 }
        ensures moved { OnOk result (self.new ≡ record self.old {
          current = behind_entry self.old.current (length bytes.now);
          last = last;
        }) }
        ensures kept { OnErr result (self.new ≡ self.old) }
        ensures writes { WritesFile (file_of self.old.current) (AddsEntry self.old bytes.now)
            (MayAddEntry self.old bytes.now) (D.view store.old) (D.view store.new) result }
    {
        let Some(current) = self.current else {
            unreachable!()
        };
        let gate = write_in_room(store, current, self.last + 1, bytes, &mut self.text)?;
        self.current = Some(CurrentFile { gate, ..current });
        self.last = last;
        Ok(())
    }
}

// The file that is written next, and its generation, if there is one more.
fn next_place(current: Option<CurrentFile>) -> Option<(u32, u64)>
    requires { IsKnown current }
    ensures { MatchOption result (next_generation current ≡ 2 ^ 64)
        (λ next. (next.0 ≡ next_file current) × (next.1 ≡ next_generation current)) }
{
    match current {
        None => Some((0, 1)),
        Some(current) => Some((1 - current.file, current.generation.checked_add(1)?)),
    }
}

// Writes an entry at the gate, spelled in room that has been made for it. An entry without bytes of
// its own needs none.
fn write_in_room<D: Store>(
    store: &mut D,
    current: CurrentFile,
    number: u64,
    bytes: &[u8],
    room: &mut [u8],
) -> Result<u64, Failed>
    requires gate { current.gate + 1 < 2 ^ 64 }
    requires short { length bytes.now < 2 ^ 32 }
    requires room { length bytes.now ≤ length room.old - 45 }
    ensures next { IfOk result (λ next. next ≡ current.gate + (45 + length bytes.now)) }
    ensures fits { IfOk result (λ next. next + 1 < 2 ^ 64) }
    ensures kept { length room.new ≡ length room.old }
    ensures writes { WritesFile current.file
        (Overlays current.gate (0x45 ∷ (entry_text number bytes.now ++ 0 ∷ [])))
        (GatedTorn current.gate 0x45 (entry_text number bytes.now ++ 0 ∷ []))
        (D.view store.old) (D.view store.new) result }
{
    let size = bytes.len() + FRAME_SIZE;
    if room.len() < size {
        write_entry(store, current, number, bytes, &mut [0; FRAME_SIZE])
    } else {
        write_entry(store, current, number, bytes, &mut room[..size])
    }
}

// Writes an entry at the gate, spelled in `text`, and answers where the next gate stands.
fn write_entry<D: Store>(
    store: &mut D,
    current: CurrentFile,
    number: u64,
    bytes: &[u8],
    text: &mut [u8],
) -> Result<u64, Failed>
    requires gate { current.gate + 1 < 2 ^ 64 }
    requires short { length bytes.now < 2 ^ 32 }
    requires room { length text.old ≡ 45 + length bytes.now }
    ensures next { IfOk result (λ next. next ≡ current.gate + (45 + length bytes.now)) }
    ensures fits { IfOk result (λ next. next + 1 < 2 ^ 64) }
    ensures writes { WritesFile current.file
        (Overlays current.gate (0x45 ∷ (entry_text number bytes.now ++ 0 ∷ [])))
        (GatedTorn current.gate 0x45 (entry_text number bytes.now ++ 0 ∷ []))
        (D.view store.old) (D.view store.new) result }
{
    spell_entry(number, bytes, text);
    write_behind(store, current.file, current.gate, text)
}

// Writes what stands behind the gate of an entry, and then the gate. Answers the place of its last
// byte, which is the next gate.
fn write_behind<D: Store>(store: &mut D, file: u32, gate: u64, text: &[u8]) -> Result<u64, Failed>
    requires gate { gate + 1 < 2 ^ 64 }
    ensures next { IfOk result (λ next. next ≡ gate + length text.now) }
    ensures fits { IfOk result (λ next. next + 1 < 2 ^ 64) }
    ensures writes { WritesFile file (Overlays gate (0x45 ∷ text.now))
        (GatedTorn gate 0x45 text.now) (D.view store.old) (D.view store.new) result }
{
    match gate.checked_add(text.len() as u64) {
        Some(next) if next < u64::MAX => {
            write_gated(store, file, gate, ENTRY_GATE, text)?;
            Ok(next)
        }
        _ => {
            // No file is that long, so this fails.
            write_unsynced(store, file, gate + 1, text)?;
            unreachable!()
        }
    }
}

// Writes a file anew: a head with a snapshot, and no entry.
fn write_file<D: Store>(
    store: &mut D,
    file: u32,
    generation: u64,
    number: u64,
    snapshot: &[u8],
) -> Result<CurrentFile, Failed>
    ensures current { IfOk result (λ current. current ≡ record {
      file = file;
      form = 2;
      generation = generation;
      gate = 64 + length snapshot.now;
    }) }
    ensures writes { WritesFile file
        (IsAnew 0x4A (new_text (new_head generation number) snapshot.now))
        (AnewTorn 0x4A (new_text (new_head generation number) snapshot.now))
        (D.view store.old) (D.view store.new) result }
{
    let size = snapshot.len() as u64;
    let fields = spell_fields(generation, number, size);
    let digest = digest_of(&fields, snapshot);
    write_parts(store, file, &fields, &digest, snapshot)?;
    Ok(CurrentFile {
        file,
        form: FORM,
        generation,
        gate: FRONT_SIZE + size,
    })
}

// Writes a file anew of its parts, and the gate of its first entry, closed.
fn write_parts<D: Store>(
    store: &mut D,
    file: u32,
    fields: &[u8],
    digest: &[u8],
    snapshot: &[u8],
) -> Result<(), Failed>
    ensures { WritesFile file
        (IsAnew 0x4A (fields.now ++ (digest.now ++ (snapshot.now ++ (0 ∷ [])))))
        (AnewTorn 0x4A (fields.now ++ (digest.now ++ (snapshot.now ++ (0 ∷ [])))))
        (D.view store.old) (D.view store.new) result }
{
    write_anew(store, file, FILE_GATE, &[fields, digest, snapshot, &[0]])
}
