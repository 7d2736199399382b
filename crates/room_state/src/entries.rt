//! The journal, with memory in which its entries are spelled.

ghost use Rattle.std.specs.Prelude.{◌≡◌, ◌≤◌, ◌<◌, ◌+◌, ◌^◌, length, IfOk, OnOk, OnErr};
ghost use Rattle.std.specs.Prelude.{vec_capacity};
ghost use Rattle.std.specs.Option.{is_some};
ghost use Rattle.room_base.specs.Numbers.{max_moment};
ghost use Rattle.room_disk.specs.Crash.{IsAnew, AnewTorn};
ghost use Rattle.room_disk.specs.Writing.{WritesFile};
ghost use Rattle.cat_journal.specs.Contents.{IsFront};
ghost use Rattle.cat_journal.specs.Journal.{AddsEntry, IsKnown, IsLast, IsOpen, IsPart};
ghost use Rattle.cat_journal.specs.Journal.{MayAddEntry, file_of, form_of, new_text, next_file};
ghost use Rattle.cat_journal.specs.Journal.{next_head, turned_over};
ghost use Rattle.catalog_change.specs.Changes.{IsChange};
ghost use Rattle.catalog_spelling.specs.Decoding.{IsStamped};
ghost use Rattle.room_effects.specs.Effects.{behind_change, behind_part, entry_bytes, is_at_last};
ghost use Rattle.room_state.specs.Memory.{without_spare};

use cat_journal::Journal;
use catalog_change::Change;
use catalog_text::encode_change_into;
use room_base::{Failed, Memory, Moment};
use room_disk::Store;
use std::alloc::Global;
use std::marker::Model;

/// The journal, and the list in which the bytes of an entry are spelled before they are written.
/// Contracts see it as a journal that has memory for entries of some length.
#[derive(Drop)]
pub(crate) struct EntryJournal {
    journal: Journal,
    text: Vec<u8>,
}

impl Model for EntryJournal {
    ghost use Rattle.cat_journal.specs.Journal.{JournalView};

    ghost Value = { JournalView };

    ghost use Rattle.room_state.specs.Inside.{journal_view};

    ghost view = { journal_view };
}

impl EntryJournal {
    /// Takes no memory.
    pub(crate) fn of(alloc: Global, journal: Journal) -> EntryJournal
        ensures { without_spare result ≡ without_spare journal }
    {
        EntryJournal {
            journal,
            text: Vec::new(alloc),
        }
    }

    pub(crate) fn form(&self) -> u8
        ensures { result ≡ form_of self.now.current }
    {
        self.journal.form()
    }

    pub(crate) fn is_open(&self) -> bool
        ensures open { result ≡ is_some self.now.current }
        ensures known { IsKnown self.now.current }
    {
        self.journal.is_open()
    }

    pub(crate) fn is_at_last(&self) -> bool
        ensures { result ≡ is_at_last self.now }
    {
        self.journal.is_at_last()
    }

    /// Makes memory for an entry of that length, and keeps what there is.
    pub(crate) fn reserve(&mut self, length: u32) -> Result<(), Memory>
        ensures ok { OnOk result (length ≤ self.new.spare) }
        ensures no_less { self.old.spare ≤ self.new.spare }
        ensures kept { without_spare self.new ≡ without_spare self.old }
    {
        self.journal.reserve(length)?;
        self.text.clear();
        self.text.reserve(length as usize)?;
        Ok(())
    }

    /// Writes a change behind the last entry, and answers its number.
    pub(crate) fn append<D: Store>(
        &mut self,
        store: &mut D,
        m: Moment,
        change: &Change,
    ) -> Result<u64, Failed>
        requires open { IsOpen self.old }
        requires spare { length (entry_bytes m change.now) ≤ self.old.spare }
        requires short { length (entry_bytes m change.now) < 2 ^ 32 }
        requires last { self.old.last + 1 < 2 ^ 64 }
        requires moment { m.0 ≤ max_moment }
        requires allowed { IsChange change.now }
        requires whole { ¬ IsPart self.old (entry_bytes m change.now) }
        ensures number { IfOk result (λ number. number ≡ self.old.last + 1) }
        ensures moved { OnOk result (without_spare self.new
            ≡ behind_change (length (entry_bytes m change.now)) (without_spare self.old)) }
        ensures kept { OnErr result (without_spare self.new ≡ without_spare self.old) }
        ensures spare { self.old.spare ≤ self.new.spare }
        ensures written { IsStamped m.0 change.now }
        ensures known { OnOk result (IsKnown self.new.current) }
        ensures writes { WritesFile (file_of self.old.current)
            (AddsEntry self.old (entry_bytes m change.now))
            (MayAddEntry self.old (entry_bytes m change.now))
            (D.view store.old) (D.view store.new) result }
    {
        spell(m, change, &mut self.text);
        match self.journal.append(store, &self.text) {
            Ok(number) => {
                let _open = self.journal.is_open();
                Ok(number)
            }
            Err(failed) => Err(failed),
        }
    }

    /// Writes a part of an index, which has the number of the next change.
    pub(crate) fn append_part<D: Store>(
        &mut self,
        store: &mut D,
        m: Moment,
        part: &Change,
    ) -> Result<(), Failed>
        requires open { IsOpen self.old }
        requires spare { length (entry_bytes m part.now) ≤ self.old.spare }
        requires short { length (entry_bytes m part.now) < 2 ^ 32 }
        requires last { self.old.last + 1 < 2 ^ 64 }
        requires moment { m.0 ≤ max_moment }
        requires allowed { IsChange part.now }
        requires part { IsPart self.old (entry_bytes m part.now) }
        ensures moved { OnOk result (without_spare self.new
            ≡ behind_part (length (entry_bytes m part.now)) (without_spare self.old)) }
        ensures kept { OnErr result (without_spare self.new ≡ without_spare self.old) }
        ensures spare { self.old.spare ≤ self.new.spare }
        ensures written { IsStamped m.0 part.now }
        ensures known { OnOk result (IsKnown self.new.current) }
        ensures writes { WritesFile (file_of self.old.current)
            (AddsEntry self.old (entry_bytes m part.now))
            (MayAddEntry self.old (entry_bytes m part.now))
            (D.view store.old) (D.view store.new) result }
    {
        spell(m, part, &mut self.text);
        match self.journal.append_part(store, &self.text) {
            Ok(()) => {
                let _open = self.journal.is_open();
                Ok(())
            }
            Err(failed) => Err(failed),
        }
    }

    /// Writes a snapshot into the other file, which becomes the current one. There is a generation
    /// for it.
    pub(crate) fn turn_over<D: Store>(
        &mut self,
        store: &mut D,
        snapshot: &[u8],
    ) -> Result<(), Failed>
        requires next { ¬ IsLast self.old }
        ensures moved { OnOk result (without_spare self.new
            ≡ turned_over (without_spare self.old) (length snapshot.now)) }
        ensures kept { OnErr result (without_spare self.new ≡ without_spare self.old) }
        ensures spare { self.old.spare ≤ self.new.spare }
        ensures allowed { IsFront (next_head self.old) snapshot.now }
        ensures writes { WritesFile (next_file self.old.current)
            (IsAnew 0x4A (new_text (next_head self.old) snapshot.now))
            (AnewTorn 0x4A (new_text (next_head self.old) snapshot.now))
            (D.view store.old) (D.view store.new) result }
    {
        self.journal.turn_over(store, snapshot)
    }
}

// Spells a change in the list, which has room for it.
fn spell(m: Moment, change: &Change, text: &mut Vec<u8>)
    requires moment { m.0 ≤ max_moment }
    requires allowed { IsChange change.now }
    requires room { length (entry_bytes m change.now) ≤ vec_capacity text.old }
    ensures text { text.new.items ≡ entry_bytes m change.now }
    ensures room { vec_capacity text.old ≤ vec_capacity text.new }
    ensures written { IsStamped m.0 change.now }
{
    text.clear();
    encode_change_into(m, change, text);
}
