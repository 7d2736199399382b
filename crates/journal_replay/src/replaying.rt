//! Replays a journal.

ghost use Rattle.std.specs.Prelude.{◌≡◌, IfErr, IfOk};
ghost use Rattle.room_base.specs.Outside.{Told};
ghost use Rattle.room_disk.specs.Disk.{Image, Quiet};
ghost use Rattle.cat_journal.specs.Images.{IsJournal};
ghost use Rattle.cat_journal.specs.Journal.{IsKnown};
ghost use Rattle.cat_journal.specs.Opening.{Gives, GivesJournal};
ghost use Rattle.room_catalog.specs.Invariant.{IsHeld};
ghost use Rattle.room_effects.specs.View.{IsJournalOf};
ghost use Rattle.journal_replay.specs.Answers.{AnswersOf, CatalogueOf, IsNoFailure, IsSound};
ghost use Rattle.journal_replay.specs.Answers.{ReplayCause, ReplaysFile};

use crate::entries::replay_entries;
use crate::fault::ReplayFault;
use crate::snapshot::first_catalogue;
use cat_journal::{Entry, Journal, Opened};
use room_catalog::Catalogue;
use room_disk::Store;
use std::alloc::Global;

/// A journal that stands behind its last entry, and the catalogue behind it.
#[derive(Drop)]
pub struct Replayed {
    pub journal: Journal,
    pub catalogue: Catalogue,
}

/// Opens the journal on a disk, and applies its entries to the catalogue of its snapshot. Where no
/// file is open the catalogue is that of a room that has just been made. Both files are synced, and
/// nothing is written.
pub fn replay<D: Store>(alloc: Global, store: &mut D) -> Result<Replayed, ReplayFault>
    ensures told { Told (D.view store.old).tells (AnswersOf (D.view store.old).reads result) }
    ensures untold { IfOk result IsSound }
    ensures journal { Told (D.view store.old).tells
        (IfOk result (λ replayed. IsJournal replayed.journal (D.view store.new))) }
    ensures cause { ReplayCause (D.view store.old) (D.view store.new) result }
    ensures tells { (D.view store.new).tells ≡ (D.view store.old).tells }
    ensures quiet { Told (D.view store.old).tells (Quiet (D.view store.old) (D.view store.new)) }
{
    let opened = Journal::open(alloc, store)?;
    replay_opened(alloc, opened)
}

// Replays what was opened.
fn replay_opened(alloc: Global, opened: Opened) -> Result<Replayed, ReplayFault>
    requires { GivesJournal opened opened.file }
    ensures told { (files : Image) → Gives files opened opened.file → AnswersOf files result }
    ensures untold { IfOk result IsSound }
    ensures journal { IfOk result (λ replayed. replayed.journal ≡ opened.journal) }
    ensures fault { IfErr result IsNoFailure }
{
    let catalogue = opened_catalogue(alloc, &opened)?;
    Ok(put_together(opened.journal, catalogue))
}

// A journal and a catalogue, with what is always true of them.
fn put_together(journal: Journal, catalogue: Catalogue) -> Replayed
    ensures is { result ≡ record { journal = journal; catalogue = catalogue } }
    ensures known { IsKnown journal.current }
    ensures held { IsHeld catalogue.lists }
{
    let _is_open = journal.is_open();
    let _number = catalogue.number();
    Replayed { journal, catalogue }
}

// The catalogue of what was opened.
fn opened_catalogue(alloc: Global, opened: &Opened) -> Result<Catalogue, ReplayFault>
    requires { GivesJournal opened.now opened.now.file }
    ensures told { (files : Image) → Gives files opened.now opened.now.file
        → CatalogueOf files result }
    ensures untold { IfOk result (λ catalogue. IsKnown opened.now.journal.current
        → IsJournalOf catalogue.lists (record opened.now.journal { spare = 0 })) }
    ensures fault { IfErr result IsNoFailure }
{
    match opened.file {
        None => Ok(Catalogue::opening(alloc)?),
        Some(file) => replay_file(
            alloc,
            file,
            opened.journal.form(),
            opened.number,
            opened.snapshot.as_slice(),
            opened.entries.as_slice(),
        ),
    }
}

// Replays the current file, whose head says that number.
fn replay_file(
    alloc: Global,
    file: u32,
    form: u8,
    number: u64,
    snapshot: &[u8],
    entries: &[Entry],
) -> Result<Catalogue, ReplayFault>
    ensures { ReplaysFile file form number snapshot.now entries.now result }
{
    let mut catalogue = first_catalogue(alloc, file, number, snapshot)?;
    replay_entries(alloc, file, form, entries, &mut catalogue)?;
    Ok(catalogue)
}
