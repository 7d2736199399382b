//! The entries of a journal, applied one behind the other.

ghost use Rattle.std.specs.Prelude.{◌≡◌, ◌↔◌, IsTrue};
ghost use Rattle.catalog_change.specs.Changes.{IsChange};
ghost use Rattle.room_effects.specs.Replaying.{MayFollow, MayStandIn};
ghost use Rattle.journal_replay.specs.Answers.{ReplaysEntries, TellsChange};

use crate::fault::ReplayFault;
use cat_journal::Entry;
use catalog_text::{DecodeFault, decode_change};
use room_base::Memory;
use room_catalog::{Catalogue, Change};
use std::alloc::Global;

/// The form of the files that have parts of an index.
const FORM_WITH_PARTS: u8 = 2;

/// Applies the entries of a file, up to the first that tells no change.
pub(crate) fn replay_entries(
    alloc: Global,
    file: u32,
    form: u8,
    entries: &[Entry],
    catalogue: &mut Catalogue,
) -> Result<(), ReplayFault>
    ensures { ReplaysEntries file form entries.now catalogue.old.lists catalogue.new.lists result }
{
    for entry in entries {
        if !apply_entry(alloc, form, entry.bytes.as_slice(), catalogue)? {
            return Err(ReplayFault::Damaged {
                file,
                place: entry.place,
            });
        }
    }
    Ok(())
}

// Applies the change that an entry tells, and answers whether it tells one.
fn apply_entry(
    alloc: Global,
    form: u8,
    bytes: &[u8],
    catalogue: &mut Catalogue,
) -> Result<bool, Memory>
    ensures { TellsChange form bytes.now catalogue.old.lists catalogue.new.lists result }
{
    let (moment, change) = match decode_change(alloc, bytes) {
        Ok(stamped) => stamped,
        Err(DecodeFault::Bad { .. }) => return Ok(false),
        Err(DecodeFault::Memory) => return Err(Memory),
    };
    if !may_follow(form, catalogue, &change) {
        return Ok(false);
    }
    catalogue.prepare(&change)?;
    let number = catalogue.number() + 1;
    catalogue.apply(number, moment, change);
    Ok(true)
}

// Whether the change may come behind the entries that left this catalogue.
fn may_follow(form: u8, catalogue: &Catalogue, change: &Change) -> bool
    requires { IsChange change.now }
    ensures { IsTrue result ↔ MayFollow form catalogue.now.lists change.now }
{
    may_stand_in(form, change) && catalogue.fits(change) && catalogue.parts_fit(change)
}

// Whether a file of that form may have the change.
fn may_stand_in(form: u8, change: &Change) -> bool
    ensures { IsTrue result ↔ MayStandIn form change.now }
{
    match change {
        Change::IndexPart { .. } => form == FORM_WITH_PARTS,
        Change::FinishedParts { .. } => form == FORM_WITH_PARTS,
        _ => true,
    }
}
