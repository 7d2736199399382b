//! How many bytes changes have.

ghost use Rattle.std.specs.Prelude.{◌≡◌, ◌+◌, ◌*◌, ◌<◌, ◌^◌, ℕ, length};
ghost use Rattle.catalog_change.specs.Changes.{IsChange};
ghost use Rattle.catalog_spelling.specs.Changes.{fields_text, change_text};

use crate::entry::Entries;
use crate::list::items_length;
use crate::names::text_length;
use crate::resource::Resources;
use catalog_change::Change;
use media_db::Section;
use room_base::Items;
use save_stream::head_length;

/// How many bytes the text of a change has, with its moment.
#[tactic(auto, using(crate::proofs::ChangeLengths::length_change))]
pub fn change_length(change: &Change) -> u64
    requires { IsChange change.now }
    ensures { (moment : ℕ) → result ≡ length (change_text moment change.now) }
{
    9 + fields_length(change)
}

#[tactic(auto, using(crate::proofs::ChangeLengths::change_lengths))]
fn fields_length(change: &Change) -> u64
    requires { IsChange change.now }
    ensures length { result ≡ length (fields_text change.now) }
    ensures bound { result < 2 ^ 60 }
{
    match change {
        Change::Defined { resources } => 4 + items_length::<Resources>(resources.as_slice()),
        Change::Dropped { kind: _, name } => 1 + text_length(name),
        Change::Loaded { .. } => 5,
        Change::Ejected { .. } => 1,
        Change::Labelled { pool, .. } => 24 + text_length(pool),
        Change::Begun { head } => head_length(&head.parts()),
        Change::Finished {
            digest,
            sections,
            index,
            ..
        } => stream_length(digest, sections) + 4 + items_length::<Entries>(index.as_slice()),
        Change::Aborted { .. } | Change::Deleted { .. } => 8,
        Change::Amended { .. } => 25,
        Change::Purged { ssids } => 4 + 8 * ssids.as_slice().len() as u64,
        Change::CopyBegun { .. } => 12,
        Change::CopyDone { sections, .. } => 20 + 48 * sections.as_slice().len() as u64,
        Change::IndexPart { index, .. } => 16 + items_length::<Entries>(index.as_slice()),
        Change::FinishedParts {
            digest,
            sections,
            ..
        } => stream_length(digest, sections),
    }
}

fn stream_length(digest: &[u8; 32], sections: &Items<Section>) -> u64
    requires { length sections.now < 2 ^ 32 }
    ensures length { result ≡ 24 + length digest.now + 48 * length sections.now }
    ensures bound { result < 2 ^ 40 }
{
    24 + digest.len() as u64 + 48 * sections.as_slice().len() as u64
}
