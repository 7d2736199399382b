//! Writes snapshots of a catalogue.

ghost use Rattle.std.specs.Prelude.{◌≡◌, length, IfOk};
ghost use Rattle.std.specs.Io.Iter.{u64_saturate};
ghost use Rattle.catalog_change.specs.Catalogues.{IsCatalogue};
ghost use Rattle.catalog_spelling.specs.Fits.{FitsCatalogue};
ghost use Rattle.catalog_spelling.specs.Snapshots.{catalogue_lent, kept_in, snapshot_text};
ghost use Rattle.catalog_spelling.specs.SpelledSnapshots.{IsText};
ghost use Rattle.catalog_text.specs.Writing.{Appends, HasRoom};
ghost use Rattle.room_catalog.specs.Held.{catalogue_of};

use room_base::Memory;
use room_catalog::Catalogue;
use snapshot_text::SnapshotParts;
use std::alloc::Global;

/// All that the catalogue holds in its one spelling, with the indexes of save sets or without.
/// Parts of an index that wait are not in it.
pub fn snapshot(catalogue: &Catalogue, alloc: Global, with_indexes: bool) -> Result<Vec<u8>, Memory>
    ensures { IfOk result
        (λ bytes. IsText with_indexes bytes.items (catalogue_of catalogue.now.lists)) }
{
    snapshot_text::snapshot(alloc, &lent(catalogue), with_indexes)
}

/// How many bytes a snapshot has, or the greatest number where that is less. Takes no memory.
pub fn snapshot_length(catalogue: &Catalogue, with_indexes: bool) -> u64
    ensures { result
        ≡ u64_saturate (length (snapshot_text with_indexes (catalogue_of catalogue.now.lists))) }
{
    snapshot_text::snapshot_length(&lent(catalogue), with_indexes)
}

/// Appends a snapshot. There is room for it, as many bytes as `snapshot_length` says, and no
/// memory is taken.
pub fn snapshot_into(catalogue: &Catalogue, with_indexes: bool, into: &mut Vec<u8>)
    requires { HasRoom into.old (snapshot_text with_indexes (catalogue_of catalogue.now.lists)) }
    ensures text { Appends into.old into.new
        (snapshot_text with_indexes (catalogue_of catalogue.now.lists)) }
    ensures fits { FitsCatalogue (kept_in with_indexes (catalogue_of catalogue.now.lists)) }
{
    snapshot_text::snapshot_into(&lent(catalogue), with_indexes, into);
}

// What a snapshot is written from.
fn lent(catalogue: &Catalogue) -> SnapshotParts<'_>
    ensures lent { catalogue_lent result ≡ catalogue_of catalogue.now.lists }
    ensures allowed { IsCatalogue (catalogue_of catalogue.now.lists) }
{
    SnapshotParts {
        number: catalogue.number(),
        last_moment: catalogue.last_moment(),
        next_ssid: catalogue.next_ssid(),
        next_volid: catalogue.next_volid(),
        policies: catalogue.policies(),
        pools: catalogue.pools(),
        clients: catalogue.clients(),
        schedules: catalogue.schedules(),
        groups: catalogue.groups(),
        slots: catalogue.slots(),
        db: catalogue.db(),
        index: catalogue.index(),
    }
}
