//! The catalogue that a snapshot gives.

ghost use Rattle.std.specs.Prelude.{◌≡◌};
ghost use Rattle.catalog_change.specs.Catalogues.{IsCatalogue};
ghost use Rattle.catalog_spelling.specs.Snapshots.{catalogue_read};
ghost use Rattle.room_catalog.specs.Held.{catalogue_of};
ghost use Rattle.room_catalog.specs.Views.{lists_of_parts};
ghost use Rattle.journal_replay.specs.Answers.{GivesFirst};
ghost use Rattle.journal_replay.specs.Reading.{ReadsSnapshot};

use crate::fault::ReplayFault;
use catalog_spelling::{DecodeFault, Snapshot};
use resource_lists::Resources;
use room_catalog::{Catalogue, CatalogueParts};
use std::alloc::Global;

/// The catalogue of the file's snapshot, which has to have the number that its head says.
pub(crate) fn first_catalogue(
    alloc: Global,
    file: u32,
    number: u64,
    snapshot: &[u8],
) -> Result<Catalogue, ReplayFault>
    ensures { GivesFirst file number snapshot.now result }
{
    match read_snapshot(alloc, snapshot, true) {
        Ok(catalogue) => {
            if catalogue.number() != number {
                return Err(ReplayFault::Damaged { file, place: 0 });
            }
            Ok(catalogue)
        }
        Err(DecodeFault::Bad { .. }) => Err(ReplayFault::Damaged { file, place: 0 }),
        Err(DecodeFault::Memory) => Err(ReplayFault::Memory),
    }
}

/// The catalogue that the bytes of a snapshot spell, in which no part of an index waits; one that
/// was written without indexes has none. `Bad` names the first byte of the first field that isn't
/// allowed, as docs/formats.md has them.
pub fn read_snapshot(
    alloc: Global,
    bytes: &[u8],
    with_indexes: bool,
) -> Result<Catalogue, DecodeFault>
    ensures { ReadsSnapshot with_indexes bytes.now result }
{
    match snapshot_reading::read_snapshot(alloc, bytes, with_indexes) {
        Ok(snapshot) => Ok(Catalogue::of(alloc, parts_of(snapshot))),
        Err(fault) => Err(fault),
    }
}

// The parts of the catalogue that was read.
fn parts_of(snapshot: Snapshot) -> CatalogueParts
    requires { IsCatalogue (catalogue_read snapshot) }
    ensures { catalogue_of (lists_of_parts result) ≡ catalogue_read snapshot }
{
    CatalogueParts {
        number: snapshot.number,
        last_moment: snapshot.last_moment,
        next_ssid: snapshot.next_ssid,
        next_volid: snapshot.next_volid,
        resources: Resources::of(
            snapshot.policies,
            snapshot.pools,
            snapshot.clients,
            snapshot.schedules,
            snapshot.groups,
        ),
        slots: snapshot.slots,
        db: snapshot.db,
        index: snapshot.index,
    }
}
