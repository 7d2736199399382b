//! Reads snapshots.

ghost use Rattle.std.specs.Prelude.{◌≡◌, ◌-◌, [], map, length, IfOk};
ghost use Rattle.catalog_spelling.specs.declared.fault.DecodeFault.TheVariants as faults;
ghost use Rattle.media_db.specs.Rows.{AreVolumes};
ghost use Rattle.catalog_spelling.specs.SnapshotDecoding.{AreMade, Decodes};
ghost use Rattle.catalog_spelling.specs.SpelledSnapshots.{IsSpelled};
ghost use Rattle.snapshot_reading.specs.Whole.{ReadsWhole};
ghost use Rattle.catalog_spelling.specs.Storing.{AreListed, AreStored, set_of};

use crate::reading::read_fields;
use catalog_spelling::{ListedRecord, Snapshot, SnapshotFields};
use catalog_text::{DecodeFault, FieldFault};
use client_index::ClientIndex;
use media_db::{MediaDb, VolumeRec};
use room_base::Memory;
use std::alloc::Global;

/// Reads a snapshot from all of the bytes.
pub fn read_snapshot(
    alloc: Global,
    bytes: &[u8],
    with_indexes: bool,
) -> Result<Snapshot, DecodeFault>
    ensures decodes { Decodes with_indexes bytes.now result }
    ensures spelled { IfOk result (λ snapshot. IsSpelled with_indexes bytes.now snapshot) }
{
    match read_whole(alloc, with_indexes, bytes) {
        Ok(fields) => match snapshot_of(alloc, fields) {
            Ok(snapshot) => Ok(snapshot),
            Err(Memory) => Err(DecodeFault::Memory),
        },
        Err(fault) => Err(fault),
    }
}

// The fields of a snapshot, behind which no bytes follow.
fn read_whole(alloc: Global, indexed: bool, bytes: &[u8]) -> Result<SnapshotFields, DecodeFault>
    ensures read { ReadsWhole indexed bytes.now result }
    ensures stored { IfOk result AreStored }
{
    match read_fields(alloc, indexed, bytes) {
        Ok((fields, rest)) => {
            if !rest.is_empty() {
                return Err(bad(bytes, rest.len()));
            }
            Ok(fields)
        }
        Err(FieldFault::Bad { behind }) => Err(bad(bytes, behind)),
        Err(FieldFault::Memory) => Err(DecodeFault::Memory),
    }
}

// A fault so many bytes before the end.
fn bad(bytes: &[u8], behind: usize) -> DecodeFault
    ensures { result ≡ faults.Bad (length bytes.now - behind) }
{
    DecodeFault::Bad {
        place: bytes.len().saturating_sub(behind) as u64,
    }
}

// The snapshot that has these fields.
fn snapshot_of(alloc: Global, fields: SnapshotFields) -> Result<Snapshot, Memory>
    requires { AreStored fields }
    ensures { IfOk result (λ snapshot. AreMade fields snapshot) }
{
    let db = db_of(alloc, fields.volumes.into_list())?;
    let (db, index) = stored(alloc, db, fields.records.into_list())?;
    Ok(Snapshot {
        number: fields.number,
        last_moment: fields.last_moment,
        next_ssid: fields.next_ssid,
        next_volid: fields.next_volid,
        policies: fields.lists.policies.into_list(),
        pools: fields.lists.pools.into_list(),
        clients: fields.lists.clients.into_list(),
        schedules: fields.lists.schedules.into_list(),
        groups: fields.lists.groups.into_list(),
        slots: fields.slots.into_list(),
        db,
        index,
    })
}

// A database of these volumes.
fn db_of(alloc: Global, volumes: Vec<VolumeRec>) -> Result<MediaDb, Memory>
    requires { AreVolumes volumes.items }
    ensures volumes { IfOk result (λ db. db.volumes ≡ volumes.items) }
    ensures records { IfOk result (λ db. db.records ≡ []) }
{
    let mut db = MediaDb::new(alloc);
    for volume in volumes {
        db.reserve_volume()?;
        db.put_volume(volume);
    }
    Ok(db)
}

// The records are put into the database, and their indexes into one of their own.
fn stored(
    alloc: Global,
    db: MediaDb,
    records: Vec<ListedRecord>,
) -> Result<(MediaDb, ClientIndex), Memory>
    requires empty { db.records ≡ [] }
    requires records { AreListed records.items }
    ensures records { IfOk result (λ x. x.0.records ≡ map (λ listed. listed.row) records.items) }
    ensures volumes { IfOk result (λ x. x.0.volumes ≡ db.volumes) }
    ensures index { IfOk result (λ x. x.1.sets ≡ map set_of records.items) }
{
    let mut db = db;
    let mut index = ClientIndex::new(alloc);
    for listed in records {
        let ssid = listed.row.ssid;
        db.reserve_record()?;
        db.put_record(listed.row);
        index.reserve()?;
        index.put(ssid, listed.index.into_list());
    }
    Ok((db, index))
}
