//! Reads the fields of a snapshot.

ghost use Rattle.std.specs.Prelude.{◌≡◌, IfOk};
ghost use Rattle.catalog_spelling.specs.Reading.{Gives};
ghost use Rattle.catalog_spelling.specs.Snapshots.{snapshot_at};
ghost use Rattle.catalog_spelling.specs.Storing.{AreStored};

use crate::lists::{has_lasting, read_lists};
use crate::records::read_listed_records;
use crate::slots::read_slots;
use crate::volumes::read_listed_volumes;
use catalog_spelling::SnapshotFields;
use catalog_text::{FieldFault, allow, read_moment, read_u8, read_u64_within};
use room_base::{Ssid, Volid};
use std::alloc::Global;

/// The byte that a snapshot begins with, and the form of snapshots, which follows: those that are
/// written, as `snapshot_at` and `front_text` say.
const SNAPSHOT_KIND: u8 = b'B';

const FORM: u8 = 1;

/// The greatest number of a change, of the next save set and of the next volume.
pub(crate) const MAX_NUMBER: u64 = 9_223_372_036_854_775_807;

/// The fields of a snapshot at the front of bytes.
#[tactic(auto, unfolding(catalog_spelling::specs::Snapshots::snapshot_at))]
pub(crate) fn read_fields(
    alloc: Global,
    indexed: bool,
    bytes: &[u8],
) -> Result<(SnapshotFields, &[u8]), FieldFault>
    ensures read { Gives (λ x. (x.0, x.1.now)) result (snapshot_at indexed bytes.now) }
    ensures stored { IfOk result (λ x. AreStored x.0) }
{
    let (kind, at_form) = read_u8(bytes)?;
    allow(kind == SNAPSHOT_KIND, bytes)?;
    let (form, rest) = read_u8(at_form)?;
    allow(form == FORM, at_form)?;
    let (number, rest) = read_u64_within(0, MAX_NUMBER, rest)?;
    let (last_moment, rest) = read_moment(rest)?;
    let (next_ssid, rest) = read_u64_within(1, MAX_NUMBER, rest)?;
    let (next_volid, rest) = read_u64_within(1, MAX_NUMBER, rest)?;
    let (lists, rest) = read_lists(alloc, rest)?;
    let (slots, rest) = read_slots(alloc, has_lasting(&lists), rest)?;
    let (volumes, rest) = read_listed_volumes(alloc, next_volid, rest)?;
    let (records, rest) = read_listed_records(alloc, next_ssid, indexed, rest)?;
    let fields = SnapshotFields {
        number,
        last_moment,
        next_ssid: Ssid(next_ssid),
        next_volid: Volid(next_volid),
        lists,
        slots,
        volumes,
        records,
    };
    Ok((fields, rest))
}
