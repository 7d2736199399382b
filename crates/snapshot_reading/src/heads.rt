//! Heads of streams, as records have them.

ghost use Rattle.std.specs.Prelude.{◌≡◌, SomeIff, IsTrue};
ghost use Rattle.catalog_spelling.specs.Reading.{Gives};
ghost use Rattle.catalog_change.specs.Catalogues.{max_number};
ghost use Rattle.save_stream.specs.Reading.{is_level};
ghost use Rattle.catalog_spelling.specs.SnapshotHeads.{head_if_at};
ghost use Rattle.catalog_spelling.specs.Media.{is_next_drawn};
ghost use Rattle.catalog_spelling.specs.Records.{listed_ssid};

use crate::reading::MAX_NUMBER;
use catalog_spelling::ListedRecord;
use catalog_text::{
    FieldFault, allow, known, read_moment, read_name, read_text, read_u8, read_u64, read_u64_within,
};
use room_base::{MAX_MOMENT, Moment, Name, Ssid};
use save_stream::{Level, SetHead};
use std::alloc::Global;

/// The head of a stream whose ssid may stand behind those of these records.
#[tactic(auto, unfolding(catalog_spelling::specs::SnapshotHeads::head_if_at))]
pub(crate) fn read_head<'a>(
    alloc: Global,
    next_ssid: u64,
    before: &[ListedRecord],
    bytes: &'a [u8],
) -> Result<(SetHead, &'a [u8]), FieldFault>
    ensures { Gives (λ x. (x.0, x.1.now)) result
        (head_if_at (is_next_drawn max_number next_ssid listed_ssid before.now) bytes.now) }
{
    let (kind, at_ssid) = read_u8(bytes)?;
    allow(kind == b'H', bytes)?;
    let (ssid, at_base) = read_u64(at_ssid)?;
    allow(is_next_ssid(next_ssid, before, ssid), at_ssid)?;
    let (base, at_level) = read_u64(at_base)?;
    allow(base < ssid, at_base)?;
    let (rank, rest) = read_u8(at_level)?;
    let level = known(level_of(base, rank), at_level)?;
    let (saved, rest) = read_moment(rest)?;
    let (browse, rest) = read_moment(rest)?;
    let (retain, rest) = read_u64_within(browse.0, MAX_MOMENT.0, rest)?;
    let (client, rest) = read_name(alloc, 64, rest)?;
    let (set, rest) = read_name(alloc, 255, rest)?;
    let (group, rest) = read_text(0, 64, rest)?;
    let (pool, rest) = read_name(alloc, 64, rest)?;
    let head = SetHead {
        ssid: Ssid(ssid),
        base: Ssid(base),
        level,
        saved,
        browse,
        retain: Moment(retain),
        client,
        set,
        group: Name::from_text(alloc, group)?,
        pool,
    };
    Ok((head, rest))
}

fn is_next_ssid(next_ssid: u64, before: &[ListedRecord], ssid: u64) -> bool
    ensures { result ≡ is_next_drawn max_number next_ssid listed_ssid before.now ssid }
{
    1 <= ssid
        && (ssid < next_ssid || next_ssid == MAX_NUMBER)
        && match before.last() {
            Some(last) => last.row.ssid.0 < ssid,
            None => true,
        }
}

// A level has a base, but for the full one.
fn level_of(base: u64, rank: u8) -> Option<Level>
    ensures { SomeIff result (IsTrue (is_level base rank)) rank }
{
    if (base == 0) != (rank == 0) {
        return None;
    }
    Level::of(rank)
}
