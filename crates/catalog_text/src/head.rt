//! Reads and writes heads of streams, as a change that begins a save has one.

ghost use Rattle.std.specs.Prelude.{◌≡◌, SomeIff, IsTrue};
ghost use Rattle.save_stream.specs.Reading.{is_level};
ghost use Rattle.save_stream.specs.Spelling.{IsHead, head_text};
ghost use Rattle.catalog_spelling.specs.Reading.{Gives};
ghost use Rattle.catalog_spelling.specs.Heads.{head_at};
ghost use Rattle.catalog_text.specs.Writing.{HasRoom, Appends};

use crate::FieldFault;
use crate::field::{allow, known, read_moment, read_u8, read_u64, read_u64_above, read_u64_within};
use crate::text::{read_name, read_text};
use room_base::{MAX_MOMENT, Moment, Name, Ssid};
use save_stream::{Level, SetHead, encode_head_into};
use std::alloc::Global;

/// The head of a stream.
#[tactic(auto, unfolding(catalog_spelling::specs::Heads::head_at))]
pub fn read_head(alloc: Global, bytes: &[u8]) -> Result<(SetHead, &[u8]), FieldFault>
    ensures { Gives (λ x. (x.0, x.1.now)) result (head_at bytes.now) }
{
    let (kind, rest) = read_u8(bytes)?;
    allow(kind == b'H', bytes)?;
    let (ssid, at_base) = read_u64_above(0, rest)?;
    let (base, at_level) = read_u64(at_base)?;
    allow(base < ssid, at_base)?;
    let (rank, rest) = read_u8(at_level)?;
    let level = known(level_of(base, rank), at_level)?;
    let (saved, rest) = read_moment(rest)?;
    let (browse, rest) = read_moment(rest)?;
    let (retain, rest) = read_u64_within(browse.0, MAX_MOMENT.0, rest)?;
    let (client, rest) = read_name(alloc, 64, rest)?;
    let (set, rest) = read_name(alloc, 255, rest)?;
    let (group, rest) = read_text(0, 64, rest)?;
    let (pool, rest) = read_name(alloc, 64, rest)?;
    let head = SetHead {
        ssid: Ssid(ssid),
        base: Ssid(base),
        level,
        saved,
        browse,
        retain: Moment(retain),
        client,
        set,
        group: Name::from_text(alloc, group)?,
        pool,
    };
    Ok((head, rest))
}

// A level has a base, but for the full one.
fn level_of(base: u64, rank: u8) -> Option<Level>
    ensures { SomeIff result (IsTrue (is_level base rank)) rank }
{
    if (base == 0) != (rank == 0) {
        return None;
    }
    Level::of(rank)
}

/// Appends the head of a stream, for which there is room.
pub fn put_head(into: &mut Vec<u8>, head: &SetHead)
    requires allowed { IsHead head.now }
    requires room { HasRoom into.old (head_text head.now) }
    ensures { Appends into.old into.new (head_text head.now) }
{
    encode_head_into(&head.parts(), into);
}
