//! Reads the head of a stream.

ghost use Rattle.std.specs.Prelude.{◌≡◌, ◌≤◌, IfOk, IsTrue};
ghost use Rattle.save_stream.specs.Heads.{ReadsHead};
ghost use Rattle.save_stream.specs.Reading.{GivesField, HeadNames, head_from, ssid_at, base_at};
ghost use Rattle.save_stream.specs.Reading.{level_at, is_level, moment_at, numbers_at, names_at};
ghost use Rattle.save_stream.specs.Reading.{head_at};
ghost use Rattle.save_stream.specs.Texts.{names_of};

use crate::encode::HEAD_KIND;
use crate::field::{allow, byte_of, expect_byte, text_of, u64_of};
use crate::level::MAX_RANK;
use crate::stop::Stop;
use crate::{HeadFault, Level, SetHead};
use room_base::{MAX_MOMENT, Memory, Moment, Name, Ssid};
use std::alloc::Global;

/// The fields of a head before its texts.
#[derive(Clone, Copy)]
pub(crate) struct HeadNumbers {
    ssid: Ssid,
    base: Ssid,
    rank: u8,
    saved: Moment,
    browse: Moment,
    retain: Moment,
}

/// The texts of a head.
#[derive(Clone, Copy)]
pub(crate) struct HeadTexts<'a> {
    client: &'a str,
    set: &'a str,
    group: &'a str,
    pool: &'a str,
}

/// Reads the head at the front of these bytes, and answers it with the bytes behind it.
pub fn read_head(alloc: Global, bytes: &[u8]) -> Result<(SetHead, &[u8]), HeadFault>
    ensures { ReadsHead (λ x. x.0) (λ x. x.1.now) bytes.now result }
{
    match head_of(alloc, bytes) {
        Ok((head, rest)) => Ok((head, rest)),
        Err(Stop::More) => Err(HeadFault::Incomplete),
        Err(Stop::Wrong(behind)) => Err(HeadFault::Bad {
            offset: (bytes.len() - behind) as u64,
        }),
        // A head is no entry, so that there are never too many.
        Err(Stop::Full | Stop::Memory) => Err(HeadFault::Memory),
    }
}

/// The head that begins these bytes, and the bytes behind it.
#[tactic(auto, unfolding(crate::specs::Reading::head_at))]
pub(crate) fn head_of(alloc: Global, bytes: &[u8]) -> Result<(SetHead, &[u8]), Stop>
    ensures { GivesField (λ x. (x.0, x.1.now)) result (head_at bytes.now) }
{
    let (numbers, rest) = numbers_of(bytes)?;
    let (texts, rest) = texts_of(rest)?;
    match made_head(alloc, &numbers, &texts) {
        Ok(head) => Ok((head, rest)),
        Err(Memory) => Err(Stop::Memory),
    }
}

fn made_head(alloc: Global, numbers: &HeadNumbers, texts: &HeadTexts) -> Result<SetHead, Memory>
    requires { numbers.now.rank ≤ 10 }
    ensures { IfOk result (λ head. head ≡ head_from numbers.now (names_of texts.now)) }
{
    Ok(SetHead {
        ssid: numbers.ssid,
        base: numbers.base,
        level: Level::ranked(numbers.rank),
        saved: numbers.saved,
        browse: numbers.browse,
        retain: numbers.retain,
        client: Name::from_text(alloc, texts.client)?,
        set: Name::from_text(alloc, texts.set)?,
        group: Name::from_text(alloc, texts.group)?,
        pool: Name::from_text(alloc, texts.pool)?,
    })
}

#[tactic(auto, unfolding(crate::specs::Reading::numbers_at))]
fn numbers_of(bytes: &[u8]) -> Result<(HeadNumbers, &[u8]), Stop>
    ensures read { GivesField (λ x. (x.0, x.1.now)) result (numbers_at bytes.now) }
    ensures level { IfOk result (λ x. x.0.rank ≤ 10) }
{
    let (_, rest) = expect_byte(HEAD_KIND, bytes)?;
    let (ssid, rest) = ssid_of(rest)?;
    let (base, rest) = base_of(ssid, rest)?;
    let (rank, rest) = level_of(base, rest)?;
    let (saved, rest) = moment_of(0, rest)?;
    let (browse, rest) = moment_of(0, rest)?;
    let (retain, rest) = moment_of(browse, rest)?;
    let numbers = HeadNumbers {
        ssid: Ssid(ssid),
        base: Ssid(base),
        rank,
        saved: Moment(saved),
        browse: Moment(browse),
        retain: Moment(retain),
    };
    Ok((numbers, rest))
}

#[tactic(auto, unfolding(crate::specs::Reading::ssid_at))]
fn ssid_of(bytes: &[u8]) -> Result<(u64, &[u8]), Stop>
    ensures { GivesField (λ x. (x.0, x.1.now)) result (ssid_at bytes.now) }
{
    let (ssid, rest) = u64_of(bytes)?;
    allow(0 < ssid, bytes)?;
    Ok((ssid, rest))
}

#[tactic(auto, unfolding(crate::specs::Reading::base_at))]
fn base_of(ssid: u64, bytes: &[u8]) -> Result<(u64, &[u8]), Stop>
    ensures { GivesField (λ x. (x.0, x.1.now)) result (base_at ssid bytes.now) }
{
    let (base, rest) = u64_of(bytes)?;
    allow(base < ssid, bytes)?;
    Ok((base, rest))
}

#[tactic(auto, unfolding(crate::specs::Reading::level_at))]
fn level_of(base: u64, bytes: &[u8]) -> Result<(u8, &[u8]), Stop>
    ensures read { GivesField (λ x. (x.0, x.1.now)) result (level_at base bytes.now) }
    ensures level { IfOk result (λ x. x.0 ≤ 10) }
{
    let (rank, rest) = byte_of(bytes)?;
    allow(is_level(base, rank), bytes)?;
    Ok((rank, rest))
}

// A level has a base, but for the full one.
fn is_level(base: u64, rank: u8) -> bool
    ensures level { result ≡ is_level base rank }
    ensures bound { IsTrue result → rank ≤ 10 }
{
    if base == 0 {
        rank == 0
    } else {
        0 < rank && rank <= MAX_RANK
    }
}

#[tactic(auto, unfolding(crate::specs::Reading::moment_at))]
fn moment_of(least: u64, bytes: &[u8]) -> Result<(u64, &[u8]), Stop>
    ensures { GivesField (λ x. (x.0, x.1.now)) result (moment_at least bytes.now) }
{
    let (moment, rest) = u64_of(bytes)?;
    allow(least <= moment && moment <= MAX_MOMENT.0, bytes)?;
    Ok((moment, rest))
}

#[tactic(auto, unfolding(crate::specs::Reading::names_at))]
fn texts_of(bytes: &[u8]) -> Result<(HeadTexts<'_>, &[u8]), Stop>
    ensures { GivesField (λ x. (names_of x.0, x.1.now)) result (names_at bytes.now) }
{
    let (client, rest) = text_of(1, 64, bytes)?;
    let (set, rest) = text_of(1, 255, rest)?;
    let (group, rest) = text_of(0, 64, rest)?;
    let (pool, rest) = text_of(1, 64, rest)?;
    let texts = HeadTexts {
        client,
        set,
        group,
        pool,
    };
    Ok((texts, rest))
}
