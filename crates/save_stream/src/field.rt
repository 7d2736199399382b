//! Reads single fields.

ghost use Rattle.save_stream.specs.Reading.{GivesField, Allows, byte_at, number_at, bytes_at};
ghost use Rattle.save_stream.specs.Reading.{text_at, given_byte_at};

use crate::stop::Stop;
use byteorder::{BigEndian, ByteOrder};
use room_base::name_text;

/// A byte, and the bytes behind it.
pub(crate) fn byte_of(bytes: &[u8]) -> Result<(u8, &[u8]), Stop>
    ensures { GivesField (λ x. (x.0, x.1.now)) result (byte_at bytes.now) }
{
    match bytes {
        [] => Err(Stop::More),
        [byte, rest @ ..] => Ok((*byte, rest)),
    }
}

/// A number of two bytes.
#[tactic(auto, unfolding(crate::specs::Reading::number_at))]
pub(crate) fn u16_of(bytes: &[u8]) -> Result<(u16, &[u8]), Stop>
    ensures { GivesField (λ x. (x.0, x.1.now)) result (number_at 2 bytes.now) }
{
    if bytes.len() < 2 {
        return Err(Stop::More);
    }
    Ok((BigEndian::read_u16(bytes), &bytes[2..]))
}

/// A number of eight bytes.
#[tactic(auto, unfolding(crate::specs::Reading::number_at))]
pub(crate) fn u64_of(bytes: &[u8]) -> Result<(u64, &[u8]), Stop>
    ensures { GivesField (λ x. (x.0, x.1.now)) result (number_at 8 bytes.now) }
{
    if bytes.len() < 8 {
        return Err(Stop::More);
    }
    Ok((BigEndian::read_u64(bytes), &bytes[8..]))
}

/// So many bytes.
#[tactic(auto, unfolding(crate::specs::Reading::bytes_at))]
pub(crate) fn bytes_of(size: usize, bytes: &[u8]) -> Result<(&[u8], &[u8]), Stop>
    ensures { GivesField (λ x. (x.0.now, x.1.now)) result (bytes_at size bytes.now) }
{
    if bytes.len() < size {
        return Err(Stop::More);
    }
    Ok(bytes.split_at(size))
}

/// Judges the field that begins these bytes.
pub(crate) fn allow(allowed: bool, bytes: &[u8]) -> Result<(), Stop>
    ensures { Allows allowed bytes.now result }
{
    if !allowed {
        return Err(Stop::Wrong(bytes.len()));
    }
    Ok(())
}

/// A byte that has to be this one.
#[tactic(auto, unfolding(crate::specs::Reading::given_byte_at))]
pub(crate) fn expect_byte(given: u8, bytes: &[u8]) -> Result<(u8, &[u8]), Stop>
    ensures { GivesField (λ x. (x.0, x.1.now)) result (given_byte_at given bytes.now) }
{
    let (byte, rest) = byte_of(bytes)?;
    allow(byte == given, bytes)?;
    Ok((byte, rest))
}

/// A name of `least` to `most` bytes, behind its length.
#[tactic(auto, using(crate::proofs::Names::name_is, crate::proofs::Names::no_name), unfolding(crate::specs::Reading::text_at))]
pub(crate) fn text_of(least: u8, most: u8, bytes: &[u8]) -> Result<(&str, &[u8]), Stop>
    ensures { GivesField (λ x. (x.0.now, x.1.now)) result (text_at least most bytes.now) }
{
    let (size, start) = byte_of(bytes)?;
    allow(least <= size && size <= most, bytes)?;
    let (text, rest) = bytes_of(usize::from(size), start)?;
    match name_text(text) {
        Some(text) => Ok((text, rest)),
        None => Err(Stop::Wrong(start.len())),
    }
}
