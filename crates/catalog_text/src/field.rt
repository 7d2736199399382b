//! Reads single fields at the front of bytes. Each answers the value and the bytes behind it.

ghost use Rattle.std.specs.Prelude.{◌≡◌, length, IfOk};
ghost use Rattle.catalog_spelling.specs.Reading.{Gives, Allows, Knows};
ghost use Rattle.catalog_spelling.specs.Fields.{byte_at, number_at, bytes_at, byte_within_at};
ghost use Rattle.catalog_spelling.specs.Fields.{number_within_at, moment_at, code_at, flags};
ghost use Rattle.catalog_spelling.specs.Fields.{number_from_at, number_above_at, given_number_at};
ghost use Rattle.catalog_spelling.specs.Fields.{number_if_at};

use crate::FieldFault;
use byteorder::{BigEndian, ByteOrder};
use room_base::{MAX_MOMENT, Moment};

/// Judges the field that begins these bytes.
pub fn allow(allowed: bool, bytes: &[u8]) -> Result<(), FieldFault>
    ensures { Allows allowed bytes.now result }
{
    if !allowed {
        return Err(FieldFault::Bad {
            behind: bytes.len(),
        });
    }
    Ok(())
}

/// A byte.
pub fn read_u8(bytes: &[u8]) -> Result<(u8, &[u8]), FieldFault>
    ensures { Gives (λ x. (x.0, x.1.now)) result (byte_at bytes.now) }
{
    match bytes {
        [] => Err(FieldFault::Bad { behind: 0 }),
        [byte, rest @ ..] => Ok((*byte, rest)),
    }
}

/// A number of two bytes.
#[tactic(auto, unfolding(catalog_spelling::specs::Fields::number_at))]
pub fn read_u16(bytes: &[u8]) -> Result<(u16, &[u8]), FieldFault>
    ensures { Gives (λ x. (x.0, x.1.now)) result (number_at 2 bytes.now) }
{
    allow(bytes.len() >= 2, bytes)?;
    Ok((BigEndian::read_u16(bytes), &bytes[2..]))
}

/// A number of four bytes.
#[tactic(auto, unfolding(catalog_spelling::specs::Fields::number_at))]
pub fn read_u32(bytes: &[u8]) -> Result<(u32, &[u8]), FieldFault>
    ensures { Gives (λ x. (x.0, x.1.now)) result (number_at 4 bytes.now) }
{
    allow(bytes.len() >= 4, bytes)?;
    Ok((BigEndian::read_u32(bytes), &bytes[4..]))
}

/// A number of eight bytes.
#[tactic(auto, unfolding(catalog_spelling::specs::Fields::number_at))]
pub fn read_u64(bytes: &[u8]) -> Result<(u64, &[u8]), FieldFault>
    ensures { Gives (λ x. (x.0, x.1.now)) result (number_at 8 bytes.now) }
{
    allow(bytes.len() >= 8, bytes)?;
    Ok((BigEndian::read_u64(bytes), &bytes[8..]))
}

/// So many bytes.
#[tactic(auto, unfolding(catalog_spelling::specs::Fields::bytes_at))]
pub fn read_bytes(size: usize, bytes: &[u8]) -> Result<(&[u8], &[u8]), FieldFault>
    ensures read { Gives (λ x. (x.0.now, x.1.now)) result (bytes_at size bytes.now) }
    ensures size { IfOk result (λ x. length x.0.now ≡ size) }
{
    allow(bytes.len() >= size, bytes)?;
    Ok(bytes.split_at(size))
}

/// A digest of 32 bytes.
pub fn read_digest(bytes: &[u8]) -> Result<([u8; 32], &[u8]), FieldFault>
    ensures { Gives (λ x. (x.0, x.1.now)) result (bytes_at 32 bytes.now) }
{
    let (digest, rest) = read_bytes(32, bytes)?;
    Ok((<[u8; 32]>::try_from(digest).unwrap(), rest))
}

/// A byte from `least` to `most`.
#[tactic(auto, unfolding(catalog_spelling::specs::Fields::byte_within_at))]
pub fn read_u8_within(least: u8, most: u8, bytes: &[u8]) -> Result<(u8, &[u8]), FieldFault>
    ensures { Gives (λ x. (x.0, x.1.now)) result (byte_within_at least most bytes.now) }
{
    let (byte, rest) = read_u8(bytes)?;
    allow(least <= byte && byte <= most, bytes)?;
    Ok((byte, rest))
}

/// A number of two bytes from `least` to `most`.
#[tactic(auto, unfolding(catalog_spelling::specs::Fields::number_within_at))]
pub fn read_u16_within(least: u16, most: u16, bytes: &[u8]) -> Result<(u16, &[u8]), FieldFault>
    ensures { Gives (λ x. (x.0, x.1.now)) result (number_within_at 2 least most bytes.now) }
{
    let (number, rest) = read_u16(bytes)?;
    allow(least <= number && number <= most, bytes)?;
    Ok((number, rest))
}

/// A number of four bytes from `least` to `most`.
#[tactic(auto, unfolding(catalog_spelling::specs::Fields::number_within_at))]
pub fn read_u32_within(least: u32, most: u32, bytes: &[u8]) -> Result<(u32, &[u8]), FieldFault>
    ensures { Gives (λ x. (x.0, x.1.now)) result (number_within_at 4 least most bytes.now) }
{
    let (number, rest) = read_u32(bytes)?;
    allow(least <= number && number <= most, bytes)?;
    Ok((number, rest))
}

/// A number of eight bytes from `least` to `most`.
#[tactic(auto, unfolding(catalog_spelling::specs::Fields::number_within_at))]
pub fn read_u64_within(least: u64, most: u64, bytes: &[u8]) -> Result<(u64, &[u8]), FieldFault>
    ensures { Gives (λ x. (x.0, x.1.now)) result (number_within_at 8 least most bytes.now) }
{
    let (number, rest) = read_u64(bytes)?;
    allow(least <= number && number <= most, bytes)?;
    Ok((number, rest))
}

/// A number of eight bytes that is at least this one.
#[tactic(auto, unfolding(catalog_spelling::specs::Fields::number_from_at))]
pub fn read_u64_from(least: u64, bytes: &[u8]) -> Result<(u64, &[u8]), FieldFault>
    ensures { Gives (λ x. (x.0, x.1.now)) result (number_from_at 8 least bytes.now) }
{
    let (number, rest) = read_u64(bytes)?;
    allow(least <= number, bytes)?;
    Ok((number, rest))
}

/// A number of eight bytes that is above this one.
#[tactic(auto, unfolding(catalog_spelling::specs::Fields::number_above_at))]
pub fn read_u64_above(low: u64, bytes: &[u8]) -> Result<(u64, &[u8]), FieldFault>
    ensures { Gives (λ x. (x.0, x.1.now)) result (number_above_at 8 low bytes.now) }
{
    let (number, rest) = read_u64(bytes)?;
    allow(low < number, bytes)?;
    Ok((number, rest))
}

/// A number of eight bytes that has to be this one.
#[tactic(auto, unfolding(catalog_spelling::specs::Fields::given_number_at))]
pub fn expect_u64(given: u64, bytes: &[u8]) -> Result<(u64, &[u8]), FieldFault>
    ensures { Gives (λ x. (x.0, x.1.now)) result (given_number_at 8 given bytes.now) }
{
    let (number, rest) = read_u64(bytes)?;
    allow(number == given, bytes)?;
    Ok((number, rest))
}

/// A number of eight bytes, which has to be 0 where there is none.
#[tactic(auto, unfolding(catalog_spelling::specs::Fields::number_if_at))]
pub fn read_u64_if(some: bool, bytes: &[u8]) -> Result<(u64, &[u8]), FieldFault>
    ensures { Gives (λ x. (x.0, x.1.now)) result (number_if_at some bytes.now) }
{
    let (number, rest) = read_u64(bytes)?;
    allow(some || number == 0, bytes)?;
    Ok((number, rest))
}

/// What a byte at the front of these bytes stands for, where it stands for something.
pub fn known<X>(meaning: Option<X>, bytes: &[u8]) -> Result<X, FieldFault>
    ensures { Knows meaning bytes.now result }
{
    match meaning {
        Some(x) => Ok(x),
        None => Err(FieldFault::Bad {
            behind: bytes.len(),
        }),
    }
}

/// A moment that may be written.
pub fn read_moment(bytes: &[u8]) -> Result<(Moment, &[u8]), FieldFault>
    ensures { Gives (λ x. (x.0.0, x.1.now)) result (moment_at bytes.now) }
{
    let (moment, rest) = read_u64_within(0, MAX_MOMENT.0, bytes)?;
    Ok((Moment(moment), rest))
}

/// A byte that is 0 or 1.
#[tactic(auto, unfolding(catalog_spelling::specs::Fields::code_at))]
pub fn read_flag(bytes: &[u8]) -> Result<(bool, &[u8]), FieldFault>
    ensures { Gives (λ x. (x.0, x.1.now)) result (code_at flags bytes.now) }
{
    match bytes {
        [] => Err(FieldFault::Bad { behind: 0 }),
        [0, rest @ ..] => Ok((false, rest)),
        [1, rest @ ..] => Ok((true, rest)),
        [_, ..] => Err(FieldFault::Bad {
            behind: bytes.len(),
        }),
    }
}
