//! Parts of a target that stand for numbers and names.

ghost use Rattle.std.specs.Prelude.{◌≡◌};
ghost use Rattle.std.specs.Char.{is_ascii_digit};
ghost use Rattle.std.specs.List.{list_all};
ghost use Rattle.desk_command.specs.Fields.{decimal_of, most_u8, most_u64, name_part, number_part};
ghost use Rattle.desk_command.specs.Commands.{ssid_part};
ghost use Rattle.desk_command.specs.Outcomes.{Answers};

use crate::body::{MAX_NAME, name_of};
use crate::refusing::malformed;
use room_base::{Name, Refusal, Ssid};
use std::alloc::Global;

fn is_digits(part: &str) -> bool
    ensures { result ≡ list_all is_ascii_digit part.now }
{
    part.as_bytes().iter().all(|byte| byte.is_ascii_digit())
}

// The number that decimal digits write, without a sign.
fn decimal_of(part: &str) -> Option<u64>
    ensures { result ≡ decimal_of part.now }
{
    if part.is_empty() || !is_digits(part) {
        return None;
    }
    match part.parse::<u64>() {
        Ok(number) => Some(number),
        Err(_) => None,
    }
}

/// The number, at most `most`, that a part has to be.
fn number_part(alloc: Global, name: &str, part: &str, most: u64) -> Result<u64, Refusal>
    ensures { Answers (number_part name.now most part.now) result }
{
    match decimal_of(part) {
        Some(number) if number <= most => Ok(number),
        _ => Err(malformed(alloc, name)),
    }
}

/// The number of one byte that a part has to be.
pub(crate) fn u8_part(alloc: Global, name: &str, part: &str) -> Result<u8, Refusal>
    ensures { Answers (number_part name.now most_u8 part.now) result }
{
    let number = number_part(alloc, name, part, u64::from(u8::MAX))?;
    Ok(number as u8)
}

/// The number of eight bytes that a part has to be.
pub(crate) fn u64_part(alloc: Global, name: &str, part: &str) -> Result<u64, Refusal>
    ensures { Answers (number_part name.now most_u64 part.now) result }
{
    number_part(alloc, name, part, u64::MAX)
}

/// The number of a save set that the part `ssid` has to be.
pub(crate) fn ssid_part(alloc: Global, part: &str) -> Result<Ssid, Refusal>
    ensures { Answers (ssid_part part.now) result }
{
    Ok(Ssid(u64_part(alloc, "ssid", part)?))
}

/// The name that a part has to be.
pub(crate) fn name_part(alloc: Global, name: &str, part: &str) -> Result<Name, Refusal>
    ensures { Answers (name_part name.now part.now) result }
{
    name_of(alloc, name, part, MAX_NAME)
}
