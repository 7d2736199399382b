//! Days that are written as YYYY-MM-DD.

ghost use Rattle.std.specs.Prelude.{◌≤◌, ◌<◌, ◌^◌, ℕ, IfSome, MatchOption, length};
ghost use Rattle.resource_text.specs.Days.{IsDay, IsDayText, IsDecimal};

use jiff_core::civil::Date;

/// The last day that a schedule speaks of: 31 December 9998, counted from 1970-01-01.
const LAST_DAY: u32 = 2_932_531;

/// The day of a text, counted from 1970-01-01.
pub(crate) fn day_of(text: &str) -> Option<u32>
    ensures { MatchOption result ((day : ℕ) → ¬ (IsDayText text.now day)) (IsDayText text.now) }
{
    let text = text.as_bytes();
    if text.len() != 10 || text[4] != b'-' || text[7] != b'-' {
        return None;
    }
    let year = number_of(&text[..4])?;
    let month = number_of(&text[5..7])?;
    let number = number_of(&text[8..10])?;
    day_from(year, month, number)
}

// The day of a date, if there is such a date and it isn't before 1970 or behind the last day.
fn day_from(year: u16, month: u16, number: u16) -> Option<u32>
    requires year { year ≤ 9999 }
    requires month { month ≤ 99 }
    requires number { number ≤ 99 }
    ensures { MatchOption result ((day : ℕ) → ¬ (IsDay year month number day))
        (IsDay year month number) }
{
    let Ok(date) = Date::new(year as i16, month as i8, number as i8) else {
        return None;
    };
    match u32::try_from(date.to_unix_epoch_day()) {
        Ok(day) if day <= LAST_DAY => Some(day),
        _ => None,
    }
}

// The number that at most four digits stand for.
fn number_of(digits: &[u8]) -> Option<u16>
    requires { length digits.now ≤ 4 }
    ensures number { MatchOption result ((number : ℕ) → ¬ (IsDecimal digits.now number))
        (IsDecimal digits.now) }
    ensures bound { IfSome result (λ number. number < 10 ^ length digits.now) }
{
    let mut number = 0;
    for digit in digits {
        if *digit < b'0' || b'9' < *digit {
            return None;
        }
        number = number * 10 + u16::from(*digit - b'0');
    }
    Some(number)
}
