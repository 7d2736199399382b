//! Where a day, counted from 1970-01-01, stands in its week and in its month.

ghost use Rattle.std.specs.Prelude.{◌≡◌, ◌≤◌, pos};
ghost use Rattle.jiff.specs.Words.{epoch_day};
ghost use Rattle.sched_levels.specs.Actions.{place_in};
ghost use Rattle.sched_levels.specs.Calendar.{last_day, day_of_month, day_of_week};

use jiff::ToSpan;
use jiff::civil::{Date, date};
use room_rules::Period;

/// The last day that a schedule is asked of: 31 December 9998.
pub const LAST_DAY: u32 = 2_932_531;

/// The days of its week, from Sunday on, or of its month before a day.
pub(crate) fn place_of(period: Period, day: u32) -> usize
    requires { day ≤ last_day }
    ensures { result ≡ place_in period day }
{
    match period {
        Period::Week => days_behind_sunday(day),
        Period::Month => days_behind_first(day),
    }
}

fn days_behind_sunday(day: u32) -> usize
    requires { day ≤ last_day }
    ensures { result ≡ day_of_week day }
{
    date_of(day).weekday().to_sunday_zero_offset() as usize
}

fn days_behind_first(day: u32) -> usize
    requires { day ≤ last_day }
    ensures { result ≡ day_of_month day }
{
    date_of(day).day() as usize - 1
}

fn date_of(day: u32) -> Date
    requires { day ≤ last_day }
    ensures { epoch_day result ≡ pos day }
{
    date(1970, 1, 1) + i64::from(day).days()
}
