//! The words of levels, actions, periods and units.

ghost use Rattle.std.specs.Prelude.{◌≡◌, ◌≤◌, ℕ, List, MatchOption};
ghost use Rattle.room_rules.specs.declared.policy.Unit.{Unit as PolicyUnit};
ghost use Rattle.room_rules.specs.declared.schedule.Period.{Period as SchedulePeriod};
ghost use Rattle.resource_text.specs.Words.{IsActionWord, IsLevelWord, period_word, unit_word};

use room_rules::{Action, Period, Unit};
use save_stream::Level;

const INCR: u8 = 10;

const SKIP: u8 = 11;

/// What a word of a list can stand for.
pub(crate) trait Word: Drop {
    /// A text is the word of this.
    ghost stands: { List ℕ → Self → Type 0 };

    /// What a text is the word of.
    fn of_text(text: &str) -> Option<Self>
        ensures { MatchOption result ((word : Self) → ¬ (stands text.now word))
            (λ word. stands text.now word) };
}

impl Word for Level {
    ghost use Rattle.resource_text.specs.Words.{IsLevelWord};

    ghost stands = { IsLevelWord };

    fn of_text(text: &str) -> Option<Level>
        ensures { MatchOption result ((rank : ℕ) → ¬ (IsLevelWord text.now rank))
            (λ level. IsLevelWord text.now level) }
    {
        match rank_of(text) {
            Some(rank) => Level::of(rank),
            None => None,
        }
    }
}

impl Word for Action {
    ghost use Rattle.resource_text.specs.Words.{IsActionWord};

    ghost stands = { IsActionWord };

    fn of_text(text: &str) -> Option<Action>
        ensures { MatchOption result ((byte : ℕ) → ¬ (IsActionWord text.now byte))
            (λ action. IsActionWord text.now action) }
    {
        if text == "skip" {
            return Action::of(SKIP);
        }
        match rank_of(text) {
            Some(rank) => Action::of(rank),
            None => None,
        }
    }
}

// The rank of a level's word.
fn rank_of(word: &str) -> Option<u8>
    ensures { MatchOption result ((rank : ℕ) → ¬ (IsLevelWord word.now rank))
        (λ rank. IsLevelWord word.now rank × (rank ≤ 10)) }
{
    match word.as_bytes() {
        b"full" => Some(0),
        b"incr" => Some(INCR),
        [digit] if b'1' <= *digit && *digit <= b'9' => Some(*digit - b'0'),
        _ => None,
    }
}

/// The unit of a word.
pub(crate) fn unit_of(word: &str) -> Option<Unit>
    ensures { MatchOption result ((unit : PolicyUnit) → ¬ (word.now ≡ unit_word unit))
        (λ unit. word.now ≡ unit_word unit) }
{
    match word {
        "days" => Some(Unit::Days),
        "weeks" => Some(Unit::Weeks),
        "months" => Some(Unit::Months),
        "years" => Some(Unit::Years),
        _ => None,
    }
}

/// The period of a word.
pub(crate) fn period_of(word: &str) -> Option<Period>
    ensures { MatchOption result ((period : SchedulePeriod) → ¬ (word.now ≡ period_word period))
        (λ period. word.now ≡ period_word period) }
{
    match word {
        "week" => Some(Period::Week),
        "month" => Some(Period::Month),
        _ => None,
    }
}
