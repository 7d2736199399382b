ghost use Rattle.std.specs.Prelude.{◌≡◌, ◌≤◌, SomeIff};

use std::marker::Model;

/// The rank of the incremental level, the greatest one.
pub(crate) const MAX_RANK: u8 = 10;

/// The level of a save: rank 0 is full, 1 to 9 are the numbered ones, and 10 is incremental.
/// Contracts see it as its rank.
#[derive(Clone, Copy, PartialEq, Eq, PartialOrd, Ord)]
pub struct Level {
    rank: u8,
}

impl Model for Level {
    ghost use Rattle.std.specs.Prelude.{ℕ, ◌≤◌};

    ghost Value = { ℕ };

    ghost view = { λ level. level.rank };

    ghost invariant = { λ level. level.rank ≤ 10 };

    ghost inverse = { λ rank. record { rank = rank } };
}

impl Level {
    pub fn of(rank: u8) -> Option<Level>
        ensures { SomeIff result (rank ≤ 10) rank }
    {
        if rank > MAX_RANK {
            return None;
        }
        Some(Level::ranked(rank))
    }

    pub(crate) fn ranked(rank: u8) -> Level
        requires { rank ≤ 10 }
        ensures { result ≡ rank }
    {
        Level { rank }
    }

    pub fn rank(&self) -> u8
        ensures value { result ≡ self.now }
        ensures bound { result ≤ 10 }
    {
        self.rank
    }
}
