ghost use Rattle.std.specs.Prelude.{◌≡◌, ◌≤◌, SomeIff};

use std::marker::Model;

/// The byte of the action that skips a day.
const SKIP: u8 = 11;

/// What a schedule does on a day: a save of some level, whose rank it is, or none at all, which is
/// 11. Contracts see it as its byte.
#[derive(Clone, Copy)]
pub struct Action {
    byte: u8,
}

impl Model for Action {
    ghost use Rattle.std.specs.Prelude.{ℕ, ◌≤◌};

    ghost Value = { ℕ };

    ghost view = { λ action. action.byte };

    ghost invariant = { λ action. action.byte ≤ 11 };

    ghost inverse = { λ byte. record { byte = byte } };
}

impl Action {
    /// The action of a byte: a level's rank from 0 to 10, or 11 for a day that is skipped.
    pub fn of(byte: u8) -> Option<Action>
        ensures { SomeIff result (byte ≤ 11) byte }
    {
        if byte > SKIP {
            return None;
        }
        Some(Action { byte })
    }

    pub fn byte(&self) -> u8
        ensures value { result ≡ self.now }
        ensures bound { result ≤ 11 }
    {
        self.byte
    }
}
