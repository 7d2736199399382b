//! Laws of what is kept on a raw cartridge: each function has an empty body, and its contract is
//! the law.

ghost use Rattle.std.specs.Prelude.{◌≡◌, ℕ, List};
ghost use Rattle.room_base.specs.Outside.{ClockView};
ghost use Rattle.room_run.specs.Raw.{GivesFile};
ghost use Rattle.room_run.specs.Put.{HasOneFileMore};

/// The file that a `put` has kept is the one that a `get` of its number gives, and `get` can give
/// no other.
pub fn what_is_put_is_given()
    ensures given { (clock : ClockView) (cart number : ℕ) (bytes before after : List ℕ)
        → HasOneFileMore clock cart bytes before number after → GivesFile after number bytes }
    ensures alone { (disk : List ℕ) (number : ℕ) (bytes others : List ℕ)
        → GivesFile disk number bytes → GivesFile disk number others
        → bytes ≡ others }
{}
