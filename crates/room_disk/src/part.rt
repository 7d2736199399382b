ghost use Rattle.std.specs.Prelude.{◌≡◌, ◌<◌};
ghost use Rattle.room_disk.specs.Crashed.{part_of};

/// What a crash has done of each write and cut that was made since the last sync of its file.
#[derive(Clone, Copy)]
pub enum Part {
    Nothing,
    All,
    /// The range written or cut is full of 0xFF.
    Spoiled,
    /// The first half of the bytes is written; a cut is made.
    FirstHalf,
}

/// The part that stands for a choice of image.
pub fn part_of(choice: u8) -> Part
    requires { choice < 4 }
    ensures { result ≡ part_of choice }
{
    match choice {
        0 => Part::Nothing,
        1 => Part::All,
        2 => Part::Spoiled,
        _ => Part::FirstHalf,
    }
}
