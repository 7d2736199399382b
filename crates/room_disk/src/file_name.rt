ghost use Rattle.std.specs.Prelude.{◌≡◌, ◌<◌, IfOk, MatchResult, string_bytes};
ghost use Rattle.room_disk.specs.Folder.{file_name};

use room_base::Failed;
use std::alloc::{AllocError, Global};

/// The number of files that have a name: the journal's two and 256 cartridges.
pub const NAMED: u32 = 258;

/// The name of a file. Fails for want of memory alone.
pub fn file_name(alloc: Global, file: u32) -> Result<String, Failed>
    requires { file < 258 }
    ensures { IfOk result (λ name. string_bytes name ≡ file_name file) }
{
    if file < 2 {
        return made(format!(in alloc; "journal.{file}"));
    }
    let cart = file - 1;
    let (hundreds, tens, ones) = (cart / 100, cart / 10 % 10, cart % 10);
    made(format!(in alloc; "cart.{hundreds}{tens}{ones}"))
}

fn made(name: Result<String, AllocError>) -> Result<String, Failed>
    ensures { IfOk result (λ text. MatchResult name
        (λ same. string_bytes text ≡ string_bytes same) (λ _. ⊥)) }
{
    match name {
        Ok(name) => Ok(name),
        Err(AllocError) => Err(Failed),
    }
}
