ghost use Rattle.std.specs.Prelude.{◌≡◌, ◌≤◌, IfOk, length};
ghost use Rattle.room_base.specs.Outside.{Told};
ghost use Rattle.room_disk.specs.Folder.{KeepsFiles, ReadsSome, ReadsAll};

use crate::folder::Folder;
use room_base::Failed;

/// How often a read that a signal interrupted is tried again.
const TRIES: u32 = 64;

/// Reads on until the room is full or the file ends.
#[tactic(auto, using(crate::proofs::ReadingOn::keeps_none, crate::proofs::ReadingOn::keeps_then))]
pub fn read_all<F: Folder>(
    folder: &mut F,
    file: &F::File,
    at: u64,
    into: &mut [u8],
) -> Result<u64, Failed>
    ensures within { IfOk result (λ count. count ≤ length into.old) }
    ensures kept { Told F.tells (KeepsFiles (F.view folder.old) (F.view folder.new)) }
    ensures given { Told F.tells (IfOk result (λ count.
        ReadsAll ((F.view folder.old).disk.reads (F.number file.now)) at into.old into.new count)) }
{
    let mut done = 0;
    while done < into.len() {
        let Some(next) = at.checked_add(done as u64) else {
            return Err(Failed);
        };
        let count = read_some(folder, file, next, &mut into[done..])?;
        if count == 0 {
            break;
        }
        done += count as usize;
    }
    Ok(done as u64)
}

// Reads some bytes, and tries again where a signal came first.
#[tactic(auto, using(crate::proofs::ReadingOn::keeps_none, crate::proofs::ReadingOn::keeps_then))]
fn read_some<F: Folder>(
    folder: &mut F,
    file: &F::File,
    at: u64,
    into: &mut [u8],
) -> Result<u64, Failed>
    ensures within { IfOk result (λ count. count ≤ length into.old) }
    ensures kept { Told F.tells (KeepsFiles (F.view folder.old) (F.view folder.new)) }
    ensures given { Told F.tells (IfOk result (λ count.
        ReadsSome ((F.view folder.old).disk.reads (F.number file.now)) at
        into.old into.new count)) }
{
    for _ in 0..TRIES {
        if let Some(count) = folder.read_at(file, at, into)? {
            return Ok(count);
        }
    }
    Err(Failed)
}
