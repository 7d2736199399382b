ghost use Rattle.std.specs.Prelude.{◌≡◌, ◌≤◌, IfOk, OnOk, MatchOption};
ghost use Rattle.room_disk.specs.Kept.{blank_file, kept_file, HasGrown, HasGrownFiles};
ghost use Rattle.room_disk.specs.Kept.{HasRoomBehind, HasSameFiles, IsDistinct, IsFirst, NoneHas};

use crate::file_bytes::FileBytes;
use room_base::Memory;
use std::alloc::Global;

/// A file of a store in memory: what it read at first, and what it reads now.
#[derive(Drop)]
pub struct MemFile {
    pub number: u32,
    pub first: FileBytes,
    pub now: FileBytes,
}

impl MemFile {
    /// An empty file. Takes no memory.
    pub fn blank(alloc: Global, number: u32) -> MemFile
        ensures { result ≡ blank_file number }
    {
        MemFile {
            number,
            first: FileBytes::new(alloc),
            now: FileBytes::new(alloc),
        }
    }

    /// Makes room for a file of that length.
    pub fn grow(&mut self, room: usize) -> Result<(), Memory>
        requires { self.old.now.room ≤ self.old.first.room }
        ensures grown { HasGrown self.old self.new }
        ensures room { OnOk result (room ≤ self.new.now.room) }
    {
        self.first.grow(room)?;
        self.now.grow(room)
    }
}

/// The index of the file with this number.
pub fn position(files: &[MemFile], number: u32) -> Option<usize>
    ensures { MatchOption result (NoneHas number files.now)
        (λ index. IsFirst number files.now index) }
{
    for (index, file) in files.iter().enumerate() {
        if file.number == number {
            return Some(index);
        }
    }
    None
}

/// The index of the file with this number, which is made where there is none.
pub fn slot(alloc: Global, files: &mut Vec<MemFile>, number: u32) -> Result<usize, Memory>
    ensures same { HasSameFiles files.old.items files.new.items }
    ensures distinct { IsDistinct files.old.items → IsDistinct files.new.items }
    ensures found { IfOk result (λ index. IsFirst number files.new.items index) }
{
    if let Some(index) = position(files, number) {
        return Ok(index);
    }
    files.push(MemFile::blank(alloc, number))?;
    Ok(files.len() - 1)
}

/// The index of the file with this number, which has room for that length.
pub fn make_room(
    alloc: Global,
    files: &mut Vec<MemFile>,
    number: u32,
    room: usize,
) -> Result<usize, Memory>
    requires { HasRoomBehind files.old.items }
    ensures grown { HasGrownFiles files.old.items files.new.items }
    ensures distinct { IsDistinct files.old.items → IsDistinct files.new.items }
    ensures found { IfOk result (λ index. IsFirst number files.new.items index) }
    ensures room { OnOk result (room ≤ (kept_file number files.new.items).now.room) }
{
    let index = slot(alloc, files, number)?;
    let file = &mut files[index];
    file.grow(room)?;
    Ok(index)
}
