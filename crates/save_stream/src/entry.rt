ghost use Rattle.std.specs.Prelude.{◌≡◌, IfOk};

use room_base::{Memory, Name};

/// The most entries of a save set.
pub const MAX_ENTRIES: usize = 1_000_000;

/// The most bytes of a stream, and so of a file in it.
pub const MAX_SIZE: u64 = 68_719_476_736;

#[derive(Clone, Copy)]
pub enum EntryKind {
    File,
    Folder,
    /// The path was there in the base save set, and is no more.
    Gone,
}

/// An entry of a save set. `mtime` is 0 for `Gone`; `size` and `place` are 0 for all but files.
#[derive(Drop)]
pub struct IndexEntry {
    pub kind: EntryKind,
    pub path: Name,
    pub mtime: u64,
    pub size: u64,
    /// The offset in the stream of the file's bytes.
    pub place: u64,
}

impl IndexEntry {
    pub fn copy(&self) -> Result<IndexEntry, Memory>
        ensures { IfOk result (λ copy. copy ≡ self.now) }
    {
        Ok(IndexEntry {
            kind: self.kind,
            path: self.path.copy()?,
            mtime: self.mtime,
            size: self.size,
            place: self.place,
        })
    }
}
