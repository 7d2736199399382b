//! The journal of a folder is opened.

use crate::words::folder_of;
use cat_journal::Journal;
use room_disk::{Access, FolderLock, FolderStore};

/// Opens the journal of the folder.
pub fn open_in(rt: &HostRuntime) -> Option<()> {
    let alloc = rt.alloc();
    let lock = FolderLock::take(rt, folder_of(rt)?, Access::Writes).ok()?;
    let mut disk = FolderStore::new(rt, alloc, lock);
    Journal::open(alloc, &mut disk).ok()?;
    Some(())
}
