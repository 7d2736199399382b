ghost use Rattle.std.specs.Prelude.{◌≡◌, ℕ, ◌≤◌, OnErr};
ghost use Rattle.room_base.specs.Faults.{Rose};
ghost use Rattle.room_disk.specs.Faults.{counts_after, faults_on, no_faults};
ghost use Rattle.room_disk.specs.Stores.{folder_of};

use crate::Store;
use crate::fault_counts::FaultCounts;
use crate::folder::Folder;
use crate::folder_lock::FolderLock;
use crate::known_folder::KnownFolder;
use crate::system_folder::SystemFolder;
use room_base::Failed;
use std::alloc::Global;
use std::fs::File;
use std::rt::Files;

/// A folder as a disk: `journal.0`, `journal.1` and `cart.001` to `cart.256` are its files 0 to
/// 257. A file that isn't there is empty, and only a write makes one. Files above 257 have no name,
/// so every call on them fails. Where the folder itself isn't there every call fails. After a sync
/// of a file that failed every later call on it fails.
#[derive(Drop)]
pub struct FolderStore<F: Folder> {
    known: KnownFolder<F>,
    faults: FaultCounts,
}

impl<R: Files<File = File>> FolderStore<SystemFolder<R>> {
    /// The folder of the system that is locked, of which nothing is told. The lock is kept as long
    /// as the store. Makes no call on the folder, and never makes it.
    pub fn new(rt: R, alloc: Global, lock: FolderLock) -> FolderStore<SystemFolder<R>>
        ensures locked { folder_of result ≡ lock }
        ensures faults { result.faults ≡ no_faults }
    {
        FolderStore::over(alloc, SystemFolder::new(rt, alloc, lock))
    }
}

impl<F: Folder> FolderStore<F> {
    /// Makes no call on the folder.
    pub fn over(alloc: Global, folder: F) -> FolderStore<F>
        ensures folder { folder_of result ≡ folder }
        ensures faults { result.faults ≡ no_faults }
    {
        FolderStore {
            known: KnownFolder::new(alloc, folder),
            faults: FaultCounts::new(),
        }
    }
}

impl<F: Folder> Store for FolderStore<F> {
    ghost use Rattle.room_disk.specs.Folder.{counted_disk, counted_is_disk};

    ghost view = { λ store. counted_disk F.tells (faults_on store.faults)
        (F.view store.known.folder).disk };

    ghost is_disk = { λ store. counted_is_disk F.tells (faults_on store.faults)
        (F.view store.known.folder).disk (F.is_disk store.known.folder) };

    fn len(&mut self, file: u32) -> Result<u64, Failed> {
        let answer = self.known.len(file);
        self.faults.count(file, &answer);
        answer
    }

    fn read_at(&mut self, file: u32, at: u64, into: &mut [u8]) -> Result<u64, Failed> {
        let answer = self.known.read(file, at, into);
        self.faults.count(file, &answer);
        answer
    }

    fn write_at(&mut self, file: u32, at: u64, bytes: &[u8]) -> Result<(), Failed> {
        let answer = self.known.write(file, at, bytes);
        self.faults.count(file, &answer);
        answer
    }

    fn sync(&mut self, file: u32) -> Result<(), Failed> {
        let answer = self.known.sync(file);
        self.faults.count(file, &answer);
        answer
    }

    fn cut(&mut self, file: u32, to: u64) -> Result<(), Failed> {
        let answer = self.known.cut(file, to);
        self.faults.count(file, &answer);
        answer
    }
}
