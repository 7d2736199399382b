ghost use Rattle.std.specs.Prelude.{◌≡◌, ◌+◌, ◌<◌, ◌≤◌, ℕ, IsTrue, slice_index_or, false, true};
ghost use Rattle.std.specs.Prelude.{OnOk};
ghost use Rattle.std.specs.Prelude.{◌↔◌, IsErr, length, slice_set};
ghost use Rattle.room_base.specs.Calls.{FailsNext};
ghost use Rattle.room_disk.specs.Blank.{IsBlank};
ghost use Rattle.room_disk.specs.Disk.{Settled, Quiet};
ghost use Rattle.room_disk.specs.Folder.{file_name, IsAbsent};
ghost use Rattle.room_disk.specs.Memory.{told_store};

use crate::folder::Folder;
use crate::mem_store::MemStore;
use crate::store::Store;
use room_base::{CallCount, Failed};
use std::alloc::Global;

/// A folder in memory, which tells its contents. Its listed calls fail. A read gives half of what
/// is asked for. What was synced of a file is settled only once the names are synced too.
#[derive(Drop)]
pub struct MemFolder {
    store: MemStore,
    calls: CallCount,
    // The files that were made, and those whose bytes were synced.
    there: [bool; 258],
    synced: [bool; 258],
    named: bool,
    ghost absent: { (file : ℕ) → slice_index_or there file true ≡ false
        → IsAbsent (told_store store) file },
    ghost settled: { (file : ℕ) → IsTrue (slice_index_or synced file false) → IsTrue named
        → Settled (told_store store) file },
}

/// A file of a folder in memory.
#[derive(Drop)]
pub struct MemHandle {
    file: u32,
    ghost named: { file < 258 },
}

impl MemFolder {
    /// An empty folder. `failing` holds the numbers of the calls that are to fail, counted from 1.
    pub fn new(alloc: Global, failing: Vec<u64>) -> MemFolder
        ensures blank { IsBlank (told_store result.store) }
        ensures named { IsTrue result.named }
        ensures calls { result.calls ≡ record { failing = failing.items; made = 0 } }
    {
        MemFolder {
            store: MemStore::new(alloc, Vec::new(alloc), None),
            calls: CallCount::new(failing),
            there: [false; 258],
            synced: [false; 258],
            named: true,
        }
    }
}

impl Folder for MemFolder {
    ghost use Rattle.room_disk.specs.Laws.{past_is_disk};
    ghost use Rattle.room_disk.specs.Faults.{faults_on};
    ghost use Rattle.room_disk.specs.Past.{listed};

    type File = MemHandle;

    ghost tells = { true };

    ghost view = { λ folder. record {
      disk = told_store folder.store;
      has_bytes = λ file. slice_index_or folder.synced file false;
      has_names = folder.named;
    } };

    ghost number = { λ handle. handle.file };

    ghost is_disk = { λ folder. past_is_disk (listed folder.store.past.first)
        folder.store.past.events (faults_on folder.store.faults) };

    ghost settles = { λ folder file bytes names. folder.settled file bytes names };

    fn open(&mut self, file: u32, _name: &str, _writes: bool) -> Result<Option<MemHandle>, Failed> {
        next(&mut self.calls)?;
        if self.there[file as usize] {
            Ok(Some(MemHandle { file }))
        } else {
            Ok(None)
        }
    }

    fn make(&mut self, file: u32, _name: &str) -> Result<MemHandle, Failed> {
        next(&mut self.calls)?;
        if self.there[file as usize] {
            return Err(Failed);
        }
        self.there[file as usize] = true;
        self.named = false;
        Ok(MemHandle { file })
    }

    fn len(&mut self, file: &MemHandle) -> Result<u64, Failed> {
        next(&mut self.calls)?;
        self.store.len(file.file)
    }

    fn read_at(
        &mut self,
        file: &MemHandle,
        at: u64,
        into: &mut [u8],
    ) -> Result<Option<u64>, Failed> {
        next(&mut self.calls)?;
        let half = into.len() - into.len() / 2;
        let count = self.store.read_at(file.file, at, &mut into[..half])?;
        Ok(Some(count))
    }

    fn write_at(&mut self, file: &MemHandle, at: u64, bytes: &[u8]) -> Result<(), Failed> {
        next(&mut self.calls)?;
        touch(&mut self.there, &mut self.synced, file.file);
        self.store.write_at(file.file, at, bytes)
    }

    fn extend(&mut self, file: &MemHandle, to: u64) -> Result<(), Failed> {
        next(&mut self.calls)?;
        touch(&mut self.there, &mut self.synced, file.file);
        self.store.write_at(file.file, to, &[])
    }

    fn cut(&mut self, file: &MemHandle, to: u64) -> Result<(), Failed> {
        next(&mut self.calls)?;
        touch(&mut self.there, &mut self.synced, file.file);
        self.store.cut(file.file, to)
    }

    fn sync_data(&mut self, file: &MemHandle) -> Result<(), Failed> {
        next(&mut self.calls)?;
        if self.named {
            self.store.sync(file.file)?;
        }
        self.synced[file.file as usize] = true;
        Ok(())
    }

    fn sync_names(&mut self) -> Result<(), Failed> {
        next(&mut self.calls)?;
        sync_each(&mut self.store, &self.synced)?;
        self.named = true;
        Ok(())
    }
}

// The next call, unless it is to fail.
fn next(calls: &mut CallCount) -> Result<(), Failed>
    ensures { IsErr result ↔ FailsNext calls.old }
{
    if calls.next_fails() {
        return Err(Failed);
    }
    Ok(())
}

// The file is there, and its bytes aren't all on the disk.
fn touch(there: &mut [bool; 258], synced: &mut [bool; 258], file: u32)
    requires { file < 258 }
    ensures there { there.new ≡ slice_set there.old file true }
    ensures synced { synced.new ≡ slice_set synced.old file false }
{
    there[file as usize] = true;
    synced[file as usize] = false;
}

// Syncs each of these files.
fn sync_each(store: &mut MemStore, files: &[bool]) -> Result<(), Failed>
    requires { length files.now ≤ 258 }
    ensures quiet { Quiet (told_store store.old) (told_store store.new) }
    ensures settled { OnOk result ((file : ℕ) → IsTrue (slice_index_or files.now file false)
        → Settled (told_store store.new) file) }
{
    for (file, is_one) in files.iter().enumerate() {
        if *is_one {
            store.sync(file as u32)?;
        }
    }
    Ok(())
}
