ghost use Rattle.std.specs.Prelude.{◌≡◌, Ok, Some, None, IfOk, IfErr, IsErr, MatchResult};
ghost use Rattle.std.specs.Prelude.{IsTrue, OnOk, ◌++◌, codes, string_bytes};
ghost use Rattle.std.specs.IoError.{error_kind};

use crate::folder::Folder;
use crate::folder_lock::{Access, FolderLock};
use room_base::Failed;
use std::alloc::Global;
use std::fs::{File, OpenOptions};
use std::io;
use std::io::ErrorKind;
use std::marker::Model;
use std::os::unix::fs::FileExt;
use std::rt::Files;

/// The last place that a file of the system can have.
const MAX_OFFSET: u64 = i64::MAX as u64;

/// A folder of the system, which contracts see as the lock on it. It tells nothing. The lock is
/// kept as long as this value. Where it is for reading alone, no file is made or opened for writing.
#[derive(Drop)]
pub struct SystemFolder<R: Files<File = File>> {
    rt: R,
    alloc: Global,
    lock: FolderLock,
}

impl<R: Files<File = File>> Model for SystemFolder<R> {
    ghost use Rattle.room_disk.specs.Locking.{LockView};

    ghost Value = { LockView };

    ghost view = { λ folder. folder.lock };
}

impl<R: Files<File = File>> SystemFolder<R> {
    /// The folder of the lock. Makes no call on the system. The folder itself is never made.
    pub fn new(rt: R, alloc: Global, lock: FolderLock) -> SystemFolder<R>
        ensures { result ≡ lock }
    {
        SystemFolder { rt, alloc, lock }
    }

    // Opens a file, or makes one.
    fn open_as(&self, name: &str, writes: bool, makes: bool) -> Result<io::Result<File>, Failed>
        ensures { OnOk result (IsTrue writes → self.now.access ≡ Access.Writes) }
    {
        if !self.allows(writes) {
            return Err(Failed);
        }
        let mut how = OpenOptions::new();
        how.read(true);
        how.write(writes);
        how.create_new(makes);
        let path = self.path_of(name)?;
        Ok(how.open(&self.rt, path.as_str()))
    }

    // The path of a file of the folder that is locked.
    fn path_of(&self, name: &str) -> Result<String, Failed>
        ensures { IfOk result
            (λ path. string_bytes path ≡ self.now.folder ++ (codes "/" ++ name.now)) }
    {
        let folder = self.lock.folder();
        match format!(in self.alloc; "{folder}/{name}") {
            Ok(path) => Ok(path),
            Err(_) => Err(Failed),
        }
    }

    // Whether the lock is for this.
    fn allows(&self, writes: bool) -> bool
        ensures { IsTrue result → IsTrue writes → self.now.access ≡ Access.Writes }
    {
        match self.lock.access() {
            Access::Reads => !writes,
            Access::Writes => true,
        }
    }

    // The folder itself.
    fn open_folder(&self) -> Result<File, Failed> {
        answer(File::open(&self.rt, self.lock.folder()))
    }
}

impl<R: Files<File = File>> Folder for SystemFolder<R> {
    ghost use Rattle.std.specs.Prelude.{false};
    ghost use Rattle.room_disk.specs.Untold.{untold_folder, untold_is_disk};
    ghost use Rattle.room_disk.specs.Untold.{untold_settles};

    type File = File;

    ghost tells = { false };

    ghost view = { λ folder. untold_folder };

    ghost number = { λ file. 0 };

    ghost is_disk = { λ folder. untold_is_disk (λ file. 0) };

    ghost settles = { λ folder file bytes names. untold_settles _ names };

    fn open(&mut self, _file: u32, name: &str, writes: bool) -> Result<Option<File>, Failed> {
        let opened = found(self.open_as(name, writes, false)?)?;
        if opened.is_none() {
            self.open_folder()?;
        }
        Ok(opened)
    }

    fn make(&mut self, _file: u32, name: &str) -> Result<File, Failed> {
        answer(self.open_as(name, true, true)?)
    }

    fn len(&mut self, file: &File) -> Result<u64, Failed> {
        Ok(answer(file.metadata())?.len())
    }

    fn read_at(&mut self, file: &File, at: u64, into: &mut [u8]) -> Result<Option<u64>, Failed> {
        if at > MAX_OFFSET {
            return Ok(Some(0));
        }
        some_read(file.read_at(into, at))
    }

    fn write_at(&mut self, file: &File, at: u64, bytes: &[u8]) -> Result<(), Failed> {
        answer(file.write_all_at(bytes, at))
    }

    fn extend(&mut self, file: &File, to: u64) -> Result<(), Failed> {
        answer(file.set_len(to))
    }

    fn cut(&mut self, file: &File, to: u64) -> Result<(), Failed> {
        answer(file.set_len(to))
    }

    fn sync_data(&mut self, file: &File) -> Result<(), Failed> {
        answer(file.sync_data())
    }

    fn sync_names(&mut self) -> Result<(), Failed> {
        answer(self.open_folder()?.sync_all())
    }
}

fn answer<T>(done: io::Result<T>) -> Result<T, Failed>
    ensures { MatchResult done (λ value. result ≡ Ok value) (λ _. IsErr result) }
{
    match done {
        Ok(value) => Ok(value),
        Err(_) => Err(Failed),
    }
}

// A file that was opened, or None where there is no such file. Any other fault is one.
fn found<T>(opened: io::Result<T>) -> Result<Option<T>, Failed>
    ensures opened { IfOk opened (λ file. result ≡ Ok (Some file)) }
    ensures absent { IfErr opened (λ fault. IfOk result
        (λ found. (found ≡ None) × (error_kind fault ≡ ErrorKind.NotFound))) }
{
    match opened {
        Ok(file) => Ok(Some(file)),
        Err(fault) if fault.kind() == ErrorKind::NotFound => Ok(None),
        Err(_) => Err(Failed),
    }
}

// How many bytes were read, or None where a signal came first. Any other fault is one.
fn some_read(done: io::Result<usize>) -> Result<Option<u64>, Failed>
    ensures read { IfOk done (λ count. result ≡ Ok (Some count)) }
    ensures interrupted { IfErr done (λ fault. IfOk result
        (λ some. (some ≡ None) × (error_kind fault ≡ ErrorKind.Interrupted))) }
{
    match done {
        Ok(count) => Ok(Some(count as u64)),
        Err(fault) if fault.kind() == ErrorKind::Interrupted => Ok(None),
        Err(_) => Err(Failed),
    }
}
