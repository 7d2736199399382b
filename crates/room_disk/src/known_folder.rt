ghost use Rattle.std.specs.Prelude.{◌≡◌, ◌+◌, ◌<◌, ◌≤◌, ◌^◌, ℕ, IsTrue, IsErr, IfOk};
ghost use Rattle.std.specs.Prelude.{MatchOption, OnOk, OnErr, [], length, take, slice_index_or};
ghost use Rattle.room_base.specs.Outside.{Told};
ghost use Rattle.room_disk.specs.Crash.{overlaid, Torn, CutShort};
ghost use Rattle.room_disk.specs.Disk.{Settled, Quiet};
ghost use Rattle.room_disk.specs.Folder.{KeepsFiles, ChangesDisk, IsAbsent, ReadsAll};
ghost use Rattle.room_disk.specs.Known.{IsKnownAbsent, IsLost, IsFree, KeepsLost};
ghost use Rattle.room_disk.specs.Known.{AreNamesLost, KeepsNamesLost};
ghost use Rattle.room_disk.specs.declared.file_state.NameState.TheVariants.{Synced};

use crate::file_name::{NAMED, file_name};
use crate::file_state::{FileState, NameState};
use crate::folder::Folder;
use crate::opened::{Opened, position};
use crate::reading::read_all;
use room_base::Failed;
use std::alloc::Global;

/// A folder with what is known of it: no other program is to change it meanwhile. A file that isn't
/// there is empty, and only a write makes one. After a sync of a file that failed every call on it
/// fails. After a sync of the names that failed so does every sync of a file that is there.
#[derive(Drop)]
pub struct KnownFolder<F: Folder> {
    alloc: Global,
    folder: F,
    opened: Vec<Opened<F>>,
    states: [FileState; 258],
    names: NameState,
    ghost absent: { IsTrue F.tells → (file : ℕ) → IsKnownAbsent states file
        → IsAbsent (F.view folder).disk file },
    ghost named: { IsTrue F.tells → names ≡ Synced → IsTrue (F.view folder).has_names },
}

impl<F: Folder> KnownFolder<F> {
    pub fn new(alloc: Global, folder: F) -> KnownFolder<F>
        ensures { result.folder ≡ folder }
    {
        KnownFolder {
            alloc,
            folder,
            opened: Vec::new(alloc),
            states: all_unknown(),
            names: NameState::Unknown,
        }
    }

    // The index of the open file, or None where the folder has no such file.
    fn find(&mut self, file: u32) -> Result<Option<usize>, Failed>
        ensures kept { Told F.tells (KeepsFiles (F.view self.old.folder) (F.view self.new.folder)) }
        ensures lost { KeepsLost self.old.states self.new.states }
        ensures names { self.new.names ≡ self.old.names }
        ensures fails { IsLost self.old.states file → IsErr result }
        ensures named { OnOk result (file < 258) }
        ensures found { IfOk result (λ found. MatchOption found
            (IsKnownAbsent self.new.states file)
            (λ index. (index < length self.new.opened.items)
            × (IsFree self.new.states file)
            × ((other : _) → (slice_index_or self.new.opened.items index other).file ≡ file))) }
    {
        if file >= NAMED {
            return Err(Failed);
        }
        match self.states[file as usize] {
            FileState::Lost => Err(Failed),
            FileState::Absent => Ok(None),
            FileState::Unknown => match position(&self.opened, file) {
                Some(index) => Ok(Some(index)),
                None => self.open(file),
            },
        }
    }

    // Opens the file for reading alone.
    fn open(&mut self, file: u32) -> Result<Option<usize>, Failed>
        requires named { file < 258 }
        requires free { IsFree self.old.states file }
        ensures kept { Told F.tells (KeepsFiles (F.view self.old.folder) (F.view self.new.folder)) }
        ensures lost { KeepsLost self.old.states self.new.states }
        ensures names { self.new.names ≡ self.old.names }
        ensures found { IfOk result (λ found. MatchOption found
            (IsKnownAbsent self.new.states file)
            (λ index. (index < length self.new.opened.items)
            × (IsFree self.new.states file)
            × ((other : _) → (slice_index_or self.new.opened.items index other).file ≡ file))) }
    {
        let name = file_name(self.alloc, file)?;
        match self.folder.open(file, name.as_str(), false)? {
            None => {
                self.states[file as usize] = FileState::Absent;
                Ok(None)
            }
            Some(handle) => {
                let index = self.opened.len();
                self.keep(file, handle, false)?;
                Ok(Some(index))
            }
        }
    }

    // Keeps an open file behind the others.
    fn keep(&mut self, file: u32, handle: F::File, writes: bool) -> Result<(), Failed>
        requires { Told F.tells (F.number handle ≡ file) }
        ensures folder { self.new.folder ≡ self.old.folder }
        ensures states { self.new.states ≡ self.old.states }
        ensures names { self.new.names ≡ self.old.names }
        ensures kept { OnOk result (
            (length self.old.opened.items < length self.new.opened.items)
            × ((other : _) → (slice_index_or self.new.opened.items
            (length self.old.opened.items) other).file ≡ file)) }
    {
        match self.opened.push(Opened {
            file,
            handle,
            writes,
        }) {
            Ok(()) => Ok(()),
            Err(_) => Err(Failed),
        }
    }

    // The index of the file, which is open for writing. It is made where the folder hasn't it.
    fn find_for_writing(&mut self, file: u32) -> Result<usize, Failed>
        ensures quiet { Told F.tells
            (Quiet (F.view self.old.folder).disk (F.view self.new.folder).disk) }
        ensures lost { KeepsLost self.old.states self.new.states }
        ensures names { KeepsNamesLost self.old.names self.new.names }
        ensures fails { IsLost self.old.states file → IsErr result }
        ensures named { OnOk result (file < 258) }
        ensures found { IfOk result (λ index. (index < length self.new.opened.items)
            × (IsFree self.new.states file)
            × ((other : _) → (slice_index_or self.new.opened.items index other).file ≡ file)) }
    {
        match self.find(file)? {
            None => self.make(file),
            Some(index) => {
                self.open_for_writing(file, index)?;
                Ok(index)
            }
        }
    }

    // Opens the file for writing too, unless it is open so.
    fn open_for_writing(&mut self, file: u32, index: usize) -> Result<(), Failed>
        requires named { file < 258 }
        requires open { index < length self.old.opened.items }
        requires file { (other : _)
            → (slice_index_or self.old.opened.items index other).file ≡ file }
        ensures kept { Told F.tells (KeepsFiles (F.view self.old.folder) (F.view self.new.folder)) }
        ensures states { self.new.states ≡ self.old.states }
        ensures names { self.new.names ≡ self.old.names }
        ensures open { index < length self.new.opened.items }
        ensures file { (other : _)
            → (slice_index_or self.new.opened.items index other).file ≡ file }
    {
        if self.opened[index].writes {
            return Ok(());
        }
        let name = file_name(self.alloc, file)?;
        let Some(handle) = self.folder.open(file, name.as_str(), true)? else {
            return Err(Failed);
        };
        self.opened[index] = Opened {
            file,
            handle,
            writes: true,
        };
        Ok(())
    }

    // Makes the file, which the folder hasn't, and opens it for writing.
    fn make(&mut self, file: u32) -> Result<usize, Failed>
        requires named { file < 258 }
        requires absent { IsKnownAbsent self.old.states file }
        ensures quiet { Told F.tells
            (Quiet (F.view self.old.folder).disk (F.view self.new.folder).disk) }
        ensures lost { KeepsLost self.old.states self.new.states }
        ensures names { KeepsNamesLost self.old.names self.new.names }
        ensures found { IfOk result (λ index. (index < length self.new.opened.items)
            × (IsFree self.new.states file)
            × ((other : _) → (slice_index_or self.new.opened.items index other).file ≡ file)) }
    {
        let name = file_name(self.alloc, file)?;
        self.states[file as usize] = FileState::Unknown;
        if let NameState::Synced = self.names {
            self.names = NameState::Unknown;
        }
        let handle = self.folder.make(file, name.as_str())?;
        let index = self.opened.len();
        self.keep(file, handle, true)?;
        Ok(index)
    }

    pub fn len(&mut self, file: u32) -> Result<u64, Failed>
        ensures kept { Told F.tells (KeepsFiles (F.view self.old.folder) (F.view self.new.folder)) }
        ensures lost { KeepsLost self.old.states self.new.states }
        ensures names { self.new.names ≡ self.old.names }
        ensures fails { IsLost self.old.states file → IsErr result }
        ensures named { OnOk result (file < 258) }
        ensures length { Told F.tells
            (IfOk result (λ len. len ≡ length ((F.view self.old.folder).disk.reads file))) }
    {
        match self.find(file)? {
            None => Ok(0),
            Some(index) => {
                let opened = &self.opened[index];
                self.folder.len(&opened.handle)
            }
        }
    }

    pub fn read(&mut self, file: u32, at: u64, into: &mut [u8]) -> Result<u64, Failed>
        ensures within { IfOk result (λ count. count ≤ length into.old) }
        ensures kept { Told F.tells (KeepsFiles (F.view self.old.folder) (F.view self.new.folder)) }
        ensures lost { KeepsLost self.old.states self.new.states }
        ensures names { self.new.names ≡ self.old.names }
        ensures fails { IsLost self.old.states file → IsErr result }
        ensures named { OnOk result (file < 258) }
        ensures given { Told F.tells (IfOk result (λ count.
            ReadsAll ((F.view self.old.folder).disk.reads file) at into.old into.new count)) }
    {
        match self.find(file)? {
            None => Ok(0),
            Some(index) => {
                let opened = &self.opened[index];
                read_all(&mut self.folder, &opened.handle, at, into)
            }
        }
    }

    pub fn write(&mut self, file: u32, at: u64, bytes: &[u8]) -> Result<(), Failed>
        ensures fits { OnOk result (at + length bytes.now < 2 ^ 64) }
        ensures lost { KeepsLost self.old.states self.new.states }
        ensures names { KeepsNamesLost self.old.names self.new.names }
        ensures fails { IsLost self.old.states file → IsErr result }
        ensures named { OnOk result (file < 258) }
        ensures written { Told F.tells (OnOk result ((F.view self.new.folder).disk.reads file
            ≡ overlaid at bytes.now ((F.view self.old.folder).disk.reads file))) }
        ensures changes { Told F.tells (ChangesDisk file (Torn at bytes.now)
            (F.view self.old.folder).disk (F.view self.new.folder).disk) }
    {
        if at.checked_add(bytes.len() as u64).is_none() {
            return Err(Failed);
        }
        let index = self.find_for_writing(file)?;
        if bytes.is_empty() {
            return self.lengthen(file, index, at);
        }
        let opened = &self.opened[index];
        self.folder.write_at(&opened.handle, at, bytes)
    }

    // Makes the file longer, where it is shorter.
    fn lengthen(&mut self, file: u32, index: usize, to: u64) -> Result<(), Failed>
        requires open { index < length self.old.opened.items }
        requires free { IsFree self.old.states file }
        requires file { (other : _)
            → (slice_index_or self.old.opened.items index other).file ≡ file }
        ensures states { self.new.states ≡ self.old.states }
        ensures names { self.new.names ≡ self.old.names }
        ensures written { Told F.tells (OnOk result ((F.view self.new.folder).disk.reads file
            ≡ overlaid to [] ((F.view self.old.folder).disk.reads file))) }
        ensures changes { Told F.tells (ChangesDisk file (Torn to [])
            (F.view self.old.folder).disk (F.view self.new.folder).disk) }
    {
        let opened = &self.opened[index];
        if self.folder.len(&opened.handle)? >= to {
            return Ok(());
        }
        self.folder.extend(&opened.handle, to)
    }

    pub fn cut(&mut self, file: u32, to: u64) -> Result<(), Failed>
        requires { Told F.tells (to ≤ length ((F.view self.old.folder).disk.reads file)) }
        ensures lost { KeepsLost self.old.states self.new.states }
        ensures names { self.new.names ≡ self.old.names }
        ensures fails { IsLost self.old.states file → IsErr result }
        ensures named { OnOk result (file < 258) }
        ensures cut { Told F.tells (OnOk result ((F.view self.new.folder).disk.reads file
            ≡ take to ((F.view self.old.folder).disk.reads file))) }
        ensures changes { Told F.tells (ChangesDisk file (CutShort to)
            (F.view self.old.folder).disk (F.view self.new.folder).disk) }
    {
        match self.find(file)? {
            None => Ok(()),
            Some(index) => {
                self.open_for_writing(file, index)?;
                let opened = &self.opened[index];
                self.folder.cut(&opened.handle, to)
            }
        }
    }

    /// After a sync that failed the file is lost.
    pub fn sync(&mut self, file: u32) -> Result<(), Failed>
        ensures kept { Told F.tells (KeepsFiles (F.view self.old.folder) (F.view self.new.folder)) }
        ensures lost { KeepsLost self.old.states self.new.states }
        ensures names { KeepsNamesLost self.old.names self.new.names }
        ensures fails { IsLost self.old.states file → IsErr result }
        ensures unnamed { AreNamesLost self.old.names
            → OnOk result (IsKnownAbsent self.new.states file) }
        ensures named { OnOk result (file < 258) }
        ensures failed { OnErr result (file < 258 → IsLost self.new.states file) }
        ensures settled { Told F.tells
            (OnOk result (Settled (F.view self.new.folder).disk file)) }
    {
        let done = self.sync_found(file);
        if done.is_err() && file < NAMED {
            self.states[file as usize] = FileState::Lost;
        }
        done
    }

    fn sync_found(&mut self, file: u32) -> Result<(), Failed>
        ensures kept { Told F.tells (KeepsFiles (F.view self.old.folder) (F.view self.new.folder)) }
        ensures lost { KeepsLost self.old.states self.new.states }
        ensures names { KeepsNamesLost self.old.names self.new.names }
        ensures fails { IsLost self.old.states file → IsErr result }
        ensures unnamed { AreNamesLost self.old.names
            → OnOk result (IsKnownAbsent self.new.states file) }
        ensures named { OnOk result (file < 258) }
        ensures settled { Told F.tells
            (OnOk result (Settled (F.view self.new.folder).disk file)) }
    {
        match self.find(file)? {
            None => Ok(()),
            Some(index) => {
                let opened = &self.opened[index];
                self.folder.sync_data(&opened.handle)?;
                self.sync_names()
            }
        }
    }

    // Syncs the names, unless they are on the disk. After a sync that failed they are lost.
    fn sync_names(&mut self) -> Result<(), Failed>
        ensures kept { Told F.tells (KeepsFiles (F.view self.old.folder) (F.view self.new.folder)) }
        ensures states { self.new.states ≡ self.old.states }
        ensures names { KeepsNamesLost self.old.names self.new.names }
        ensures fails { AreNamesLost self.old.names → IsErr result }
        ensures failed { OnErr result (AreNamesLost self.new.names) }
        ensures synced { Told F.tells (OnOk result (IsTrue (F.view self.new.folder).has_names)) }
    {
        match self.names {
            NameState::Synced => Ok(()),
            NameState::Lost => Err(Failed),
            NameState::Unknown => {
                let done = self.folder.sync_names();
                self.names = if done.is_ok() {
                    NameState::Synced
                } else {
                    NameState::Lost
                };
                done
            }
        }
    }
}

fn all_unknown() -> [FileState; 258]
    ensures { (file : ℕ) → IsKnownAbsent result file → ⊥ }
{
    [FileState::Unknown; 258]
}
