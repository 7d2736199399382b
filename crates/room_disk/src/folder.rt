ghost use Rattle.std.specs.Prelude.{◌≡◌, ℕ, ◌<◌, ◌≤◌, Bool, IsTrue, [], length, IfOk, OnOk};
ghost use Rattle.std.specs.Prelude.{MatchOption, IfSome, List, take};
ghost use Rattle.room_base.specs.Outside.{Told};
ghost use Rattle.room_disk.specs.Crash.{overlaid, Torn, CutShort};
ghost use Rattle.room_disk.specs.Disk.{IsDisk, Quiet, Settled};
ghost use Rattle.room_disk.specs.Folder.{FolderView, file_name, KeepsFiles, ChangesOne, IsAbsent};
ghost use Rattle.room_disk.specs.Folder.{ReadsSome};

use room_base::Failed;

/// A folder of files that have names. What a crash may leave of a file whose name isn't on the
/// disk is told of an empty file too. After `Failed` a call may have done any part of its work.
pub trait Folder {
    /// A file that is open.
    type File: Drop;

    /// Whether it tells its contents.
    ghost tells: { Bool };

    ghost view: { Self → FolderView };

    /// The number that the name of an open file stands for.
    ghost number: { Self.File → ℕ };

    /// Opens a file, for reading alone or for writing too. None where the folder has no such file.
    fn open(&mut self, file: u32, name: &str, writes: bool) -> Result<Option<Self::File>, Failed>
        requires named { file < 258 }
        requires name { name.now ≡ file_name file }
        ensures kept { Told tells (KeepsFiles (view self.old) (view self.new)) }
        ensures found { Told tells (IfOk result (λ found. MatchOption found
            (IsAbsent (view self.new).disk file) (λ opened. number opened ≡ file))) };

    /// Makes a file that isn't there, and opens it for reading and writing.
    fn make(&mut self, file: u32, name: &str) -> Result<Self::File, Failed>
        requires named { file < 258 }
        requires name { name.now ≡ file_name file }
        ensures quiet { Told tells (Quiet (view self.old).disk (view self.new).disk) }
        ensures made { Told tells (IfOk result (λ opened. number opened ≡ file)) };

    /// The length of the file in bytes.
    fn len(&mut self, file: &Self::File) -> Result<u64, Failed>
        ensures kept { Told tells (KeepsFiles (view self.old) (view self.new)) }
        ensures length { Told tells
            (IfOk result (λ len. len ≡ length ((view self.old).disk.reads (number file.now)))) };

    /// Reads some bytes into the front of `into`, and answers how many. None where a signal came
    /// before the first.
    fn read_at(
        &mut self,
        file: &Self::File,
        at: u64,
        into: &mut [u8],
    ) -> Result<Option<u64>, Failed>
        ensures within { IfOk result (λ some. IfSome some (λ count. count ≤ length into.old)) }
        ensures kept { Told tells (KeepsFiles (view self.old) (view self.new)) }
        ensures given { Told tells (IfOk result (λ some. MatchOption some (into.new ≡ into.old)
            (λ count. ReadsSome ((view self.old).disk.reads (number file.now)) at
            into.old into.new count))) };

    /// Writes all bytes from `at` on. Where `at` is past the end, the bytes between are zeros.
    fn write_at(&mut self, file: &Self::File, at: u64, bytes: &[u8]) -> Result<(), Failed>
        requires { 0 < length bytes.now }
        ensures written { Told tells (OnOk result
            ((view self.new).disk.reads (number file.now)
            ≡ overlaid at bytes.now ((view self.old).disk.reads (number file.now)))) }
        ensures changes { Told tells (ChangesOne (number file.now) (Torn at bytes.now)
            (view self.old) (view self.new)) };

    /// Makes the file longer, by zeros.
    fn extend(&mut self, file: &Self::File, to: u64) -> Result<(), Failed>
        requires { Told tells (length ((view self.old).disk.reads (number file.now)) ≤ to) }
        ensures written { Told tells (OnOk result
            ((view self.new).disk.reads (number file.now)
            ≡ overlaid to [] ((view self.old).disk.reads (number file.now)))) }
        ensures changes { Told tells (ChangesOne (number file.now) (Torn to [])
            (view self.old) (view self.new)) };

    /// Cuts the file to the length `to`.
    fn cut(&mut self, file: &Self::File, to: u64) -> Result<(), Failed>
        requires { Told tells (to ≤ length ((view self.old).disk.reads (number file.now))) }
        ensures cut { Told tells (OnOk result
            ((view self.new).disk.reads (number file.now)
            ≡ take to ((view self.old).disk.reads (number file.now)))) }
        ensures changes { Told tells (ChangesOne (number file.now) (CutShort to)
            (view self.old) (view self.new)) };

    /// Puts the file's bytes and length on the disk, whatever of its name.
    fn sync_data(&mut self, file: &Self::File) -> Result<(), Failed>
        ensures kept { Told tells (KeepsFiles (view self.old) (view self.new)) }
        ensures synced { Told tells
            (OnOk result (IsTrue ((view self.new).has_bytes (number file.now)))) };

    /// Puts the names of all files on the disk.
    fn sync_names(&mut self) -> Result<(), Failed>
        ensures kept { Told tells (KeepsFiles (view self.old) (view self.new)) }
        ensures synced { Told tells (OnOk result (IsTrue (view self.new).has_names)) };

    /// Its files are a disk.
    ghost is_disk: { (folder : Self) → IsDisk (view folder).disk };

    /// A crash leaves what a file reads where its bytes and its name are on the disk.
    ghost settles: { (folder : Self) (file : ℕ) → IsTrue ((view folder).has_bytes file)
        → IsTrue (view folder).has_names → Settled (view folder).disk file };
}
