ghost use Rattle.std.specs.Prelude.{◌≡◌, ℕ, ◌+◌, ◌-◌, ◌<◌, ◌≤◌, ◌^◌, List, length, take, drop, min};
ghost use Rattle.std.specs.Prelude.{IfOk, OnOk};
ghost use Rattle.room_base.specs.Outside.{Told};
ghost use Rattle.room_disk.specs.Disk.{DiskView, IsDisk, Quiet, Others, Leaves, Images, Settled};
ghost use Rattle.room_disk.specs.Disk.{FileCause};
ghost use Rattle.room_disk.specs.Crash.{overlaid, Torn, CutShort};

use room_base::Failed;

/// Numbered files of bytes. A file that was never written is empty. A file has at most 2^64 - 1
/// bytes. After `Failed` a call may have done any part of its work.
pub trait Store {
    /// What is told of the disk, and its counts of faults.
    ghost view: { Self → DiskView };

    /// The length of the file in bytes.
    fn len(&mut self, file: u32) -> Result<u64, Failed>
        ensures cause { FileCause file (view self.old) (view self.new) result }
        ensures tells { (view self.new).tells ≡ (view self.old).tells }
        ensures quiet { Told (view self.old).tells (Quiet (view self.old) (view self.new)) }
        ensures length { Told (view self.old).tells
            (IfOk result (λ len. len ≡ length ((view self.old).reads file))) };

    /// Fills a front of `into` and answers its length, which is shorter than `into` exactly where
    /// the file ends.
    fn read_at(&mut self, file: u32, at: u64, into: &mut [u8]) -> Result<u64, Failed>
        ensures within { IfOk result (λ count. count ≤ length into.old) }
        ensures cause { FileCause file (view self.old) (view self.new) result }
        ensures tells { (view self.new).tells ≡ (view self.old).tells }
        ensures quiet { Told (view self.old).tells (Quiet (view self.old) (view self.new)) }
        ensures count { Told (view self.old).tells (IfOk result (λ count.
            count ≡ min (length into.old) (length ((view self.old).reads file) - at))) }
        ensures given { Told (view self.old).tells (IfOk result (λ count.
            take count into.new ≡ take count (drop at ((view self.old).reads file)))) }
        ensures rest { Told (view self.old).tells
            (IfOk result (λ count. drop count into.new ≡ drop count into.old)) };

    /// Writes the bytes from `at` on. Where `at` is past the file's end, the bytes between are
    /// zeros. A write past the greatest length fails.
    fn write_at(&mut self, file: u32, at: u64, bytes: &[u8]) -> Result<(), Failed>
        ensures fits { OnOk result (at + length bytes.now < 2 ^ 64) }
        ensures cause { FileCause file (view self.old) (view self.new) result }
        ensures tells { (view self.new).tells ≡ (view self.old).tells }
        ensures written { Told (view self.old).tells (OnOk result
            ((view self.new).reads file ≡ overlaid at bytes.now ((view self.old).reads file))) }
        ensures others { Told (view self.old).tells (Others file (view self.old) (view self.new)) }
        ensures torn { Told (view self.old).tells
            ((after : List ℕ) → (view self.new).leaves file after
            → (before : List ℕ) × (view self.old).leaves file before
            × Torn at bytes.now before after) }
        ensures moments { Told (view self.old).tells
            (Leaves (view self.old) (view self.new) (Images (view self.new))) };

    /// After it a crash leaves what a read of the file gives.
    fn sync(&mut self, file: u32) -> Result<(), Failed>
        ensures cause { FileCause file (view self.old) (view self.new) result }
        ensures tells { (view self.new).tells ≡ (view self.old).tells }
        ensures quiet { Told (view self.old).tells (Quiet (view self.old) (view self.new)) }
        ensures settled { Told (view self.old).tells (OnOk result (Settled (view self.new) file)) };

    /// Cuts the file to the length `to`.
    fn cut(&mut self, file: u32, to: u64) -> Result<(), Failed>
        requires { Told (view self.old).tells (to ≤ length ((view self.old).reads file)) }
        ensures cause { FileCause file (view self.old) (view self.new) result }
        ensures tells { (view self.new).tells ≡ (view self.old).tells }
        ensures cut { Told (view self.old).tells (OnOk result
            ((view self.new).reads file ≡ take to ((view self.old).reads file))) }
        ensures others { Told (view self.old).tells (Others file (view self.old) (view self.new)) }
        ensures torn { Told (view self.old).tells
            ((after : List ℕ) → (view self.new).leaves file after
            → (before : List ℕ) × (view self.old).leaves file before × CutShort to before after) }
        ensures moments { Told (view self.old).tells
            (Leaves (view self.old) (view self.new) (Images (view self.new))) };

    /// It is a disk.
    ghost is_disk: { (store : Self) → IsDisk (view store) };
}
