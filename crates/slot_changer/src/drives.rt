//! The drives of the room.

ghost use Rattle.std.specs.Prelude.{◌≡◌, ◌+◌, ◌-◌, ◌≤◌, ◌<◌, ◌^◌, ◌↔◌, Some, None, OnOk, OnErr};
ghost use Rattle.std.specs.Prelude.{IsTrue, IsSomeAnd, IfSome, length};
ghost use Rattle.std.specs.Option.{option_copied, option_map};
ghost use Rattle.room_disk.specs.Writing.{WritesFile};
ghost use Rattle.volume_block.specs.Region.{AreBlocks};
ghost use Rattle.volume_block.specs.Valid.{IsLabel};
ghost use Rattle.chunk_mux.specs.Packing.{first_used};
ghost use Rattle.volume_store.specs.Writes.{IsCart};
ghost use Rattle.slot_changer.specs.Drives.{IsDrive, no_volumes, in_drive, set_drive};
ghost use Rattle.slot_changer.specs.Drives.{change_drive, volume_of, blocks_in, holds_set};
ghost use Rattle.slot_changer.specs.Drives.{has_failed, IsMounted, MayTakeOut};
ghost use Rattle.slot_changer.specs.Drives.{mounted, after_push, after_commit, after_fault};
ghost use Rattle.slot_changer.specs.Taking.{fits, takes, CanPush, CanCommit};
ghost use Rattle.slot_changer.specs.Picking.{HasEachDrive, MayPick, IsPick, less_busy};
ghost use Rattle.slot_changer.specs.Committing.{cart_file_of, AddsBuffer, MayAddBuffer};

use crate::mounted::Mounted;
use chunk_mux::{MuxBuffer, Span};
use room_base::{CopyNo, Failed, Memory, Ssid, Volid};
use room_disk::Store;
use std::alloc::Global;
use std::marker::Model;
use volume_store::Volume;

/// Drives are numbered from 1 to this number.
pub const MAX_DRIVE: u8 = 4;

/// How many drives there are.
const DRIVES: usize = MAX_DRIVE as usize;

/// The drives of the room, each empty or with a volume and the buffer of its next file.
#[derive(Drop)]
pub struct Drives {
    alloc: Global,
    /// What is in drives 1 to 4.
    drives: [Option<Mounted>; DRIVES],
}

impl Model for Drives {
    ghost use Rattle.std.specs.Prelude.{List, Option};
    ghost use Rattle.slot_changer.specs.Drives.{DriveView};

    ghost Value = { List (Option DriveView) };

    ghost use Rattle.slot_changer.specs.Inside.{drives_view};

    ghost view = { drives_view };
}

impl Drives {
    /// Four empty drives. It takes no memory: the allocator is for those that are filled.
    pub fn new(alloc: Global) -> Drives
        ensures { result ≡ no_volumes }
    {
        Drives {
            alloc,
            drives: [None, None, None, None],
        }
    }

    /// The volume in a drive, or None where it is empty.
    pub fn volume(&self, drive: u8) -> Option<&Volume>
        requires { IsDrive drive }
        ensures volume { option_copied result
            ≡ option_map volume_of (in_drive self.now drive) }
        ensures allowed { IfSome (in_drive self.now drive) IsMounted }
        ensures four { length self.now ≡ 4 }
    {
        match &self.drives[place_of(drive)] {
            Some(mounted) => Some(mounted.volume()),
            None => None,
        }
    }

    /// How many data blocks the buffer of a drive has: 0 where the drive is empty.
    pub fn blocks(&self, drive: u8) -> u32
        requires { IsDrive drive }
        ensures count { result ≡ blocks_in (in_drive self.now drive) }
        ensures most { result ≤ 64 }
        ensures allowed { IfSome (in_drive self.now drive)
            (λ one. AreBlocks one.buffer.units one.buffer.blocks) }
    {
        match &self.drives[place_of(drive)] {
            Some(mounted) => mounted.blocks(),
            None => 0,
        }
    }

    /// Whether the buffer of a drive has a chunk of the save set.
    pub fn holds(&self, drive: u8, ssid: Ssid) -> bool
        requires { IsDrive drive }
        ensures { result ≡ holds_set (in_drive self.now drive) ssid.0 }
    {
        match &self.drives[place_of(drive)] {
            Some(mounted) => mounted.holds(ssid),
            None => false,
        }
    }

    /// Whether a commit of a drive's buffer has failed, so that the drive is to be emptied.
    pub fn has_failed(&self, drive: u8) -> bool
        requires { IsDrive drive }
        ensures { result ≡ has_failed (in_drive self.now drive) }
    {
        match &self.drives[place_of(drive)] {
            Some(mounted) => mounted.has_failed(),
            None => false,
        }
    }

    /// Whether a piece of so many bytes fits the buffer of a drive as it is.
    pub fn fits(&self, drive: u8, length: u64) -> bool
        requires { IsDrive drive }
        ensures { result ≡ fits (in_drive self.now drive) length }
    {
        match &self.drives[place_of(drive)] {
            Some(mounted) => mounted.fits(length),
            None => false,
        }
    }

    /// Whether a drive takes a piece of so many bytes: as it is where the piece fits the buffer,
    /// else behind a commit of the buffer.
    pub fn takes(&self, drive: u8, length: u64) -> bool
        requires { IsDrive drive }
        ensures { result ≡ takes (in_drive self.now drive) length }
    {
        match &self.drives[place_of(drive)] {
            Some(mounted) => mounted.takes(length),
            None => false,
        }
    }

    /// The drive that a piece of so many bytes goes to: of those with a volume of the pool that
    /// isn't barred, and that take the piece, the one with the fewest open sessions, of several the
    /// one with the least number. `busy` has the open sessions of each drive.
    pub fn pick(&self, pool: &[u8], length: u64, busy: &[u32], barred: &[Volid]) -> Option<u8>
        requires { HasEachDrive busy.now }
        ensures { IsPick self.now pool.now length busy.now barred.now result }
    {
        let mut picked: Option<usize> = None;
        for (place, held) in self.drives.iter().enumerate() {
            if may_pick(held, pool, length, barred) {
                picked = Some(less_busy(busy, picked, place));
            }
        }
        match picked {
            Some(place) => Some(place as u8 + 1),
            None => None,
        }
    }

    /// Puts a volume into an empty drive, with an empty buffer. It takes all memory that the drive
    /// needs while the volume is in it.
    pub fn put_in(&mut self, drive: u8, volume: Volume) -> Result<(), Memory>
        requires drive { IsDrive drive }
        requires empty { in_drive self.old drive ≡ None }
        requires cart { IsCart volume.cart.0 }
        requires label { IsLabel volume.label }
        requires mark { 1 ≤ volume.mark }
        ensures put { OnOk result
            (self.new ≡ set_drive self.old drive (Some (mounted volume))) }
        ensures kept { OnErr result (self.new ≡ self.old) }
    {
        let buffer = MuxBuffer::new(self.alloc, volume.label.units)?;
        self.drives[place_of(drive)] = Some(Mounted::new(volume, buffer));
        Ok(())
    }

    /// Puts the bytes of a copy of a save set from `offset` on into the buffer of a drive, and
    /// answers which of its data blocks they went into, counted from 0.
    pub fn push(&mut self, drive: u8, ssid: Ssid, copy: CopyNo, offset: u64, piece: &[u8]) -> Span
        requires drive { IsDrive drive }
        requires ssid { 1 ≤ ssid.0 }
        requires copy { 1 ≤ copy.0 }
        requires ends { offset + length piece.now ≤ 2 ^ 36 }
        requires can { IsSomeAnd (in_drive self.old drive) (CanPush (length piece.now)) }
        ensures pushed { self.new
            ≡ change_drive self.old drive (after_push ssid.0 copy.0 offset piece.now) }
        ensures first { IfSome (in_drive self.old drive)
            (λ one. result.first ≡ first_used one.buffer piece.now) }
        ensures last { result.last ≡ blocks_in (in_drive self.new drive) - 1 }
    {
        let Some(mounted) = &mut self.drives[place_of(drive)] else {
            unreachable!()
        };
        mounted.push(ssid, copy, offset, piece)
    }

    /// Makes the buffer of a drive its volume's next file. After `Failed` the old files may stand
    /// on the cartridge, or these and the new one: the drive is to be emptied.
    pub fn commit<D: Store>(&mut self, store: &mut D, drive: u8) -> Result<(), Failed>
        requires drive { IsDrive drive }
        requires can { IsSomeAnd (in_drive self.old drive) CanCommit }
        ensures writes { IfSome (in_drive self.old drive) (λ one.
            WritesFile (cart_file_of one) (AddsBuffer one) (MayAddBuffer one)
            (D.view store.old) (D.view store.new) result) }
        ensures committed { OnOk result (self.new ≡ change_drive self.old drive after_commit) }
        ensures failed { OnErr result (self.new ≡ change_drive self.old drive after_fault) }
    {
        let Some(mounted) = &mut self.drives[place_of(drive)] else {
            unreachable!()
        };
        mounted.commit(store)
    }

    /// Empties a drive, whose buffer is empty or whose volume failed.
    pub fn take_out(&mut self, drive: u8)
        requires drive { IsDrive drive }
        requires may { MayTakeOut (in_drive self.old drive) }
        ensures { self.new ≡ set_drive self.old drive None }
    {
        self.drives[place_of(drive)] = None;
    }
}

// Where a drive stands in the list.
fn place_of(drive: u8) -> usize
    requires { IsDrive drive }
    ensures place { result ≡ drive - 1 }
    ensures within { result < 4 }
{
    usize::from(drive) - 1
}

// Whether what is in a drive is a volume of the pool that isn't barred, and takes a piece of so
// many bytes.
fn may_pick(held: &Option<Mounted>, pool: &[u8], length: u64, barred: &[Volid]) -> bool
    ensures { IsTrue result ↔ MayPick pool.now length barred.now held.now }
{
    match held {
        Some(mounted) => mounted.may_pick(pool, length, barred),
        None => false,
    }
}

// Of the drive that is picked so far, if any, and the one at a place behind it: the one that has
// fewer open sessions, where both have as many the first.
fn less_busy(busy: &[u32], picked: Option<usize>, place: usize) -> usize
    requires busy { HasEachDrive busy.now }
    requires place { place < 4 }
    requires picked { IfSome picked (λ best. best < 4) }
    ensures { result ≡ less_busy busy.now picked place }
{
    match picked {
        Some(best) if busy[best] <= busy[place] => best,
        _ => place,
    }
}
