//! A volume in a drive.

ghost use Rattle.std.specs.Prelude.{◌≡◌, ◌≤◌, ◌+◌, ◌^◌, ◌-◌, ◌↔◌, Some, OnOk, OnErr, IsTrue};
ghost use Rattle.std.specs.Prelude.{length};
ghost use Rattle.room_disk.specs.Writing.{WritesFile};
ghost use Rattle.volume_block.specs.Region.{AreBlocks};
ghost use Rattle.volume_block.specs.Valid.{IsLabel};
ghost use Rattle.chunk_mux.specs.Packing.{empty, first_used};
ghost use Rattle.volume_store.specs.Writes.{IsCart};
ghost use Rattle.slot_changer.specs.Drives.{IsMounted, holds_set};
ghost use Rattle.slot_changer.specs.Drives.{mounted, after_push, after_commit, after_fault};
ghost use Rattle.slot_changer.specs.Taking.{fits, takes, CanPush, CanCommit};
ghost use Rattle.slot_changer.specs.Picking.{MayPick};
ghost use Rattle.slot_changer.specs.Committing.{cart_file_of, AddsBuffer, MayAddBuffer};

use chunk_mux::{MuxBuffer, Span};
use room_base::{CopyNo, Failed, Ssid, Volid};
use room_disk::Store;
use std::marker::Model;
use volume_block::MAX_FILE_BLOCKS;
use volume_store::Volume;

/// A volume in a drive, with the buffer of its next file.
#[derive(Drop)]
pub(crate) struct Mounted {
    volume: Volume,
    buffer: MuxBuffer,
    /// Whether a commit has failed.
    failed: bool,
}

impl Model for Mounted {
    ghost use Rattle.slot_changer.specs.Drives.{DriveView};

    ghost Value = { DriveView };

    ghost use Rattle.slot_changer.specs.Inside.{drive_view, IsDriveInside};

    ghost view = { drive_view };

    ghost invariant = { IsDriveInside };
}

impl Mounted {
    pub(crate) fn new(volume: Volume, buffer: MuxBuffer) -> Mounted
        requires cart { IsCart volume.cart.0 }
        requires label { IsLabel volume.label }
        requires mark { 1 ≤ volume.mark }
        requires buffer { buffer ≡ empty volume.label.units }
        ensures { result ≡ mounted volume }
    {
        Mounted {
            volume,
            buffer,
            failed: false,
        }
    }

    pub(crate) fn volume(&self) -> &Volume
        ensures volume { result.now ≡ self.now.volume }
        ensures allowed { IsMounted self.now }
    {
        &self.volume
    }

    /// How many data blocks the buffer has.
    pub(crate) fn blocks(&self) -> u32
        ensures count { result ≡ length self.now.buffer.blocks }
        ensures most { result ≤ 64 }
        ensures allowed { AreBlocks self.now.buffer.units self.now.buffer.blocks }
    {
        self.buffer.blocks()
    }

    /// Whether the buffer has a chunk of the save set.
    pub(crate) fn holds(&self, ssid: Ssid) -> bool
        ensures { result ≡ holds_set (Some self.now) ssid.0 }
    {
        self.buffer.holds(ssid)
    }

    /// Whether a commit has failed.
    pub(crate) fn has_failed(&self) -> bool
        ensures { result ≡ self.now.failed }
    {
        self.failed
    }

    /// Whether a piece of so many bytes fits the buffer as it is.
    pub(crate) fn fits(&self, length: u64) -> bool
        ensures { result ≡ fits (Some self.now) length }
    {
        self.buffer.fits(length)
    }

    /// Whether the volume takes a piece of so many bytes, be it behind a commit.
    pub(crate) fn takes(&self, length: u64) -> bool
        ensures { result ≡ takes (Some self.now) length }
    {
        let label = &self.volume.label;
        // A mark, the most data blocks, and the closed block behind them.
        let file = MAX_FILE_BLOCKS * label.units + 2;
        let needed = if self.buffer.fits(length) {
            file
        } else {
            file + label.units * self.buffer.blocks() + 1
        };
        self.volume.mark.saturating_add(u64::from(needed)) <= u64::from(label.capacity)
    }

    /// Whether it is a volume of the pool that isn't barred, and takes a piece of so many bytes.
    pub(crate) fn may_pick(&self, pool: &[u8], length: u64, barred: &[Volid]) -> bool
        ensures { IsTrue result ↔ MayPick pool.now length barred.now (Some self.now) }
    {
        let label = &self.volume.label;
        &label.pool[..usize::from(label.pool_length)] == pool
            && !barred.contains(&label.volid)
            && self.takes(length)
    }

    /// Puts a piece of a copy of a save set into the buffer.
    pub(crate) fn push(&mut self, ssid: Ssid, copy: CopyNo, offset: u64, piece: &[u8]) -> Span
        requires ssid { 1 ≤ ssid.0 }
        requires copy { 1 ≤ copy.0 }
        requires ends { offset + length piece.now ≤ 2 ^ 36 }
        requires can { CanPush (length piece.now) self.old }
        ensures pushed { self.new ≡ after_push ssid.0 copy.0 offset piece.now self.old }
        ensures first { result.first ≡ first_used self.old.buffer piece.now }
        ensures last { result.last ≡ length self.new.buffer.blocks - 1 }
    {
        self.buffer.push(ssid, copy, offset, piece)
    }

    /// Commits the buffer, which is then empty.
    pub(crate) fn commit<D: Store>(&mut self, store: &mut D) -> Result<(), Failed>
        requires { CanCommit self.old }
        ensures writes { WritesFile (cart_file_of self.old) (AddsBuffer self.old)
            (MayAddBuffer self.old) (D.view store.old) (D.view store.new) result }
        ensures committed { OnOk result (self.new ≡ after_commit self.old) }
        ensures failed { OnErr result (self.new ≡ after_fault self.old) }
    {
        let count = self.buffer.blocks();
        let volume = &mut self.volume;
        let region = self.buffer.seal(volume.label.volid, volume.mark);
        match volume.commit(store, region, count) {
            Ok(()) => {
                self.buffer.clear();
                Ok(())
            }
            Err(failed) => {
                self.failed = true;
                Err(failed)
            }
        }
    }
}
