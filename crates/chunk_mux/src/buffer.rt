//! A file's data blocks in memory, while they are filled.

ghost use Rattle.std.specs.Prelude.{◌≡◌, ◌+◌, ◌-◌, ◌≤◌, ◌<◌, ◌^◌, ◌↔◌, length, IfOk, IsTrue};
ghost use Rattle.volume_block.specs.Chunks.{all_chunks};
ghost use Rattle.volume_block.specs.Layout.{IsUnits};
ghost use Rattle.volume_block.specs.Region.{AreBlocks, IsSealed};
ghost use Rattle.chunk_mux.specs.Packing.{empty, Fits, pack, first_used, most_chunks};
ghost use Rattle.chunk_mux.specs.Pushes.{has_set};

use crate::Span;
use crate::blocks::DataBlocks;
use crate::size::payload_size;
use crate::ssids::SsidSet;
use room_base::{CopyNo, Memory, Ssid, Volid};
use std::alloc::Global;
use std::marker::Model;
use volume_block::{CHUNK_HEAD_SIZE, MAX_FILE_BLOCKS};

/// The data blocks of one file, which pieces of streams are put into, one behind the other.
/// Contracts see the units that a data block has, and the chunks of each that is begun.
#[derive(Drop)]
pub struct MuxBuffer {
    blocks: DataBlocks,
    /// The save sets that have a chunk.
    ssids: SsidSet,
}

impl Model for MuxBuffer {
    ghost use Rattle.chunk_mux.specs.Packing.{BufferView};

    ghost Value = { BufferView };

    ghost use Rattle.chunk_mux.specs.Buffer.{view_of, IsBuffer};

    ghost view = { view_of };

    ghost invariant = { IsBuffer };
}

impl MuxBuffer {
    ghost use Rattle.std.specs.Borrow.{sem};
    ghost use Rattle.chunk_mux.specs.Lending.{StaysAsItWas};

    /// An empty buffer, whose data blocks have so many units of 4,096 bytes. It takes all its
    /// memory here.
    pub fn new(alloc: Global, units: u32) -> Result<MuxBuffer, Memory>
        requires { IsUnits units }
        ensures { IfOk result (λ buffer. buffer ≡ empty units) }
    {
        Ok(MuxBuffer {
            blocks: DataBlocks::new(alloc, units)?,
            ssids: SsidSet::new(alloc, max_chunks(units))?,
        })
    }

    /// How many units of 4,096 bytes a data block has.
    pub fn units(&self) -> u32
        ensures units { result ≡ self.now.units }
        ensures allowed { IsUnits self.now.units }
    {
        self.blocks.units()
    }

    /// How many data blocks are begun.
    pub fn blocks(&self) -> u32
        ensures count { result ≡ length self.now.blocks }
        ensures most { result ≤ 64 }
        ensures allowed { AreBlocks self.now.units self.now.blocks }
    {
        self.blocks.count()
    }

    /// Whether a save set has a chunk in the buffer.
    pub fn holds(&self, ssid: Ssid) -> bool
        ensures { result ≡ has_set ssid.0 (all_chunks self.now.blocks) }
    {
        self.ssids.contains(ssid)
    }

    /// Empties the buffer, which keeps its memory.
    pub fn clear(&mut self)
        ensures { self.new ≡ empty self.old.units }
    {
        self.blocks.clear();
        self.ssids.clear();
    }

    /// Whether there is room for a piece of so many bytes.
    pub fn fits(&self, length: u64) -> bool
        ensures { IsTrue result ↔ Fits self.now length }
    {
        self.blocks.fits(length)
    }

    /// Puts the bytes of a copy of a save set from `offset` on behind what is there. They begin a
    /// chunk of their own. It takes no memory, and answers where they went; of a piece without
    /// bytes nothing is put, and the last data block is answered, or 0 where none is begun.
    pub fn push(&mut self, ssid: Ssid, copy: CopyNo, offset: u64, piece: &[u8]) -> Span
        requires ssid { 1 ≤ ssid.0 }
        requires copy { 1 ≤ copy.0 }
        requires ends { offset + length piece.now ≤ 2 ^ 36 }
        requires room { Fits self.old (length piece.now) }
        ensures blocks { self.new ≡ pack self.old ssid.0 copy.0 offset piece.now }
        ensures first { result.first ≡ first_used self.old piece.now }
        ensures last { result.last ≡ length self.new.blocks - 1 }
    {
        let span = self.blocks.push(ssid, copy, offset, piece);
        if !piece.is_empty() {
            self.ssids.add(ssid);
        }
        span
    }

    /// Seals the blocks, each of which is digested once, for a volume and a mark place, and lends
    /// the region that a commit there writes. The buffer stays as it was.
    pub fn seal(&mut self, volid: Volid, mark: u64) -> &[u8]
        requires some { 1 ≤ length self.old.blocks }
        requires volid { 1 ≤ volid.0 }
        requires mark { (1 ≤ mark) × (mark < 2 ^ 32) }
        ensures* stays { sem 𝓛 (StaysAsItWas self.entry) }
        ensures sealed { IsSealed volid.0 mark self.old.units self.old.blocks result.now }
    {
        self.blocks.seal(volid, mark)
    }
}

// The most chunks of a file's data blocks of so many units: each takes a byte more than its head at
// least.
fn max_chunks(units: u32) -> usize
    requires { IsUnits units }
    ensures { result ≡ most_chunks units }
{
    MAX_FILE_BLOCKS as usize * (payload_size(units) / (CHUNK_HEAD_SIZE + 1))
}
