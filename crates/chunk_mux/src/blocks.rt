//! A file's blocks in memory, which chunks are put into.

ghost use Rattle.std.specs.Prelude.{◌≡◌, ◌+◌, ◌-◌, ◌*◌, ◌≤◌, ◌<◌, ◌^◌, ◌++◌, ◌∷◌, ◌↔◌, [], List};
ghost use Rattle.std.specs.Prelude.{length, drop, IfOk, IsTrue};
ghost use Rattle.volume_block.specs.Chunks.{chunk_head};
ghost use Rattle.volume_block.specs.Layout.{IsUnits};
ghost use Rattle.volume_block.specs.Region.{AreBlocks, IsSealed};
ghost use Rattle.chunk_mux.specs.Text.{written};
ghost use Rattle.chunk_mux.specs.Packing.{BufferView, empty, Fits, pack, first_used, room_in};
ghost use Rattle.chunk_mux.specs.Packing.{payload_size, chunk_size, chunk_of, add_last};

use crate::Span;
use crate::sealing::make_region;
use crate::size::{data_size, payload_size};
use room_base::{CopyNo, Memory, Ssid, Volid};
use std::alloc::Global;
use std::marker::Model;
use volume_block::{BLOCK_SIZE, CHUNK_HEAD_SIZE, MAX_FILE_BLOCKS, PAYLOAD_START, write_chunk_head};

/// The data blocks of a buffer.
const DATA_BLOCKS: usize = MAX_FILE_BLOCKS as usize;

/// The data blocks of one file, which pieces of streams are put into, one behind the other.
/// Contracts see the units that a data block has, and the chunks of each that is begun.
#[derive(Drop)]
pub(crate) struct DataBlocks {
    /// How many units of 4,096 bytes a data block has.
    units: u32,
    /// The bytes of a mark, the data blocks and a closed block.
    bytes: Vec<u8>,
    /// How many bytes of each data block's payload are used.
    used: [u32; DATA_BLOCKS],
    /// How many data blocks are begun.
    begun: usize,
}

impl Model for DataBlocks {
    ghost use Rattle.chunk_mux.specs.Packing.{BufferView};

    ghost Value = { BufferView };

    ghost use Rattle.chunk_mux.specs.Blocks.{view_of, AreFilled};

    ghost view = { view_of };

    ghost invariant = { AreFilled };
}

impl DataBlocks {
    ghost use Rattle.std.specs.Borrow.{sem};
    ghost use Rattle.chunk_mux.specs.Lending.{BlocksStay};

    /// No block is begun. All memory is taken here.
    pub(crate) fn new(alloc: Global, units: u32) -> Result<DataBlocks, Memory>
        requires { IsUnits units }
        ensures { IfOk result (λ buffer. buffer ≡ empty units) }
    {
        let size = 2 * BLOCK_SIZE + data_size(units) * DATA_BLOCKS;
        Ok(DataBlocks {
            units,
            bytes: vec![in alloc; 0; size]?,
            used: [0; DATA_BLOCKS],
            begun: 0,
        })
    }

    /// How many units a data block has.
    pub(crate) fn units(&self) -> u32
        ensures units { result ≡ self.now.units }
        ensures allowed { IsUnits self.now.units }
    {
        self.units
    }

    /// How many data blocks are begun.
    pub(crate) fn count(&self) -> u32
        ensures count { result ≡ length self.now.blocks }
        ensures most { result ≤ 64 }
        ensures units { IsUnits self.now.units }
        ensures allowed { AreBlocks self.now.units self.now.blocks }
    {
        self.begun as u32
    }

    /// Begins anew, in the same memory.
    pub(crate) fn clear(&mut self)
        ensures { self.new ≡ empty self.old.units }
    {
        self.begun = 0;
    }

    /// Whether there is room for a piece of so many bytes.
    pub(crate) fn fits(&self, length: u64) -> bool
        ensures { IsTrue result ↔ Fits self.now length }
    {
        length <= (self.room() + self.chunk_size() * (DATA_BLOCKS - self.begun)) as u64
    }

    /// Puts the bytes of a copy of a save set from `offset` on behind what is there. They begin a
    /// chunk of their own. It takes no memory, and answers where they went; of a piece without
    /// bytes nothing is put, and the last data block is answered, or 0 where none is begun.
    pub(crate) fn push(&mut self, ssid: Ssid, copy: CopyNo, offset: u64, piece: &[u8]) -> Span
        requires ssid { 1 ≤ ssid.0 }
        requires copy { 1 ≤ copy.0 }
        requires ends { offset + length piece.now ≤ 2 ^ 36 }
        requires room { Fits self.old (length piece.now) }
        ensures blocks { self.new ≡ pack self.old ssid.0 copy.0 offset piece.now }
        ensures first { result.first ≡ first_used self.old piece.now }
        ensures last { result.last ≡ length self.new.blocks - 1 }
        ensures most { length self.new.blocks ≤ 64 }
        ensures units { IsUnits self.new.units }
        ensures allowed { AreBlocks self.new.units self.new.blocks }
    {
        let first = self.first_used(piece);
        let mut at = offset;
        let mut rest = piece;
        while !rest.is_empty() {
            let count = self.push_front(ssid, copy, at, rest);
            at += count as u64;
            rest = &rest[count..];
        }
        let last = self.count().saturating_sub(1);
        Span { first, last }
    }

    /// Seals the blocks, each of which is digested once, for a volume and a mark place, and lends
    /// the region that a commit there writes. The blocks stay as they were.
    pub(crate) fn seal(&mut self, volid: Volid, mark: u64) -> &[u8]
        requires some { 1 ≤ length self.old.blocks }
        requires volid { 1 ≤ volid.0 }
        requires mark { (1 ≤ mark) × (mark < 2 ^ 32) }
        ensures* stays { sem 𝓛 (BlocksStay self.entry) }
        ensures sealed { IsSealed volid.0 mark self.old.units self.old.blocks result.now }
    {
        let used = &self.used[..self.begun];
        make_region(volid, mark, self.units, used, &mut self.bytes);
        &self.bytes[..2 * BLOCK_SIZE + data_size(self.units) * self.begun]
    }

    // The most bytes of a chunk that has a data block of its own.
    fn chunk_size(&self) -> usize
        ensures size { result ≡ chunk_size (payload_size self.now.units) }
        ensures some { 1 ≤ result }
    {
        payload_size(self.units) - CHUNK_HEAD_SIZE
    }

    // The most bytes of a chunk in the last block.
    fn room(&self) -> usize
        ensures { result ≡ room_in (payload_size self.now.units) self.now.blocks }
    {
        if self.begun == 0 {
            return 0;
        }
        self.chunk_size()
            .saturating_sub(self.used[self.begun - 1] as usize)
    }

    fn first_used(&self, piece: &[u8]) -> u32
        ensures { result ≡ first_used self.now piece.now }
    {
        if piece.is_empty() || self.room() > 0 {
            self.count().saturating_sub(1)
        } else {
            self.count()
        }
    }

    // Puts the first bytes of a piece as one chunk, and answers how many.
    fn push_front(&mut self, ssid: Ssid, copy: CopyNo, offset: u64, piece: &[u8]) -> usize
        requires ssid { 1 ≤ ssid.0 }
        requires copy { 1 ≤ copy.0 }
        requires ends { offset + length piece.now ≤ 2 ^ 36 }
        requires some { 1 ≤ length piece.now }
        requires room { Fits self.old (length piece.now) }
        ensures count { (1 ≤ result) × (result ≤ length piece.now) }
        ensures room { Fits self.new (length piece.now - result) }
        ensures blocks { pack self.new ssid.0 copy.0 (offset + result) (drop result piece.now)
            ≡ pack self.old ssid.0 copy.0 offset piece.now }
    {
        let room = self.room();
        if room > 0 {
            let count = room.min(piece.len());
            self.add_chunk(ssid, copy, offset, &piece[..count]);
            count
        } else {
            let count = self.chunk_size().min(piece.len());
            self.begin_block(ssid, copy, offset, &piece[..count]);
            count
        }
    }

    // Puts a chunk into the last block.
    fn add_chunk(&mut self, ssid: Ssid, copy: CopyNo, offset: u64, piece: &[u8])
        requires ssid { 1 ≤ ssid.0 }
        requires copy { 1 ≤ copy.0 }
        requires ends { offset + length piece.now ≤ 2 ^ 36 }
        requires some { 1 ≤ length piece.now }
        requires room { length piece.now ≤ room_in (payload_size self.old.units) self.old.blocks }
        ensures { self.new ≡ record self.old {
          blocks = add_last self.old.blocks (chunk_of ssid.0 copy.0 offset piece.now);
        } }
    {
        let last = self.begun - 1;
        let used = self.used[last] as usize;
        let at = BLOCK_SIZE + data_size(self.units) * last + PAYLOAD_START + used;
        put_chunk(ssid, copy, offset, piece, at, &mut self.bytes);
        self.used[last] = (used + CHUNK_HEAD_SIZE + piece.len()) as u32;
    }

    // Begins a block with a chunk.
    fn begin_block(&mut self, ssid: Ssid, copy: CopyNo, offset: u64, piece: &[u8])
        requires ssid { 1 ≤ ssid.0 }
        requires copy { 1 ≤ copy.0 }
        requires ends { offset + length piece.now ≤ 2 ^ 36 }
        requires some { 1 ≤ length piece.now }
        requires room { length piece.now ≤ chunk_size (payload_size self.old.units) }
        requires more { length self.old.blocks < 64 }
        ensures { self.new ≡ record self.old {
          blocks = self.old.blocks ++ chunk_of ssid.0 copy.0 offset piece.now ∷ [];
        } }
    {
        let next = self.begun;
        let at = BLOCK_SIZE + data_size(self.units) * next + PAYLOAD_START;
        put_chunk(ssid, copy, offset, piece, at, &mut self.bytes);
        self.used[next] = (CHUNK_HEAD_SIZE + piece.len()) as u32;
        self.begun += 1;
    }
}

// Puts a chunk in place of the bytes from `at` on.
fn put_chunk(ssid: Ssid, copy: CopyNo, offset: u64, piece: &[u8], at: usize, bytes: &mut [u8])
    requires piece { length piece.now < 2 ^ 32 }
    requires room { at + (24 + length piece.now) ≤ length bytes.old }
    ensures { bytes.new ≡ written at
        (chunk_head ssid.0 copy.0 offset (length piece.now) ++ piece.now) bytes.old }
{
    write_chunk(ssid, copy, offset, piece, &mut bytes[at..]);
}

// Writes a chunk at the front of what is free of a payload.
fn write_chunk(ssid: Ssid, copy: CopyNo, offset: u64, piece: &[u8], free: &mut [u8])
    requires piece { length piece.now < 2 ^ 32 }
    requires room { 24 + length piece.now ≤ length free.old }
    ensures { free.new ≡ (chunk_head ssid.0 copy.0 offset (length piece.now) ++ piece.now)
        ++ drop (24 + length piece.now) free.old }
{
    write_chunk_head(ssid, copy, offset, piece.len() as u32, free);
    free[CHUNK_HEAD_SIZE..CHUNK_HEAD_SIZE + piece.len()].copy_from_slice(piece);
}
