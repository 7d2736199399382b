ghost use Rattle.std.specs.Prelude.{◌≡◌, ◌+◌, ◌-◌, ◌≤◌, ◌++◌, length, max, take, drop, replicate};
ghost use Rattle.std.specs.Prelude.{OnOk, OnErr};
ghost use Rattle.room_disk.specs.Crash.{overlaid};
ghost use Rattle.room_disk.specs.Held.{Held, blank};

use room_base::Memory;
use std::alloc::Global;
use std::marker::Model;

/// What a crash may leave where bytes were not synced: no letter that opens a region.
const SPOILED: u8 = 0xFF;

/// A file's bytes. They stand at the front of room that is never given back, so that only `grow`
/// takes memory.
#[derive(Drop)]
pub struct FileBytes {
    held: Vec<u8>,
    len: usize,
}

impl Model for FileBytes {
    ghost use Rattle.std.specs.Prelude.{◌≤◌, take, vec_len};
    ghost use Rattle.room_disk.specs.Held.{Held};

    ghost Value = { Held };

    ghost view = { λ file. record {
      bytes = take file.len file.held.items;
      room = vec_len file.held;
    } };

    ghost invariant = { λ file. file.len ≤ vec_len file.held };
}

impl FileBytes {
    pub fn new(alloc: Global) -> FileBytes
        ensures { result ≡ blank }
    {
        FileBytes {
            held: Vec::new(alloc),
            len: 0,
        }
    }

    pub fn as_slice(&self) -> &[u8]
        ensures value { result.now ≡ self.now.bytes }
        ensures held { length self.now.bytes ≤ self.now.room }
    {
        &self.held[..self.len]
    }

    /// Makes room for a file of that length.
    pub fn grow(&mut self, room: usize) -> Result<(), Memory>
        ensures grown { OnOk result (self.new ≡ record self.old { room = max self.old.room room }) }
        ensures same { OnErr result (self.new ≡ self.old) }
    {
        if self.held.len() < room {
            self.held.resize(room, 0)?;
        }
        Ok(())
    }

    /// Writes the piece at a place. Where that is past the end, zeros come between.
    pub fn overlay(&mut self, at: usize, piece: &[u8])
        requires { at + length piece.now ≤ self.old.room }
        ensures bytes { self.new.bytes ≡ overlaid at piece.now self.old.bytes }
        ensures room { self.new.room ≡ self.old.room }
    {
        self.len = overlay(&mut self.held, self.len, at, piece);
    }

    /// Fills a range with 0xFF. Where that is past the end, zeros come between.
    pub fn spoil(&mut self, at: usize, count: usize)
        requires { at + count ≤ self.old.room }
        ensures bytes { self.new.bytes ≡ overlaid at (replicate count 0xFF) self.old.bytes }
        ensures room { self.new.room ≡ self.old.room }
    {
        self.len = spoil(&mut self.held, self.len, at, count);
    }

    /// Fills what stands from `to` on with 0xFF.
    pub fn spoil_end(&mut self, to: usize)
        ensures bytes { self.new.bytes
            ≡ take to self.old.bytes ++ replicate (length self.old.bytes - to) 0xFF }
        ensures room { self.new.room ≡ self.old.room }
    {
        if to < self.len {
            fill(&mut self.held, to, self.len, SPOILED);
        }
    }

    /// Puts other bytes in the place of all.
    pub fn replace(&mut self, bytes: &[u8])
        requires { length bytes.now ≤ self.old.room }
        ensures bytes { self.new.bytes ≡ bytes.now }
        ensures room { self.new.room ≡ self.old.room }
    {
        put(&mut self.held, 0, bytes);
        self.len = bytes.len();
    }

    /// Cuts the file to the length, if it is longer.
    pub fn cut(&mut self, to: usize)
        ensures bytes { self.new.bytes ≡ take to self.old.bytes }
        ensures room { self.new.room ≡ self.old.room }
    {
        self.len = self.len.min(to);
    }
}

// Writes the piece over the first `len` bytes, and answers how many there are then.
#[tactic(auto, using(crate::proofs::Room::written))]
fn overlay(held: &mut [u8], len: usize, at: usize, piece: &[u8]) -> usize
    requires file { len ≤ length held.old }
    requires room { at + length piece.now ≤ length held.old }
    ensures length { result ≡ max len (at + length piece.now) }
    ensures bytes { take result held.new ≡ overlaid at piece.now (take len held.old) }
{
    pad(held, len, at);
    put(held, at, piece);
    len.max(at + piece.len())
}

// Fills a range over the first `len` bytes with 0xFF, and answers how many there are then.
#[tactic(auto, using(crate::proofs::Room::spoiled))]
fn spoil(held: &mut [u8], len: usize, at: usize, count: usize) -> usize
    requires file { len ≤ length held.old }
    requires room { at + count ≤ length held.old }
    ensures length { result ≡ max len (at + count) }
    ensures bytes { take result held.new ≡ overlaid at (replicate count 0xFF) (take len held.old) }
{
    pad(held, len, at);
    fill(held, at, at + count, SPOILED);
    len.max(at + count)
}

// Zeros from the end of the first `len` bytes to `at`, where that is behind it.
#[tactic(auto, using(crate::proofs::Room::padded_front, crate::proofs::Room::padded_back))]
fn pad(held: &mut [u8], len: usize, at: usize)
    requires { at ≤ length held.old }
    ensures front { take at held.new ≡ take at (take len held.old) ++ replicate (at - len) 0 }
    ensures back { drop at held.new ≡ drop at held.old }
{
    if len < at {
        fill(held, len, at, 0);
    }
}

fn put(held: &mut [u8], at: usize, piece: &[u8])
    requires { at + length piece.now ≤ length held.old }
    ensures { held.new ≡ take at held.old ++ piece.now ++ drop (at + length piece.now) held.old }
{
    held[at..at + piece.len()].copy_from_slice(piece);
}

fn fill(held: &mut [u8], from: usize, to: usize, byte: u8)
    requires ordered { from ≤ to }
    requires within { to ≤ length held.old }
    ensures { held.new ≡ take from held.old ++ replicate (to - from) byte ++ drop to held.old }
{
    held[from..to].fill(byte);
}
