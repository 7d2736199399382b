//! How a reader takes the bytes of its stream.

ghost use Rattle.std.specs.Prelude.{◌≡◌, ◌+◌, ◌<◌, ◌≤◌, ◌^◌, false, length, vec_len, OnOk, OnErr};
ghost use Rattle.save_stream.specs.Items.{IsWaiting};
ghost use Rattle.save_stream.specs.Reading.{FollowsReading, FollowsFront, reads};
ghost use Rattle.save_stream.specs.View.{reading_of, Keeps, IsSavepoint};

use crate::StreamFault;
use crate::progress::Progress;
use std::alloc::Global;

/// The most bytes of a head, an entry up to those of its file, or an end: an entry of a file with
/// the longest path.
const MAX_ITEM: usize = 1043;

/// The most bytes that are pending while a piece is taken: an item that was begun before it, and
/// one that is cut off behind it.
pub(crate) const MAX_PENDING: usize = 2 * MAX_ITEM;

/// What is read of a stream, with the bytes of an item that isn't complete.
#[derive(Drop)]
pub(crate) struct State {
    pub(crate) progress: Progress,
    /// The first `done` bytes are of an item that the piece at hand completed.
    pub(crate) pending: Vec<u8>,
    pub(crate) done: usize,
}

/// What has to be known of a state before a piece, to go back to it.
#[derive(Clone, Copy)]
pub(crate) struct Savepoint {
    read: u64,
    left: u64,
    ended: bool,
    has_head: bool,
    /// How many entries there are.
    entries: usize,
    /// How many bytes are pending.
    pending: usize,
    done: usize,
}

impl State {
    pub(crate) fn savepoint(&self) -> Savepoint
        ensures { IsSavepoint result self.now }
    {
        Savepoint {
            read: self.progress.read,
            left: self.progress.left,
            ended: self.progress.ended,
            has_head: self.progress.head.is_some(),
            entries: self.progress.entries.len(),
            pending: self.pending.len(),
            done: self.done,
        }
    }

    /// Goes back to what the state was, when a part of a piece was taken since.
    pub(crate) fn go_back(&mut self, savepoint: Savepoint)
        ensures { (old : State) → IsSavepoint savepoint old → Keeps old self.old
            → reading_of self.new ≡ reading_of old }
    {
        self.progress.read = savepoint.read;
        self.progress.left = savepoint.left;
        self.progress.ended = savepoint.ended;
        self.progress.entries.truncate(savepoint.entries);
        if !savepoint.has_head {
            self.progress.head = None;
        }
        self.pending.truncate(savepoint.pending);
        self.done = savepoint.done;
    }

    /// Takes a piece. After an `Err` a part of it was taken.
    pub(crate) fn take(&mut self, alloc: Global, piece: &[u8]) -> Result<(), StreamFault>
        requires room { self.old.progress.read + length piece.now ≤ 2 ^ 36 }
        requires waiting { IsWaiting (reading_of self.old) }
        ensures read { FollowsReading (reads (reading_of self.old) piece.now) result
            (reading_of self.new) }
        ensures kept { OnErr result (Keeps self.old self.new) }
    {
        let mut rest = piece;
        while !rest.is_empty() {
            let count = self.take_front(alloc, rest)?;
            rest = &rest[count..];
        }
        self.forget_done();
        Ok(())
    }

    // Takes bytes of a file, an item, or all bytes where it isn't complete, and answers how many.
    fn take_front(&mut self, alloc: Global, bytes: &[u8]) -> Result<usize, StreamFault>
        requires some { 0 < length bytes.now }
        requires room { self.old.progress.read + length bytes.now ≤ 2 ^ 36 }
        requires waiting { IsWaiting (reading_of self.old) }
        ensures read { FollowsFront (reading_of self.old) (reading_of self.new) bytes.now result }
        ensures waiting { OnOk result (IsWaiting (reading_of self.new)) }
        ensures kept { Keeps self.old self.new }
    {
        if self.progress.ended {
            return Err(StreamFault::Bad {
                offset: self.progress.read,
            });
        }
        if self.progress.left > 0 {
            let count = self.progress.left.min(bytes.len() as u64);
            self.progress.left -= count;
            self.progress.read += count;
            return Ok(count as usize);
        }
        if self.done < self.pending.len() {
            self.take_pending(alloc, bytes)
        } else {
            self.take_next(alloc, bytes)
        }
    }

    // Takes the item that begins these bytes; nothing is pending.
    fn take_next(&mut self, alloc: Global, bytes: &[u8]) -> Result<usize, StreamFault>
        requires some { 0 < length bytes.now }
        requires room { self.old.progress.read + length bytes.now ≤ 2 ^ 36 }
        requires waiting { IsWaiting (reading_of self.old) }
        requires going { (self.old.progress.ended ≡ false) × (self.old.progress.left ≡ 0) }
        requires none { vec_len self.old.pending ≤ self.old.done }
        ensures read { FollowsFront (reading_of self.old) (reading_of self.new) bytes.now result }
        ensures waiting { OnOk result (IsWaiting (reading_of self.new)) }
        ensures kept { Keeps self.old self.new }
    {
        let end = self.progress.read + bytes.len() as u64;
        match self.progress.take_item(alloc, bytes, end) {
            Ok(Some(behind)) => Ok(bytes.len() - behind),
            Ok(None) => {
                let done = self.pending.len();
                self.pending.extend_from_slice(bytes)?;
                self.progress.read = end;
                self.done = done;
                Ok(bytes.len())
            }
            Err(fault) => Err(fault),
        }
    }

    // Takes the item that begins the pending bytes with the first of these behind them.
    fn take_pending(&mut self, alloc: Global, bytes: &[u8]) -> Result<usize, StreamFault>
        requires some { 0 < length bytes.now }
        requires room { self.old.progress.read + length bytes.now ≤ 2 ^ 36 }
        requires waiting { IsWaiting (reading_of self.old) }
        requires going { (self.old.progress.ended ≡ false) × (self.old.progress.left ≡ 0) }
        requires some_pending { self.old.done < vec_len self.old.pending }
        ensures read { FollowsFront (reading_of self.old) (reading_of self.new) bytes.now result }
        ensures waiting { OnOk result (IsWaiting (reading_of self.new)) }
        ensures kept { Keeps self.old self.new }
    {
        let judged = self.pending.len() - self.done;
        let count = bytes.len().min(MAX_ITEM);
        self.pending.extend_from_slice(&bytes[..count])?;
        let end = self.progress.read + count as u64;
        let pending = &self.pending[self.done..];
        match self.progress.take_more(alloc, judged, pending, end) {
            Ok(Some(behind)) => {
                let done = self.pending.len() - behind;
                self.pending.truncate(done);
                self.done = done;
                Ok(count - behind)
            }
            Ok(None) => {
                self.progress.read = end;
                Ok(count)
            }
            Err(fault) => Err(fault),
        }
    }

    // Drops the bytes of an item that is complete.
    fn forget_done(&mut self)
        ensures { reading_of self.new ≡ reading_of self.old }
    {
        let done = self.done.min(self.pending.len());
        let left = self.pending.len() - done;
        self.pending.rotate_left(done);
        self.pending.truncate(left);
        self.done = 0;
    }
}
