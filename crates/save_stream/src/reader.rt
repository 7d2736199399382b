//! Reads a stream that comes in pieces.

ghost use Rattle.std.specs.Prelude.{◌≡◌, ◌+◌, ◌≤◌, ◌^◌, length, true, IfOk, OnErr, option_copied};
ghost use Rattle.save_stream.specs.Fields.{IsIndex};
ghost use Rattle.save_stream.specs.Spelling.{IsHead, PathsAscend, head_text};
ghost use Rattle.save_stream.specs.Reading.{FollowsReading, start, behind_head, reads};
ghost use Rattle.save_stream.specs.Standing.{IsStreamSoFar};
ghost use Rattle.save_stream.specs.View.{reading_of};

use crate::encode::head_length;
use crate::progress::Progress;
use crate::state::{MAX_PENDING, State};
use crate::{IndexEntry, SetHead, StreamFault};
use room_base::Memory;
use std::alloc::Global;
use std::marker::Model;

/// Reads the stream of a save set, which may come in any pieces. Contracts see what it has read.
#[derive(Drop)]
pub struct StreamReader {
    alloc: Global,
    pub(crate) state: State,
}

impl Model for StreamReader {
    ghost use Rattle.save_stream.specs.Reading.{Reading};

    ghost Value = { Reading };

    ghost use Rattle.save_stream.specs.View.{reading_of};

    ghost view = { λ reader. reading_of reader.state };

    ghost use Rattle.save_stream.specs.Standing.{IsStreamSoFar};

    ghost invariant = { λ reader. IsStreamSoFar (reading_of reader.state) };
}

impl StreamReader {
    /// A reader of a whole stream.
    pub fn whole(alloc: Global) -> Result<StreamReader, Memory>
        ensures { IfOk result (λ reader. reader ≡ start) }
    {
        StreamReader::from(alloc, 0, None)
    }

    /// A reader that stands behind the text of this head.
    pub fn after(alloc: Global, head: SetHead) -> Result<StreamReader, Memory>
        requires { IsHead head }
        ensures { IfOk result (λ reader. reader ≡ behind_head (length (head_text head)) head) }
    {
        let read = head_length(&head.parts());
        StreamReader::from(alloc, read, Some(head))
    }

    fn from(alloc: Global, read: u64, head: Option<SetHead>) -> Result<StreamReader, Memory>
        requires { IsStreamSoFar (record start { read = read; head = head }) }
        ensures { IfOk result (λ reader. reader ≡ record start { read = read; head = head }) }
    {
        let progress = Progress {
            read,
            left: 0,
            ended: false,
            head,
            entries: Vec::new(alloc),
        };
        let state = State {
            progress,
            pending: Vec::with_capacity(alloc, MAX_PENDING)?,
            done: 0,
        };
        Ok(StreamReader { alloc, state })
    }

    /// Reads the next bytes of the stream. An `Err` leaves the reader as it was.
    pub fn take(&mut self, piece: &[u8]) -> Result<(), StreamFault>
        requires { self.old.read + length piece.now ≤ 2 ^ 36 }
        ensures read { FollowsReading (reads self.old piece.now) result self.new }
        ensures err { OnErr result (self.new ≡ self.old) }
    {
        let savepoint = self.state.savepoint();
        match self.state.take(self.alloc, piece) {
            Ok(()) => Ok(()),
            Err(fault) => {
                self.state.go_back(savepoint);
                Err(fault)
            }
        }
    }

    /// The stream has ended, and no byte may follow.
    pub fn ended(&self) -> bool
        ensures { result ≡ self.now.ended }
    {
        self.state.progress.ended
    }

    /// The head of the stream, once it was read.
    pub fn head(&self) -> Option<&SetHead>
        ensures { option_copied result ≡ self.now.head }
    {
        self.state.progress.head.as_ref()
    }

    /// The entries that were read, up to the bytes of their files.
    pub fn entries(&self) -> &[IndexEntry]
        ensures value { result.now ≡ self.now.entries }
        ensures order { PathsAscend result.now }
    {
        &self.state.progress.entries
    }

    /// Hands over the index of a stream that has ended.
    pub fn into_entries(self) -> Vec<IndexEntry>
        requires { self.ended ≡ true }
        ensures value { result.items ≡ self.entries }
        ensures order { PathsAscend result.items }
        ensures index { IsIndex result.items }
    {
        let state = self.state;
        let progress = state.progress;
        progress.entries
    }

    /// How many bytes of the stream were read, with those of a head that was given.
    pub fn read(&self) -> u64
        ensures { result ≡ self.now.read }
    {
        self.state.progress.read
    }
}
