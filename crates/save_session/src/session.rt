//! One session. Its functions see its fields.

ghost use Rattle.std.specs.Prelude.{◌≡◌, ◌+◌, ◌<◌, ◌≤◌, ◌^◌, length, IfOk, OnOk, OnErr, Some, None};
ghost use Rattle.std.specs.Prelude.{vec_len, vec_capacity};
ghost use Rattle.save_stream.specs.Spelling.{IsHead};
ghost use Rattle.save_session.specs.Kept.{IsSessionKept, left_by, room_of, session_view};
ghost use Rattle.save_session.specs.Parts.{IsNextPart, end_in_file_of, is_same_file, with_part};
ghost use Rattle.save_session.specs.Sessions.{check_sent, digest_of, placed_on, started};
ghost use Rattle.save_session.specs.Sessions.{FollowsPiece, with_piece};

use crate::Checked;
use crate::sent_text::{Piece, SentText};
use media_db::Section;
use room_base::Memory;
use save_stream::{SetHead, StreamFault, StreamReader};
use sha2::{Digest, Sha256};
use std::alloc::Global;

/// A save set that is being sent.
#[derive(Drop)]
pub struct Session {
    pub(crate) text: SentText,
    pub(crate) reader: StreamReader,
    /// How many bytes were sent behind the head.
    pub(crate) next: u64,
    /// Holds these bytes.
    pub(crate) hasher: Sha256,
    pub(crate) sections: Vec<Section>,
    pub(crate) drive: Option<u8>,
}

impl Session {
    pub(crate) fn start(alloc: Global, head: SetHead) -> Result<Session, Memory>
        requires { IsHead head }
        ensures view { IfOk result (λ session. session_view session ≡ started head) }
        ensures kept { IfOk result (λ session. IsSessionKept session) }
        ensures room { IfOk result (λ session. 0 < (room_of session).room) }
    {
        let text = SentText::behind(&head);
        Ok(Session {
            text,
            reader: StreamReader::after(alloc, head)?,
            next: 0,
            hasher: Sha256::new(),
            sections: Vec::with_capacity(alloc, 1)?,
            drive: None,
        })
    }

    // The piece is digested once the reader has taken it.
    pub(crate) fn take(&mut self, piece: &[u8]) -> Result<(), StreamFault>
        requires kept { IsSessionKept self.old }
        requires size { self.old.reader.read + length piece.now ≤ 2 ^ 36 }
        ensures read { FollowsPiece piece.now (session_view self.old) result }
        ensures ok { OnOk result
            (session_view self.new ≡ with_piece piece.now (session_view self.old)) }
        ensures err { OnErr result (self.new ≡ self.old) }
        ensures kept { IsSessionKept self.new }
        ensures room { room_of self.new ≡ room_of self.old }
    {
        self.reader.take(piece)?;
        self.text = SentText::with(&self.text, &Piece { bytes: piece });
        self.hasher.update(piece);
        self.next += piece.len() as u64;
        Ok(())
    }

    pub(crate) fn digest(&self) -> Option<[u8; 32]>
        requires { IsSessionKept self.now }
        ensures { result ≡ digest_of (session_view self.now) }
    {
        if !self.reader.ended() {
            return None;
        }
        let hasher = self.hasher.clone().unwrap();
        Some(hasher.finalize())
    }

    pub(crate) fn check(&self, offset: u64, length: u64) -> Checked
        ensures { result ≡ check_sent self.now.next offset length }
    {
        let next = self.next;
        if length <= next && offset <= next - length {
            Checked::Repeat { next }
        } else if offset == next {
            Checked::New
        } else {
            Checked::Gap { expected: next }
        }
    }

    pub(crate) fn place(&mut self, drive: u8, part: Section)
        requires kept { IsSessionKept self.old }
        requires room { vec_len self.old.sections < vec_capacity self.old.sections }
        requires part { IsNextPart part self.old.sections.items }
        ensures view { session_view self.new ≡ placed_on drive part (session_view self.old) }
        ensures kept { IsSessionKept self.new }
        ensures room { (room_of self.old).room ≤ (room_of self.new).room + 1 }
    {
        self.drive = Some(drive);
        add_part(&mut self.sections, part);
    }

    // Makes room for one more section.
    pub(crate) fn reserve(&mut self) -> Result<(), Memory>
        requires { IsSessionKept self.old }
        ensures view { session_view self.new ≡ session_view self.old }
        ensures kept { IsSessionKept self.new }
        ensures room { (room_of self.old).room ≤ (room_of self.new).room }
        ensures ok { OnOk result (0 < (room_of self.new).room) }
    {
        self.sections.reserve(1)?;
        Ok(())
    }

    // It is on no drive, if it was on this one.
    pub(crate) fn leave(&mut self, drive: u8)
        ensures { self.new ≡ left_by drive self.old }
    {
        if self.drive == Some(drive) {
            self.drive = None;
        }
    }
}

// Lengthens the last section where the part lies in its file, else adds the part.
fn add_part(sections: &mut Vec<Section>, part: Section)
    requires { vec_len sections.old < vec_capacity sections.old }
    ensures items { sections.new.items ≡ with_part part sections.old.items }
    ensures capacity { vec_capacity sections.old ≤ vec_capacity sections.new }
    ensures length { vec_len sections.new ≤ vec_len sections.old + 1 }
{
    if end_in_file_of(sections, &part) {
        let at = sections.len() - 1;
        let last = &mut sections[at];
        last.first = last.first.min(part.first);
        last.last = last.last.max(part.last);
        last.to = part.to;
    } else {
        sections.push(part).unwrap();
    }
}

// The last section lies in the file of the part.
fn end_in_file_of(sections: &[Section], part: &Section) -> bool
    ensures { result ≡ end_in_file_of part.now sections.now }
{
    match sections.last() {
        Some(last) => are_in_one_file(last, part),
        None => false,
    }
}

fn are_in_one_file(one: &Section, other: &Section) -> bool
    ensures { result ≡ is_same_file one.now other.now }
{
    one.volid.0 == other.volid.0 && one.mark == other.mark
}
