//! Edits of one record, in place. None takes memory.

ghost use Rattle.std.specs.Prelude.{◌≡◌, ◌==◌, ◌+◌, ◌<◌, ◌^◌, [], IfSome, length, position};
ghost use Rattle.std.specs.Prelude.{vec_capacity};
ghost use Rattle.std.specs.List.{list_any};
ghost use Rattle.media_db.specs.Edits.{aborted, amended, copies_off, finished};
ghost use Rattle.media_db.specs.Edits.{has_copy_if_complete, has_done, is_complete, is_done};
ghost use Rattle.media_db.specs.Edits.{is_done_on, purged_by, with_begun_copy, with_copy_done};
ghost use Rattle.media_db.specs.Edits.{with_copy_removed, with_done_copy, without_copies_on};
ghost use Rattle.media_db.specs.Edits.{without_copy};

use crate::{CopyState, Record, RecordState, Section, SetCopy};
use room_base::{CopyNo, Items, Moment, Volid};

impl Record {
    pub(crate) fn abort(&mut self)
        ensures { self.new ≡ aborted self.old }
    {
        self.state = RecordState::Aborted;
    }

    pub(crate) fn finish(
        &mut self,
        files: u32,
        bytes: u64,
        digest: [u8; 32],
        sections: Items<Section>,
    )
        ensures { self.new ≡ finished files bytes digest sections self.old }
    {
        self.state = RecordState::Complete;
        self.files = files;
        self.bytes = bytes;
        self.digest = digest;
        finish_copy_of(self.copies.list(), CopyNo(1), sections);
    }

    pub(crate) fn amend(&mut self, browse: Moment, retain: Moment, hold: bool, changed: u64)
        ensures { self.new ≡ amended browse retain hold changed self.old }
    {
        self.browse = browse;
        self.retain = retain;
        self.hold = hold;
        self.changed = changed;
    }

    pub(crate) fn purge(&mut self, changed: u64)
        ensures { self.new ≡ purged_by changed self.old }
    {
        self.purged = true;
        self.changed = changed;
    }

    // The copies move into the list that has room for one more.
    pub(crate) fn begin_copy(&mut self, no: CopyNo, room: Vec<SetCopy>)
        requires number { no.0 + 1 < 2 ^ 32 }
        requires empty { room.items ≡ [] }
        requires room { length self.old.copies < vec_capacity room }
        ensures { self.new ≡ with_begun_copy no self.old }
    {
        let mut copies = room;
        copies.append(self.copies.list()).unwrap();
        let sections = Items::of(Vec::new(self.copies.allocator()));
        let copy = SetCopy {
            no,
            state: CopyState::Begun,
            sections,
        };
        copies.push(copy).unwrap();
        self.copies = Items::of(copies);
        self.next_copy = no.0 + 1;
    }

    pub(crate) fn finish_copy(&mut self, no: CopyNo, sections: Items<Section>)
        ensures { self.new ≡ with_done_copy no sections self.old }
    {
        finish_copy_of(self.copies.list(), no, sections);
    }

    pub(crate) fn remove_copy(&mut self, no: CopyNo)
        ensures { self.new ≡ with_copy_removed no self.old }
    {
        remove_copy_of(self.copies.list(), no);
    }

    // Without the done copies that have a section on the volume; a complete record has one left.
    pub(crate) fn keep_copies_off(&mut self, volid: Volid) -> bool
        ensures row { self.new ≡ without_copies_on volid.0 self.old }
        ensures kept { result ≡ has_copy_if_complete self.new }
    {
        drop_copies_of(self.copies.list(), volid);
        !self.state.is_complete() || has_done(self.copies.as_slice())
    }
}

impl SetCopy {
    fn is_done_on(&self, volid: Volid) -> bool
        ensures { result ≡ is_done_on volid.0 self.now }
    {
        self.state.is_done() && has_section_on(self.sections.as_slice(), volid)
    }
}

impl CopyState {
    fn is_done(&self) -> bool
        ensures { result ≡ is_done self.now }
    {
        match self {
            CopyState::Begun => false,
            CopyState::Done => true,
        }
    }
}

impl RecordState {
    fn is_complete(&self) -> bool
        ensures { result ≡ is_complete self.now }
    {
        match self {
            RecordState::Begun | RecordState::Aborted => false,
            RecordState::Complete => true,
        }
    }
}

// The copy of the number is done, with these sections.
fn finish_copy_of(copies: &mut Vec<SetCopy>, no: CopyNo, sections: Items<Section>)
    ensures { copies.new.items ≡ with_copy_done no.0 sections copies.old.items }
{
    if let Some(at) = copy_place(copies, no) {
        let copy = &mut copies[at];
        copy.state = CopyState::Done;
        copy.sections = sections;
    }
}

fn copy_place(copies: &[SetCopy], no: CopyNo) -> Option<usize>
    ensures place { result ≡ position (λ copy. copy.no.0 == no.0) copies.now }
    ensures within { IfSome result (λ at. at < length copies.now) }
{
    copies.iter().position(|copy| copy.no.0 == no.0)
}

fn remove_copy_of(copies: &mut Vec<SetCopy>, no: CopyNo)
    ensures { copies.new.items ≡ without_copy no.0 copies.old.items }
{
    copies.retain(|copy| copy.no.0 != no.0);
}

fn drop_copies_of(copies: &mut Vec<SetCopy>, volid: Volid)
    ensures { copies.new.items ≡ copies_off volid.0 copies.old.items }
{
    copies.retain(|copy| !copy.is_done_on(volid));
}

fn has_done(copies: &[SetCopy]) -> bool
    ensures { result ≡ has_done copies.now }
{
    copies.iter().any(|copy| copy.state.is_done())
}

fn has_section_on(sections: &[Section], volid: Volid) -> bool
    ensures { result ≡ list_any (λ section. section.volid.0 == volid.0) sections.now }
{
    sections.iter().any(|section| section.volid.0 == volid.0)
}
