ghost use Rattle.std.specs.Prelude.{◌≡◌, ◌+◌, ◌<◌, ◌≤◌, ◌^◌, [], length, map, OnOk, OnErr, IfSome};
ghost use Rattle.std.specs.Prelude.{Ok, Some, None, true};
ghost use Rattle.std.specs.Option.{is_some};
ghost use Rattle.std.specs.Ordering.{nat_cmp};
ghost use Rattle.room_base.specs.Ordered.{Ascends, IsPlace};
ghost use Rattle.save_stream.specs.Fields.{IsIndex};
ghost use Rattle.save_stream.specs.Spelling.{IsHead, PathsAscend};
ghost use Rattle.save_session.specs.Kept.{IsSessionKept, left_by, number_of, session_view};
ghost use Rattle.save_session.specs.Parts.{IsNextPart};
ghost use Rattle.save_session.specs.Sessions.{AreOpenSessions, FollowsPiece, IsOpen, IsSession};
ghost use Rattle.save_session.specs.Sessions.{KeepsOtherRooms, change_session, check_open};
ghost use Rattle.save_session.specs.Sessions.{close_session, digest_of, find_session, leave_drive};
ghost use Rattle.save_session.specs.Sessions.{of_session, placed_on, room_for, ssid_of};
ghost use Rattle.save_session.specs.Sessions.{start_session, with_piece};

use crate::Checked;
use crate::session::Session;
use media_db::Section;
use room_base::{Memory, Ssid, insert_in_room};
use save_stream::{IndexEntry, SetHead, StreamFault, StreamReader};
use std::alloc::Global;
use std::marker::Model;

/// The open sessions. Contracts see what each has sent, where that lies, and how many more sections
/// it can be given without taking memory.
#[derive(Drop)]
pub struct Sessions {
    /// Those of `sessions`, at the same places.
    ssids: Vec<Ssid>,
    sessions: Vec<Session>,
}

impl Model for Sessions {
    ghost use Rattle.save_session.specs.Sessions.{SessionsView};

    ghost Value = { SessionsView };

    ghost use Rattle.save_session.specs.Kept.{AreSessionsKept, sessions_view};

    ghost view = { λ s. sessions_view s.sessions.items };

    ghost invariant = { λ s. AreSessionsKept s.ssids.items s.sessions.items };
}

impl Sessions {
    /// No session is open. Takes no memory.
    pub fn new(alloc: Global) -> Sessions
        ensures { result.sessions ≡ [] }
    {
        Sessions {
            ssids: Vec::new(alloc),
            sessions: Vec::new(alloc),
        }
    }

    /// Opens the session of a save set, of which nothing is sent yet, with room for its first
    /// section.
    pub fn start(&mut self, head: SetHead) -> Result<(), Memory>
        requires few { length self.old.sessions < 64 }
        requires new { find_session head.ssid.0 self.old.sessions ≡ None }
        requires head { IsHead head }
        ensures ok { OnOk result (self.new.sessions ≡ start_session head self.old.sessions) }
        ensures err { OnErr result (self.new ≡ self.old) }
        ensures rooms { KeepsOtherRooms head.ssid.0 self.old.rooms self.new.rooms }
        ensures first { OnOk result (0 < room_for head.ssid.0 self.new.rooms) }
    {
        let ssid = head.ssid;
        self.ssids.reserve(1)?;
        self.sessions.reserve(1)?;
        let session = Session::start(*self.ssids.allocator(), head)?;
        if let Err(at) = place_of(&self.ssids, ssid) {
            insert_in_room(&mut self.ssids, at, ssid);
            insert_in_room(&mut self.sessions, at, session);
        }
        Ok(())
    }

    /// The ssids of the open sessions, ascending.
    pub fn ssids(&self) -> &[Ssid]
        ensures value { result.now ≡ map (λ session. session.head.ssid) self.now.sessions }
        ensures count { length result.now ≡ length self.now.sessions }
        ensures sessions { AreOpenSessions self.now.sessions }
    {
        &self.ssids
    }

    pub fn is_open(&self, ssid: Ssid) -> bool
        ensures { result ≡ is_some (find_session ssid.0 self.now.sessions) }
    {
        place_of(&self.ssids, ssid).is_ok()
    }

    /// The reader of a session. It has read the head and the bytes sent behind it.
    pub fn reader(&self, ssid: Ssid) -> &StreamReader
        requires { IsOpen ssid.0 self.now.sessions }
        ensures value { of_session (λ session. session.reading) ssid.0 self.now.sessions
            ≡ Some result.now }
        ensures session { IfSome (find_session ssid.0 self.now.sessions) IsSession }
    {
        &self.session(ssid).reader
    }

    /// How many bytes were sent behind the head.
    pub fn next(&self, ssid: Ssid) -> u64
        requires { IsOpen ssid.0 self.now.sessions }
        ensures { of_session (λ session. length session.sent) ssid.0 self.now.sessions
            ≡ Some result }
    {
        self.session(ssid).next
    }

    /// The SHA-256 of the bytes sent behind the head, once the stream has ended.
    pub fn digest(&self, ssid: Ssid) -> Option<[u8; 32]>
        requires { IsOpen ssid.0 self.now.sessions }
        ensures { of_session digest_of ssid.0 self.now.sessions ≡ Some result }
    {
        self.session(ssid).digest()
    }

    /// The sections in which the session's parts lie, in the order of the stream.
    pub fn sections(&self, ssid: Ssid) -> &[Section]
        requires { IsOpen ssid.0 self.now.sessions }
        ensures { of_session (λ session. session.sections) ssid.0 self.now.sessions
            ≡ Some result.now }
    {
        &self.session(ssid).sections
    }

    /// The drive of the session's last part, unless it was left since.
    pub fn drive(&self, ssid: Ssid) -> Option<u8>
        requires { IsOpen ssid.0 self.now.sessions }
        ensures { of_session (λ session. session.drive) ssid.0 self.now.sessions ≡ Some result }
    {
        self.session(ssid).drive
    }

    /// What is to be done with `length` bytes that are sent for an ssid at an offset behind the
    /// head.
    pub fn check(&self, ssid: Ssid, offset: u64, length: u64) -> Checked
        ensures { result ≡ check_open (find_session ssid.0 self.now.sessions) offset length }
    {
        match place_of(&self.ssids, ssid) {
            Ok(at) => self.sessions[at].check(offset, length),
            Err(_) => Checked::NotOpen,
        }
    }

    /// Takes the next bytes of a session. An `Err` leaves the session as it was.
    pub fn take(&mut self, ssid: Ssid, piece: &[u8]) -> Result<(), StreamFault>
        requires open { IsOpen ssid.0 self.old.sessions }
        requires size { IfSome (find_session ssid.0 self.old.sessions)
            (λ session. session.reading.read + length piece.now ≤ 2 ^ 36) }
        ensures read { IfSome (find_session ssid.0 self.old.sessions)
            (λ session. FollowsPiece piece.now session result) }
        ensures ok { OnOk result (self.new.sessions
            ≡ change_session ssid.0 (with_piece piece.now) self.old.sessions) }
        ensures err { OnErr result (self.new ≡ self.old) }
        ensures rooms { self.new.rooms ≡ self.old.rooms }
    {
        let at = self.place(ssid);
        let session = &mut self.sessions[at];
        session.take(piece)
    }

    /// Makes room for one more section of a session.
    pub fn reserve(&mut self, ssid: Ssid) -> Result<(), Memory>
        requires { IsOpen ssid.0 self.old.sessions }
        ensures sessions { self.new.sessions ≡ self.old.sessions }
        ensures ok { OnOk result (0 < room_for ssid.0 self.new.rooms) }
        ensures no_less { room_for ssid.0 self.old.rooms ≤ room_for ssid.0 self.new.rooms }
        ensures rooms { KeepsOtherRooms ssid.0 self.old.rooms self.new.rooms }
    {
        let at = self.place(ssid);
        let session = &mut self.sessions[at];
        session.reserve()
    }

    /// A part of the session was placed on a drive. Takes no memory.
    pub fn placed(&mut self, ssid: Ssid, drive: u8, part: Section)
        requires open { IsOpen ssid.0 self.old.sessions }
        requires room { 0 < room_for ssid.0 self.old.rooms }
        requires drive { (1 ≤ drive) × (drive ≤ 4) }
        requires part { IfSome (find_session ssid.0 self.old.sessions)
            (λ session. IsNextPart part session.sections) }
        ensures sessions { self.new.sessions
            ≡ change_session ssid.0 (placed_on drive part) self.old.sessions }
        ensures room { room_for ssid.0 self.old.rooms ≤ room_for ssid.0 self.new.rooms + 1 }
        ensures rooms { KeepsOtherRooms ssid.0 self.old.rooms self.new.rooms }
    {
        let at = self.place(ssid);
        let session = &mut self.sessions[at];
        session.place(drive, part);
    }

    /// The volume of a drive was taken out: no session has that drive any more.
    pub fn left(&mut self, drive: u8)
        ensures sessions { self.new.sessions ≡ leave_drive drive self.old.sessions }
        ensures rooms { self.new.rooms ≡ self.old.rooms }
    {
        leave_all(&mut self.sessions, drive);
    }

    /// Ends a session.
    pub fn close(&mut self, ssid: Ssid)
        requires { IsOpen ssid.0 self.old.sessions }
        ensures sessions { self.new.sessions ≡ close_session ssid.0 self.old.sessions }
        ensures rooms { KeepsOtherRooms ssid.0 self.old.rooms self.new.rooms }
    {
        let at = self.place(ssid);
        self.ssids.remove(at);
        self.sessions.remove(at);
    }

    /// Ends a session whose stream has ended, and hands its index over. Takes no memory.
    pub fn finish(&mut self, ssid: Ssid) -> Vec<IndexEntry>
        requires open { IsOpen ssid.0 self.old.sessions }
        requires ended { IfSome (find_session ssid.0 self.old.sessions)
            (λ session. session.reading.ended ≡ true) }
        ensures value { of_session (λ session. session.reading.entries) ssid.0 self.old.sessions
            ≡ Some result.items }
        ensures order { PathsAscend result.items }
        ensures index { IsIndex result.items }
        ensures sessions { self.new.sessions ≡ close_session ssid.0 self.old.sessions }
        ensures rooms { KeepsOtherRooms ssid.0 self.old.rooms self.new.rooms }
    {
        let at = self.place(ssid);
        self.ssids.remove(at);
        let session = self.sessions.remove(at);
        session.reader.into_entries()
    }

    // Where an open session stands.
    fn place(&self, ssid: Ssid) -> usize
        requires { IsOpen ssid.0 self.now.sessions }
        ensures within { result < length self.now.sessions }
        ensures place { IsPlace nat_cmp ssid_of ssid.0 self.now.sessions (Ok result) }
    {
        place_of(&self.ssids, ssid).unwrap()
    }

    fn session(&self, ssid: Ssid) -> &Session
        requires { IsOpen ssid.0 self.now.sessions }
        ensures found { find_session ssid.0 self.now.sessions ≡ Some (session_view result.now) }
        ensures kept { IsSessionKept result.now }
    {
        &self.sessions[self.place(ssid)]
    }
}

// Where an ssid is, or where it would go.
fn place_of(ssids: &[Ssid], ssid: Ssid) -> Result<usize, usize>
    requires { Ascends nat_cmp number_of ssids.now }
    ensures { IsPlace nat_cmp number_of ssid.0 ssids.now result }
{
    ssids.binary_search_by_key(&ssid.0, |one| one.0)
}

fn leave_all(sessions: &mut [Session], drive: u8)
    ensures { sessions.new ≡ map (left_by drive) sessions.old }
{
    for session in sessions.iter_mut() {
        session.leave(drive);
    }
}
