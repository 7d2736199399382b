//! The effects in memory on volumes and sessions. They take the memory that they need themselves,
//! before anything is done.

ghost use Rattle.std.specs.Prelude.{◌≡◌, ◌<◌, OnErr, OnOk, IfSome, Some, true};
ghost use Rattle.save_stream.specs.Fields.{IsIndex};
ghost use Rattle.save_stream.specs.Spelling.{PathsAscend};
ghost use Rattle.save_session.specs.Sessions.{FollowsPiece, find_session, of_session, room_for};
ghost use Rattle.room_effects.specs.Effects.{Close, Open, PutIn, Take, TakeOut, after_done};
ghost use Rattle.room_effects.specs.Needs.{CanDo};
ghost use Rattle.room_state.specs.Memory.{TakesMemory};

use crate::state::RoomState;
use room_base::{Memory, Ssid};
use save_stream::{IndexEntry, SetHead, StreamFault};
use volume_store::Volume;

impl RoomState {
    /// Puts a volume into an empty drive, with an empty buffer.
    pub fn put_in(&mut self, drive: u8, volume: Volume) -> Result<(), Memory>
        requires { CanDo (PutIn drive volume) self.old.room }
        ensures put { OnOk result (self.new.room ≡ after_done (PutIn drive volume) self.old.room) }
        ensures kept { OnErr result (self.new.room ≡ self.old.room) }
        ensures memory { self.new.memory ≡ self.old.memory }
    {
        self.drives.put_in(drive, volume)?;
        Ok(())
    }

    /// Empties a drive whose buffer is empty. No session is on it any more.
    pub fn take_out(&mut self, drive: u8)
        requires { CanDo (TakeOut drive) self.old.room }
        ensures taken { self.new.room ≡ after_done (TakeOut drive) self.old.room }
        ensures memory { self.new.memory ≡ self.old.memory }
    {
        self.drives.take_out(drive);
        self.sessions.left(drive);
    }

    /// Opens the session of a save set, of which nothing is sent yet, with memory for its first part.
    pub fn open_session(&mut self, head: SetHead) -> Result<(), Memory>
        requires { CanDo (Open head) self.old.room }
        ensures opened { OnOk result (self.new.room ≡ after_done (Open head) self.old.room) }
        ensures kept { OnErr result (self.new.room ≡ self.old.room) }
        ensures memory { TakesMemory (Open head) self.old.memory self.new.memory }
        ensures first { OnOk result (0 < room_for head.ssid.0 self.new.memory.parts) }
    {
        self.sessions.start(head)?;
        Ok(())
    }

    /// Takes the next bytes of a session, which its reader judges. They are to be pushed behind it.
    pub fn take(&mut self, ssid: Ssid, piece: &[u8]) -> Result<(), StreamFault>
        requires { CanDo (Take ssid.0 piece.now) self.old.room }
        ensures judged { IfSome (find_session ssid.0 self.old.room.sessions)
            (λ session. FollowsPiece piece.now session result) }
        ensures taken { OnOk result
            (self.new.room ≡ after_done (Take ssid.0 piece.now) self.old.room) }
        ensures kept { OnErr result (self.new.room ≡ self.old.room) }
        ensures memory { self.new.memory ≡ self.old.memory }
    {
        self.sessions.take(ssid, piece)?;
        Ok(())
    }

    /// Ends a session. Its index goes with it.
    pub fn close_session(&mut self, ssid: Ssid)
        requires { CanDo (Close ssid.0) self.old.room }
        ensures closed { self.new.room ≡ after_done (Close ssid.0) self.old.room }
        ensures memory { TakesMemory (Close ssid.0) self.old.memory self.new.memory }
    {
        self.sessions.close(ssid);
    }
    /// Ends a session whose stream has ended, and hands its index over. Takes no memory.
    pub fn finish_session(&mut self, ssid: Ssid) -> Vec<IndexEntry>
        requires can { CanDo (Close ssid.0) self.old.room }
        requires ended { IfSome (find_session ssid.0 self.old.room.sessions)
            (λ session. session.reading.ended ≡ true) }
        ensures index { of_session (λ session. session.reading.entries) ssid.0
            self.old.room.sessions ≡ Some result.items }
        ensures order { PathsAscend result.items }
        ensures allowed { IsIndex result.items }
        ensures closed { self.new.room ≡ after_done (Close ssid.0) self.old.room }
        ensures memory { TakesMemory (Close ssid.0) self.old.memory self.new.memory }
    {
        self.sessions.finish(ssid)
    }
}
