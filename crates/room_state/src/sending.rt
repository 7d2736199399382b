//! The effect that puts bytes into a drive's buffer.

ghost use Rattle.std.specs.Prelude.{◌≡◌, ◌+◌, ◌*◌, ◌<◌, ◌≤◌, ◌^◌, length, IfSome, IsSomeAnd};
ghost use Rattle.save_session.specs.Parts.{IsNextPart};
ghost use Rattle.save_session.specs.Sessions.{IsOpen, KeepsOtherRooms, change_session};
ghost use Rattle.save_session.specs.Sessions.{find_session, placed_on, room_for};
ghost use Rattle.slot_changer.specs.Drives.{IsDrive, after_push, change_drive, in_drive};
ghost use Rattle.slot_changer.specs.Taking.{CanPush};
ghost use Rattle.room_effects.specs.Effects.{Push, after_done, part_of};
ghost use Rattle.room_effects.specs.Memory.{HasMemoryFor};
ghost use Rattle.room_effects.specs.Needs.{CanDo};
ghost use Rattle.room_effects.specs.View.{held_in};
ghost use Rattle.room_state.specs.Memory.{TakesMemory};

use crate::state::RoomState;
use media_db::Section;
use room_base::{CopyNo, Ssid};
use save_session::Sessions;
use slot_changer::Drives;
use volume_store::Volume;

impl RoomState {
    /// Puts bytes of a copy of a set, which begin at this offset of its stream, into the buffer of a
    /// drive, and answers where they lie. Where the set has an open session they are its next part.
    pub fn push(
        &mut self,
        drive: u8,
        ssid: Ssid,
        copy: CopyNo,
        offset: u64,
        bytes: &[u8],
    ) -> Section
        requires can { CanDo (Push drive ssid.0 copy.0 offset bytes.now) self.old.room }
        requires memory { HasMemoryFor (Push drive ssid.0 copy.0 offset bytes.now) self.old }
        ensures pushed { self.new.room
            ≡ after_done (Push drive ssid.0 copy.0 offset bytes.now) self.old.room }
        ensures part { IfSome (held_in self.old.room drive)
            (λ one. result ≡ part_of one ssid.0 copy.0 offset bytes.now) }
        ensures memory { TakesMemory (Push drive ssid.0 copy.0 offset bytes.now)
            self.old.memory self.new.memory }
    {
        let part = push_into(&mut self.drives, drive, ssid, copy, offset, bytes);
        place_part(&mut self.sessions, ssid, drive, part);
        part
    }
}

// Bytes of a set lie so in a drive: they are the next part of its session, if it has one.
fn place_part(sessions: &mut Sessions, ssid: Ssid, drive: u8, part: Section)
    requires drive { IsDrive drive }
    requires room { IsOpen ssid.0 sessions.old.sessions → 0 < room_for ssid.0 sessions.old.rooms }
    requires part { IfSome (find_session ssid.0 sessions.old.sessions)
        (λ session. IsNextPart part session.sections) }
    ensures sessions { sessions.new.sessions
        ≡ change_session ssid.0 (placed_on drive part) sessions.old.sessions }
    ensures room { room_for ssid.0 sessions.old.rooms ≤ room_for ssid.0 sessions.new.rooms + 1 }
    ensures rooms { KeepsOtherRooms ssid.0 sessions.old.rooms sessions.new.rooms }
{
    if sessions.is_open(ssid) {
        sessions.placed(ssid, drive, part);
    }
}

// Puts bytes into the buffer of a drive, and answers where they lie.
fn push_into(
    drives: &mut Drives,
    drive: u8,
    ssid: Ssid,
    copy: CopyNo,
    offset: u64,
    bytes: &[u8],
) -> Section
    requires drive { IsDrive drive }
    requires ssid { 1 ≤ ssid.0 }
    requires copy { 1 ≤ copy.0 }
    requires ends { offset + length bytes.now ≤ 2 ^ 36 }
    requires can { IsSomeAnd (in_drive drives.old drive) (CanPush (length bytes.now)) }
    ensures pushed { drives.new
        ≡ change_drive drives.old drive (after_push ssid.0 copy.0 offset bytes.now) }
    ensures part { IfSome (in_drive drives.old drive)
        (λ one. result ≡ part_of one ssid.0 copy.0 offset bytes.now) }
{
    let Some(volume) = drives.volume(drive) else {
        unreachable!()
    };
    let volume = *volume;
    let span = drives.push(drive, ssid, copy, offset, bytes);
    Section {
        volid: volume.label.volid,
        mark: volume.mark,
        first: block_number(&volume, span.first),
        last: block_number(&volume, span.last),
        from: offset,
        to: offset + bytes.len() as u64,
    }
}

// The number of a data block of the buffer of a volume in a drive, where it is committed.
fn block_number(volume: &Volume, place: u32) -> u64
    requires units { volume.now.label.units ≤ 16 }
    requires mark { volume.now.mark < 2 ^ 52 }
    ensures { result ≡ volume.now.mark + 1 + volume.now.label.units * place }
{
    volume.mark + 1 + u64::from(volume.label.units) * u64::from(place)
}
