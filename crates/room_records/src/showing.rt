//! Showing what is known of a save set.

ghost use Rattle.std.specs.Prelude.{◌≡◌};
ghost use Rattle.room_effects.specs.Checked.{ComesTo};
ghost use Rattle.room_effects.specs.Plans.{Follows};
ghost use Rattle.room_records.specs.Showing.{record_of, show_plan};

use media_db::Record;
use room_base::{Memory, Refusal, Ssid};
use room_checks::no_such;
use room_command::{Answer, Reply};
use room_disk::Store;
use room_state::RoomState;

/// Says what is known of a save set. The disk isn't asked.
pub fn show<D: Store>(room: &RoomState, _store: &D, ssid: Ssid) -> Reply
    ensures { Follows (show_plan ssid room.now.room) result
        room.now.room room.now.room (D.view _store.now) (D.view _store.now) }
{
    match record_of(room, ssid) {
        Ok(row) => Reply::Done(Answer::Shown(row)),
        Err(refusal) => Reply::Refused(refusal),
    }
}

// A copy of the record of a set.
fn record_of(room: &RoomState, ssid: Ssid) -> Result<Record, Refusal>
    ensures { ComesTo (record_of ssid room.now.room) result }
{
    match room.catalogue().db().record(ssid) {
        Some(row) => match row.copy() {
            Ok(copy) => Ok(copy),
            Err(Memory) => Err(Refusal::NoMemory),
        },
        None => Err(no_such(room.allocator(), "set", ssid.0)),
    }
}
