//! Taking a save set off the record.

ghost use Rattle.std.specs.Prelude.{◌≡◌, ◌≤◌, IfSome, IsSome, IsTrue, None, OnOk, Option};
ghost use Rattle.room_base.specs.Numbers.{max_moment};
ghost use Rattle.room_base.specs.declared.numbers.Ssid.{Ssid};
ghost use Rattle.media_db.specs.Rows.{find_record};
ghost use Rattle.save_session.specs.Sessions.{find_session};
ghost use Rattle.room_effects.specs.View.{IsBetweenCommands};
ghost use Rattle.room_effects.specs.Checked.{ComesTo};
ghost use Rattle.room_effects.specs.Plans.{Plan, Follows};
ghost use Rattle.room_records.specs.Deleting.{IsDeletePlan, IsUser, delete_checks, no_user};
ghost use Rattle.room_records.specs.Deleting.{unused};

use crate::entering::enter;
use catalog_change::Change;
use dep_chain::user_of;
use room_base::{Memory, Moment, Refusal, Ssid};
use room_checks::{in_use, no_such, open_sets};
use room_command::{Answer, Reply};
use room_disk::Store;
use room_state::RoomState;
use std::alloc::Global;

/// Takes a save set off the record that has no open session, and that no other set needs.
pub fn delete<D: Store>(room: &mut RoomState, store: &mut D, m: Moment, ssid: Ssid) -> Reply
    requires opens { IsTrue room.old.room.is_open }
    requires moment { m.0 ≤ max_moment }
    requires between { IsBetweenCommands room.old.room }
    ensures follows { (plan : Plan) × IsDeletePlan m ssid room.old.room plan
        × Follows plan result
        room.old.room room.new.room (D.view store.old) (D.view store.new) }
    ensures between { IsBetweenCommands room.new.room }
{
    match delete_checks(room, m, ssid) {
        Ok(()) => enter(room, store, m, Change::Deleted { ssid }, Answer::Empty),
        Err(refusal) => Reply::Refused(refusal),
    }
}

fn delete_checks(room: &RoomState, m: Moment, ssid: Ssid) -> Result<(), Refusal>
    requires moment { m.0 ≤ max_moment }
    requires between { IsBetweenCommands room.now.room }
    ensures checks { (asked : Option (Option Ssid)) × IfSome asked (IsUser m ssid room.now.room)
        × ComesTo (delete_checks ssid asked room.now.room) result }
    ensures record { OnOk result (IsSome (find_record ssid.0 room.now.room.catalogue.records)) }
    ensures closed { OnOk result (find_session ssid.0 room.now.room.sessions ≡ None) }
{
    if room.catalogue().db().record(ssid).is_none() {
        return Err(no_such(room.allocator(), "set", ssid.0));
    }
    if room.sessions().is_open(ssid) {
        return Err(Refusal::SetBusy { ssid });
    }
    no_user(room, m, ssid)
}

// Whether no other set needs it.
fn no_user(room: &RoomState, m: Moment, ssid: Ssid) -> Result<(), Refusal>
    requires moment { m.0 ≤ max_moment }
    requires between { IsBetweenCommands room.now.room }
    ensures { (asked : Option (Option Ssid)) × IfSome asked (IsUser m ssid room.now.room)
        × ComesTo (no_user asked) result }
{
    match open_sets(room) {
        Ok(sets) => {
            let user = user_of(room.catalogue().db(), sets.as_slice(), ssid, m);
            unused(room.allocator(), user)
        }
        Err(Memory) => Err(Refusal::NoMemory),
    }
}

fn unused(alloc: Global, user: Option<Ssid>) -> Result<(), Refusal>
    ensures { ComesTo (unused user) result }
{
    match user {
        Some(user) => Err(in_use(alloc, "set", user.0)),
        None => Ok(()),
    }
}
