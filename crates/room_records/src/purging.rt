//! Giving up the indexes of save sets whose files aren't browsed any more.

ghost use Rattle.std.specs.Prelude.{◌≡◌, ◌≤◌, IfOk, IsTrue, filter};
ghost use Rattle.room_base.specs.Numbers.{max_moment};
ghost use Rattle.room_effects.specs.View.{IsBetweenCommands};
ghost use Rattle.room_effects.specs.Plans.{Plan, Follows};
ghost use Rattle.room_records.specs.Purging.{AreToPurge, IsNsrimPlan, is_unpurged, purging};

use crate::entering::enter;
use catalog_change::Change;
use dep_chain::purgeable_sets;
use media_db::MediaDb;
use room_base::{Items, Memory, Moment, Refusal, Ssid};
use room_checks::open_sets;
use room_command::{Answer, Reply};
use room_disk::Store;
use room_state::RoomState;

/// Gives up the index of each save set that can be purged and isn't yet.
pub fn nsrim<D: Store>(room: &mut RoomState, store: &mut D, m: Moment) -> Reply
    requires opens { IsTrue room.old.room.is_open }
    requires moment { m.0 ≤ max_moment }
    requires between { IsBetweenCommands room.old.room }
    ensures follows { (plan : Plan) × IsNsrimPlan m room.old.room plan
        × Follows plan result
        room.old.room room.new.room (D.view store.old) (D.view store.new) }
    ensures between { IsBetweenCommands room.new.room }
{
    match sets_to_purge(room, m) {
        Ok(ssids) => purge(room, store, m, ssids),
        Err(Memory) => Reply::Refused(Refusal::NoMemory),
    }
}

// The sets that can be purged and aren't yet.
fn sets_to_purge(room: &RoomState, m: Moment) -> Result<Items<Ssid>, Memory>
    requires moment { m.0 ≤ max_moment }
    requires between { IsBetweenCommands room.now.room }
    ensures { IfOk result (AreToPurge m room.now.room) }
{
    match open_sets(room) {
        Ok(sets) => {
            let db = room.catalogue().db();
            match purgeable_sets(room.allocator(), db, sets.as_slice(), m) {
                Ok(ssids) => Ok(unpurged(db, ssids)),
                Err(Memory) => Err(Memory),
            }
        }
        Err(Memory) => Err(Memory),
    }
}

// Those of the sets that have their indexes yet.
fn unpurged(db: &MediaDb, mut ssids: Vec<Ssid>) -> Items<Ssid>
    ensures { result ≡ filter (is_unpurged db.now.records) ssids.items }
{
    ssids.retain(|ssid| is_unpurged(db, *ssid));
    Items::of(ssids)
}

fn is_unpurged(db: &MediaDb, ssid: Ssid) -> bool
    ensures { result ≡ is_unpurged db.now.records ssid }
{
    match db.record(ssid) {
        Some(row) => !row.purged,
        None => false,
    }
}

// Gives up the indexes of these sets, if there are some.
fn purge<D: Store>(room: &mut RoomState, store: &mut D, m: Moment, ssids: Items<Ssid>) -> Reply
    requires opens { IsTrue room.old.room.is_open }
    requires moment { m.0 ≤ max_moment }
    requires between { IsBetweenCommands room.old.room }
    requires purged { AreToPurge m room.old.room ssids }
    ensures follows { Follows (purging m ssids room.old.room) result
        room.old.room room.new.room (D.view store.old) (D.view store.new) }
    ensures between { IsBetweenCommands room.new.room }
{
    if ssids.as_slice().is_empty() {
        return Reply::Done(Answer::Purged(ssids));
    }
    // A catalogue knows that it is allowed.
    let _number = room.catalogue().number();
    match copy_of(&ssids) {
        Ok(copy) => {
            let change = Change::Purged { ssids: copy };
            enter(room, store, m, change, Answer::Purged(ssids))
        }
        Err(Memory) => Reply::Refused(Refusal::NoMemory),
    }
}

fn copy_of(ssids: &Items<Ssid>) -> Result<Items<Ssid>, Memory>
    ensures { IfOk result (λ copy. copy ≡ ssids.now) }
{
    let copy = Vec::from_slice(ssids.allocator(), ssids.as_slice())?;
    Ok(Items::of(copy))
}
