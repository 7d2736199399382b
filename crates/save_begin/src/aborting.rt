//! Giving a save up.

ghost use Rattle.std.specs.Prelude.{◌≡◌, ◌≤◌, false, IfOk, IsTrue};
ghost use Rattle.room_base.specs.Numbers.{max_moment};
ghost use Rattle.catalog_change.specs.declared.change.Change.TheVariants.{Aborted};
ghost use Rattle.room_effects.specs.View.{IsBetweenCommands};
ghost use Rattle.save_session.specs.Sessions.{IsOpen};
ghost use Rattle.room_effects.specs.Entering.{is_at_ceiling};
ghost use Rattle.room_effects.specs.Plans.{Follows};
ghost use Rattle.room_entering.specs.Prepared.{IsPrepared};
ghost use Rattle.save_begin.specs.Aborting.{abort_checks, abort_plan, giving_up};

use catalog_change::Change;
use room_base::{Items, Memory, Moment, Refusal, Ssid};
use room_command::{Answer, Reply};
use room_disk::Store;
use room_entering::{CEILING, enter_prepared, is_at_ceiling, prepare_entry};
use room_state::RoomState;

/// Gives a save up. What was pushed of it stays on its volumes.
pub fn abort<D: Store>(room: &mut RoomState, store: &mut D, m: Moment, ssid: Ssid) -> Reply
    requires opens { IsTrue room.old.room.is_open }
    requires moment { m.0 ≤ max_moment }
    requires between { IsBetweenCommands room.old.room }
    ensures follows { Follows (abort_plan m ssid room.old.room) result
        room.old.room room.new.room (D.view store.old) (D.view store.new) }
    ensures between { IsBetweenCommands room.new.room }
{
    match abort_checks(room, ssid) {
        Ok(()) => abort_open(room, store, m, ssid),
        Err(refusal) => Reply::Refused(refusal),
    }
}

fn abort_checks(room: &RoomState, ssid: Ssid) -> Result<(), Refusal>
    ensures checks { result ≡ abort_checks ssid room.now.room }
    ensures open { IfOk result (λ done. IsOpen ssid.0 room.now.room.sessions) }
    ensures below { IfOk result (λ done. is_at_ceiling room.now.room.catalogue ≡ false) }
{
    if !room.sessions().is_open(ssid) {
        return Err(Refusal::NotOpen { ssid });
    }
    if is_at_ceiling(room.catalogue()) {
        return Err(Refusal::TooMany { limit: CEILING });
    }
    Ok(())
}

// Takes the memory, and gives up the save of an open session.
fn abort_open<D: Store>(room: &mut RoomState, store: &mut D, m: Moment, ssid: Ssid) -> Reply
    requires opens { IsTrue room.old.room.is_open }
    requires moment { m.0 ≤ max_moment }
    requires between { IsBetweenCommands room.old.room }
    requires open { IsOpen ssid.0 room.old.room.sessions }
    requires below { is_at_ceiling room.old.room.catalogue ≡ false }
    ensures follows { Follows (giving_up m ssid room.old.room) result
        room.old.room room.new.room (D.view store.old) (D.view store.new) }
    ensures between { IsBetweenCommands room.new.room }
{
    let change = Change::Aborted { ssid };
    match prepare_entry(room, &change) {
        Ok(first) => close_and_enter(room, store, m, ssid, change, first),
        Err(Memory) => Reply::Refused(Refusal::NoMemory),
    }
}

// Closes the session, and enters that its save was given up.
fn close_and_enter<D: Store>(
    room: &mut RoomState,
    store: &mut D,
    m: Moment,
    ssid: Ssid,
    change: Change,
    first: Option<Items<u8>>,
) -> Reply
    requires opens { IsTrue room.old.room.is_open }
    requires moment { m.0 ≤ max_moment }
    requires between { IsBetweenCommands room.old.room }
    requires open { IsOpen ssid.0 room.old.room.sessions }
    requires below { is_at_ceiling room.old.room.catalogue ≡ false }
    requires change { change ≡ Aborted ssid }
    requires prepared { IsPrepared change first room.old }
    ensures follows { Follows (giving_up m ssid room.old.room) result
        room.old.room room.new.room (D.view store.old) (D.view store.new) }
    ensures between { IsBetweenCommands room.new.room }
{
    let _is_open = room.is_open();
    room.close_session(ssid);
    let _is_closed = room.is_open();
    match enter_prepared(room, store, m, change, first) {
        Ok(()) => {
            let _is_open = room.is_open();
            Reply::Done(Answer::Empty)
        }
        Err(fault) => {
            let _is_open = room.is_open();
            Reply::Refused(fault)
        }
    }
}
