//! The entry of a change.

ghost use Rattle.std.specs.Prelude.{◌≡◌, ◌≤◌, ◌∷◌, [], IfOk, OnOk, IsTrue, None};
ghost use Rattle.room_base.specs.Numbers.{max_moment};
ghost use Rattle.catalog_change.specs.Changes.{IsChange};
ghost use Rattle.room_catalog.specs.Fits.{FitsByKind, FitsParts};
ghost use Rattle.room_catalog.specs.Held.{catalogue_of};
ghost use Rattle.room_command.specs.declared.reply.Reply.TheVariants as replies;
ghost use Rattle.room_effects.specs.Effects.{Enter};
ghost use Rattle.room_effects.specs.Needs.{IsFitting, IsWholeChange};
ghost use Rattle.room_effects.specs.Running.{Does};
ghost use Rattle.room_effects.specs.Entering.{entering, is_at_ceiling, with_first_file};
ghost use Rattle.room_effects.specs.Plans.{Do, Follows};
ghost use Rattle.room_entering.specs.Prepared.{IsEnteredFrom, IsPrepared};

use crate::ceiling::{CEILING, is_at_ceiling};
use catalog_change::Change;
use room_base::{Items, Memory, Moment, Refusal};
use room_command::{Answer, Reply};
use room_disk::Store;
use room_state::RoomState;

/// Makes memory for a change and its entry, at whatever moment it will be entered. Where no file of
/// the journal is open, answers the snapshot that the first one begins with.
pub fn prepare_entry(room: &mut RoomState, change: &Change) -> Result<Option<Items<u8>>, Memory>
    requires { IsChange change.now }
    ensures prepared { IfOk result (λ first. IsPrepared change.now first room.new) }
    ensures room { room.new.room ≡ room.old.room }
{
    room.prepare(change)?;
    if room.has_journal_file() {
        return Ok(None);
    }
    let snapshot = catalog_snapshot::snapshot(room.catalogue(), room.allocator(), true)?;
    Ok(Some(Items::of(snapshot)))
}

/// Enters a change that was prepared, behind the first file of the journal where none is open.
pub fn enter_prepared<D: Store>(
    room: &mut RoomState,
    store: &mut D,
    m: Moment,
    change: Change,
    first: Option<Items<u8>>,
) -> Result<(), Refusal>
    requires opens { IsTrue room.old.room.is_open }
    requires moment { m.0 ≤ max_moment }
    requires whole { IsWholeChange change }
    requires fits { IsFitting change room.old.room }
    requires prepared { IsPrepared change first room.old }
    ensures does { Does (with_first_file room.old.room (Enter m change ∷ [])) result
        room.old.room room.new.room (D.view store.old) (D.view store.new) }
    ensures room { OnOk result (IsEnteredFrom room.old.room room.new.room) }
{
    match first {
        Some(snapshot) => enter_first(room, store, m, change, snapshot.as_slice()),
        None => room.enter(store, m, change),
    }
}

// Writes the first file of the journal, and then enters a change.
fn enter_first<D: Store>(
    room: &mut RoomState,
    store: &mut D,
    m: Moment,
    change: Change,
    snapshot: &[u8],
) -> Result<(), Refusal>
    requires opens { IsTrue room.old.room.is_open }
    requires moment { m.0 ≤ max_moment }
    requires whole { IsWholeChange change }
    requires fits { IsFitting change room.old.room }
    requires prepared { IsPrepared change (Some snapshot.now) room.old }
    ensures does { Does (with_first_file room.old.room (Enter m change ∷ [])) result
        room.old.room room.new.room (D.view store.old) (D.view store.new) }
    ensures room { OnOk result (IsEnteredFrom room.old.room room.new.room) }
{
    let _is_open = room.is_open();
    match room.turn_over(store, snapshot) {
        Ok(()) => room.enter(store, m, change),
        Err(fault) => Err(fault),
    }
}

/// Enters a change that is all that a command does, where a number is left for it.
pub fn enter_alone<D: Store>(
    room: &mut RoomState,
    store: &mut D,
    m: Moment,
    change: Change,
    answer: Answer,
) -> Reply
    requires opens { IsTrue room.old.room.is_open }
    requires moment { m.0 ≤ max_moment }
    requires whole { IsWholeChange change }
    requires allowed { IsChange change }
    requires fits { FitsByKind (catalogue_of room.old.room.catalogue) change }
    requires parts { FitsParts room.old.room.catalogue.parts change }
    ensures { Follows (entering [] (Enter m change ∷ []) (replies.Done answer) room.old.room) result
        room.old.room room.new.room (D.view store.old) (D.view store.new) }
{
    if is_at_ceiling(room.catalogue()) {
        return Reply::Refused(Refusal::TooMany { limit: CEILING });
    }
    enter_below(room, store, m, change, answer)
}

// Enters a change for which a number is left.
fn enter_below<D: Store>(
    room: &mut RoomState,
    store: &mut D,
    m: Moment,
    change: Change,
    answer: Answer,
) -> Reply
    requires opens { IsTrue room.old.room.is_open }
    requires moment { m.0 ≤ max_moment }
    requires whole { IsWholeChange change }
    requires fits { IsFitting change room.old.room }
    ensures { Follows (Do (with_first_file room.old.room (Enter m change ∷ []))
        (replies.Done answer)) result
        room.old.room room.new.room (D.view store.old) (D.view store.new) }
{
    match prepare_entry(room, &change) {
        Ok(first) => match enter_prepared(room, store, m, change, first) {
            Ok(()) => Reply::Done(answer),
            Err(fault) => Reply::Refused(fault),
        },
        Err(Memory) => Reply::Refused(Refusal::NoMemory),
    }
}
