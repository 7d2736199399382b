//! The entry of a save's record, and the bytes of its head.

ghost use Rattle.std.specs.Prelude.{◌≡◌, ◌≤◌, ◌<◌, ◌∷◌, [], length, IfOk, OnErr, OnOk, IsTrue, Some};
ghost use Rattle.room_base.specs.Numbers.{max_moment};
ghost use Rattle.save_stream.specs.declared.head.SetHead.{SetHead};
ghost use Rattle.save_stream.specs.Spelling.{IsHead};
ghost use Rattle.room_effects.specs.View.{IsBetweenCommands};
ghost use Rattle.room_effects.specs.Effects.{Enter};
ghost use Rattle.room_effects.specs.Needs.{IsFitting, IsWholeChange};
ghost use Rattle.room_effects.specs.Running.{Does};
ghost use Rattle.room_effects.specs.Entering.{with_first_file};
ghost use Rattle.room_entering.specs.Prepared.{IsPrepared};
ghost use Rattle.room_placing.specs.Placing.{placing};
ghost use Rattle.save_begin.specs.Beginning.{begun_answer};
ghost use Rattle.save_begin.specs.Writing.{IsMade, KeepsSessionMemory, MayEnter, WasClosed};
ghost use Rattle.save_begin.specs.Writing.{WasEntered};

use catalog_change::Change;
use room_base::{Items, Memory, Moment, Refusal, Ssid};
use room_command::Answer;
use room_disk::Store;
use room_entering::prepare_entry;
use room_placing::place;
use room_state::RoomState;
use save_stream::{SetHead, encode_head};

/// What is written of a save that begins.
#[derive(Drop)]
pub(crate) struct Begun {
    /// The change that begins it, and the first file of the journal where none is open.
    pub(crate) change: Change,
    pub(crate) first: Option<Items<u8>>,
    /// The spelling of its head.
    pub(crate) text: Items<u8>,
}

/// Takes all memory for the beginning of a save, but that of its session and of the answer.
pub(crate) fn prepare(room: &mut RoomState, head: &SetHead) -> Result<Begun, Memory>
    requires { IsHead head.now }
    ensures made { IfOk result (IsMade head.now) }
    ensures entry { IfOk result (λ begun. IsPrepared begun.change begun.first room.new) }
    ensures commits { OnOk result (length room.old.room.sessions < room.new.memory.closed) }
    ensures room { room.new.room ≡ room.old.room }
{
    let text = encode_head(room.allocator(), head)?;
    let change = Change::Begun { head: head.copy()? };
    let first = prepare_entry(room, &change)?;
    room.prepare_commits()?;
    Ok(Begun {
        change,
        first,
        text: Items::of(text),
    })
}

/// What is answered of a save that began.
pub(crate) fn answer_of(head: &SetHead) -> Result<Answer, Memory>
    ensures { IfOk result (λ answer. answer ≡ begun_answer head.now) }
{
    Ok(Answer::Begun {
        base: head.base,
        level: head.level,
        next: 0,
        pool: head.pool.copy()?,
        saved: head.saved,
        ssid: head.ssid,
    })
}

/// Enters the record of the save whose session was opened, and puts the spelling of its head into a
/// drive. Where that fails its session is closed.
pub(crate) fn enter_head<D: Store>(
    room: &mut RoomState,
    store: &mut D,
    m: Moment,
    ssid: Ssid,
    drive: u8,
    begun: Begun,
) -> Result<(), Refusal>
    requires opens { IsTrue room.old.room.is_open }
    requires moment { m.0 ≤ max_moment }
    requires begun { (head : SetHead) × MayEnter head ssid drive begun room.old }
    ensures does { Does (with_first_file room.old.room
        (Enter m begun.change ∷ placing drive ssid.0 0 begun.text room.old.room)) result
        room.old.room room.new.room (D.view store.old) (D.view store.new) }
    ensures between { IsBetweenCommands room.new.room }
{
    let _is_open = room.is_open();
    let Begun {
        change,
        first,
        text,
    } = begun;
    match enter_record(room, store, m, change, first) {
        Ok(()) => {
            let _is_open = room.is_open();
            place(room, store, drive, ssid, 0, text.as_slice())
        }
        Err(fault) => {
            let _is_closed = room.is_open();
            Err(fault)
        }
    }
}

// Enters the record, behind the first file of the journal where none is open.
fn enter_record<D: Store>(
    room: &mut RoomState,
    store: &mut D,
    m: Moment,
    change: Change,
    first: Option<Items<u8>>,
) -> Result<(), Refusal>
    requires opens { IsTrue room.old.room.is_open }
    requires moment { m.0 ≤ max_moment }
    requires whole { IsWholeChange change }
    requires fits { IsFitting change room.old.room }
    requires prepared { IsPrepared change first room.old }
    ensures does { Does (with_first_file room.old.room (Enter m change ∷ [])) result
        room.old.room room.new.room (D.view store.old) (D.view store.new) }
    ensures memory { OnOk result (KeepsSessionMemory room.old.memory room.new.memory) }
    ensures entered { OnOk result (WasEntered m change room.old.room room.new.room) }
    ensures shut { OnErr result (WasClosed room.new.room) }
{
    match first {
        Some(snapshot) => enter_first(room, store, m, change, snapshot.as_slice()),
        None => room.enter(store, m, change),
    }
}

// Writes the first file of the journal, and then enters the record.
fn enter_first<D: Store>(
    room: &mut RoomState,
    store: &mut D,
    m: Moment,
    change: Change,
    snapshot: &[u8],
) -> Result<(), Refusal>
    requires opens { IsTrue room.old.room.is_open }
    requires moment { m.0 ≤ max_moment }
    requires whole { IsWholeChange change }
    requires fits { IsFitting change room.old.room }
    requires prepared { IsPrepared change (Some snapshot.now) room.old }
    ensures does { Does (with_first_file room.old.room (Enter m change ∷ [])) result
        room.old.room room.new.room (D.view store.old) (D.view store.new) }
    ensures memory { OnOk result (KeepsSessionMemory room.old.memory room.new.memory) }
    ensures entered { OnOk result (WasEntered m change room.old.room room.new.room) }
    ensures shut { OnErr result (WasClosed room.new.room) }
{
    let _is_open = room.is_open();
    match room.turn_over(store, snapshot) {
        Ok(()) => room.enter(store, m, change),
        Err(fault) => Err(fault),
    }
}
