//! The entry of an index in parts.

ghost use Rattle.std.specs.Prelude.{◌∷◌, [], ◌++◌, ◌≡◌, ◌≤◌, IsSome, IsTrue, OnOk, None, Some};
ghost use Rattle.std.specs.Prelude.{◌<◌, drop, length, take, vec_capacity, vec_len};
ghost use Rattle.std.specs.Vec.Iter.{into_iter_items};
ghost use Rattle.room_base.specs.Numbers.{max_moment};
ghost use Rattle.cat_journal.specs.Journal.{form_of};
ghost use Rattle.catalog_change.specs.Changes.{max_part};
ghost use Rattle.save_session.specs.Sessions.{find_session};
ghost use Rattle.room_effects.specs.View.{IsBetweenCommands};
ghost use Rattle.room_effects.specs.Effects.{Enter, EnterPart};
ghost use Rattle.room_effects.specs.Memory.{HasMemoryFor};
ghost use Rattle.room_effects.specs.Needs.{CanDo};
ghost use Rattle.room_effects.specs.Running.{Does};
ghost use Rattle.room_state.specs.Memory.{TakesMemory};
ghost use Rattle.save_finish.specs.Ending.{part_count, parts_to, second_form};
ghost use Rattle.save_finish.specs.Parts.{AreListsFor, HasEntered, HasMemoryForIndex, IsEnteredFrom};
ghost use Rattle.save_finish.specs.Parts.{IsForForm, IsListFor, MayEnterIndex, closing_change};

use crate::lengths::{MAX_PART, part_count};
use crate::part_room::PartRoom;
use crate::stream::EndedStream;
use catalog_change::Change;
use room_base::{Items, Moment, Refusal, Ssid};
use room_disk::Store;
use room_state::RoomState;
use save_stream::IndexEntry;
use std::vec::IntoIter;

// Enters the parts of an index, and the change that closes them. A file that takes no parts is
// turned over before.
pub(crate) fn enter_index<D: Store>(
    room: &mut RoomState,
    store: &mut D,
    m: Moment,
    ssid: Ssid,
    parts: PartRoom,
    index: Vec<IndexEntry>,
) -> Result<(), Refusal>
    requires moment { m.0 ≤ max_moment }
    requires between { IsBetweenCommands room.old.room }
    requires may { MayEnterIndex ssid parts.stream index.items room.old.room }
    requires memory { HasMemoryForIndex ssid index.items (closing_change ssid parts.stream)
        room.old }
    requires lists { AreListsFor (length index.items) parts.lists.items }
    requires snapshot { IsForForm parts.snapshot room.old.room }
    ensures does { Does (second_form room.old.room
        ++ (parts_to (part_count (length index.items)) m ssid index.items
        ++ Enter m (closing_change ssid parts.stream) ∷ [])) result
        room.old.room room.new.room (D.view store.old) (D.view store.new) }
    ensures between { IsBetweenCommands room.new.room }
{
    let PartRoom {
        stream,
        lists,
        snapshot,
    } = parts;
    match to_second_form(room, store, snapshot) {
        Ok(()) => enter_parts_and_end(room, store, m, ssid, stream, lists, index),
        Err(fault) => Err(fault),
    }
}

// Goes on with the journal in a new file, where the current one takes no parts.
fn to_second_form<D: Store>(
    room: &mut RoomState,
    store: &mut D,
    snapshot: Option<Items<u8>>,
) -> Result<(), Refusal>
    requires opens { IsTrue room.old.room.is_open }
    requires between { IsBetweenCommands room.old.room }
    requires file { IsSome room.old.room.journal.current }
    requires snapshot { IsForForm snapshot room.old.room }
    ensures does { Does (second_form room.old.room) result
        room.old.room room.new.room (D.view store.old) (D.view store.new) }
    ensures between { IsBetweenCommands room.new.room }
    ensures turned { OnOk result (IsEnteredFrom room.old room.new) }
{
    match snapshot {
        Some(text) => turn_over(room, store, text.as_slice()),
        None => Ok(()),
    }
}

// Goes on with the journal in a new file.
fn turn_over<D: Store>(room: &mut RoomState, store: &mut D, snapshot: &[u8]) -> Result<(), Refusal>
    requires opens { IsTrue room.old.room.is_open }
    requires between { IsBetweenCommands room.old.room }
    requires snapshot { IsForForm (Some snapshot.now) room.old.room }
    ensures does { Does (second_form room.old.room) result
        room.old.room room.new.room (D.view store.old) (D.view store.new) }
    ensures between { IsBetweenCommands room.new.room }
    ensures turned { OnOk result (IsEnteredFrom room.old room.new) }
{
    match room.turn_over(store, snapshot) {
        Ok(()) => {
            let _is_turned = room.is_open();
            Ok(())
        }
        Err(fault) => {
            let _is_shut = room.is_open();
            Err(fault)
        }
    }
}

// Enters the parts of an index, and the change that closes them, in a file that takes parts.
fn enter_parts_and_end<D: Store>(
    room: &mut RoomState,
    store: &mut D,
    m: Moment,
    ssid: Ssid,
    stream: EndedStream,
    lists: Vec<Vec<IndexEntry>>,
    index: Vec<IndexEntry>,
) -> Result<(), Refusal>
    requires moment { m.0 ≤ max_moment }
    requires between { IsBetweenCommands room.old.room }
    requires may { MayEnterIndex ssid stream index.items room.old.room }
    requires memory { HasMemoryForIndex ssid index.items (closing_change ssid stream) room.old }
    requires lists { AreListsFor (length index.items) lists.items }
    requires form { form_of room.old.room.journal.current ≡ 2 }
    ensures does { Does (parts_to (part_count (length index.items)) m ssid index.items
        ++ Enter m (closing_change ssid stream) ∷ []) result
        room.old.room room.new.room (D.view store.old) (D.view store.new) }
    ensures between { IsBetweenCommands room.new.room }
{
    match enter_parts(room, store, m, ssid, &stream, lists, index) {
        Ok(()) => enter_closing(room, store, m, ssid, stream),
        Err(fault) => Err(fault),
    }
}

// Enters the parts of an index.
fn enter_parts<D: Store>(
    room: &mut RoomState,
    store: &mut D,
    m: Moment,
    ssid: Ssid,
    stream: &EndedStream,
    lists: Vec<Vec<IndexEntry>>,
    index: Vec<IndexEntry>,
) -> Result<(), Refusal>
    requires moment { m.0 ≤ max_moment }
    requires between { IsBetweenCommands room.old.room }
    requires may { MayEnterIndex ssid stream.now index.items room.old.room }
    requires memory { HasMemoryForIndex ssid index.items (closing_change ssid stream.now)
        room.old }
    requires lists { AreListsFor (length index.items) lists.items }
    requires form { form_of room.old.room.journal.current ≡ 2 }
    ensures does { Does (parts_to (part_count (length index.items)) m ssid index.items) result
        room.old.room room.new.room (D.view store.old) (D.view store.new) }
    ensures between { IsBetweenCommands room.new.room }
    ensures entered { OnOk result
        (HasEntered ssid (part_count (length index.items)) index.items room.old room.new) }
{
    let count = part_count(stream.files as usize) as u32;
    let mut lists = lists;
    let mut entries = index.into_iter();
    for part in 0..count {
        let Some(list) = lists.pop() else {
            unreachable!()
        };
        let next = next_part(&mut entries, list);
        match enter_part(room, store, m, ssid, part, next) {
            Ok(()) => {}
            Err(fault) => return Err(fault),
        }
    }
    Ok(())
}

// The next entries, as many as a part has, in a list that has room for them.
fn next_part(entries: &mut IntoIter<IndexEntry>, list: Vec<IndexEntry>) -> Items<IndexEntry>
    requires { IsListFor list }
    ensures part { result ≡ take max_part (into_iter_items entries.old) }
    ensures rest { into_iter_items entries.new ≡ drop max_part (into_iter_items entries.old) }
{
    let mut part = list;
    for _place in 0..MAX_PART {
        move_next(entries, &mut part);
    }
    Items::of(part)
}

// Moves the next entry, if there is one, into a list that has room for it.
fn move_next(entries: &mut IntoIter<IndexEntry>, part: &mut Vec<IndexEntry>)
    requires { vec_len part.old < vec_capacity part.old }
    ensures moved { part.new.items ≡ part.old.items ++ take 1 (into_iter_items entries.old) }
    ensures rest { into_iter_items entries.new ≡ drop 1 (into_iter_items entries.old) }
    ensures room { vec_capacity part.old ≤ vec_capacity part.new }
{
    match entries.next() {
        Some(entry) => part.push(entry).unwrap(),
        None => {}
    }
}

// Enters a part of an index.
fn enter_part<D: Store>(
    room: &mut RoomState,
    store: &mut D,
    m: Moment,
    ssid: Ssid,
    part: u32,
    index: Items<IndexEntry>,
) -> Result<(), Refusal>
    requires can { CanDo (EnterPart m ssid part index) room.old.room }
    requires memory { HasMemoryFor (EnterPart m ssid part index) room.old }
    requires between { IsBetweenCommands room.old.room }
    ensures does { Does (EnterPart m ssid part index ∷ []) result
        room.old.room room.new.room (D.view store.old) (D.view store.new) }
    ensures between { IsBetweenCommands room.new.room }
    ensures memory { OnOk result
        (TakesMemory (EnterPart m ssid part index) room.old.memory room.new.memory) }
{
    match room.enter_part(store, m, ssid, part, index) {
        Ok(()) => {
            let _is_entered = room.is_open();
            Ok(())
        }
        Err(fault) => {
            let _is_shut = room.is_open();
            Err(fault)
        }
    }
}

// Enters the change that closes the parts of an index.
fn enter_closing<D: Store>(
    room: &mut RoomState,
    store: &mut D,
    m: Moment,
    ssid: Ssid,
    stream: EndedStream,
) -> Result<(), Refusal>
    requires can { CanDo (Enter m (closing_change ssid stream)) room.old.room }
    requires memory { HasMemoryFor (Enter m (closing_change ssid stream)) room.old }
    requires between { IsBetweenCommands room.old.room }
    requires closed { find_session ssid.0 room.old.room.sessions ≡ None }
    ensures does { Does (Enter m (closing_change ssid stream) ∷ []) result
        room.old.room room.new.room (D.view store.old) (D.view store.new) }
    ensures between { IsBetweenCommands room.new.room }
{
    let digest = stream.digest;
    let change = Change::FinishedParts {
        ssid,
        files: stream.files,
        bytes: stream.bytes,
        digest,
        sections: stream.sections,
    };
    match room.enter(store, m, change) {
        Ok(()) => {
            let _is_entered = room.is_open();
            Ok(())
        }
        Err(fault) => {
            let _is_shut = room.is_open();
            Err(fault)
        }
    }
}
