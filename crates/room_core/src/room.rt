//! The room as its callers see it.

ghost use Rattle.std.specs.Prelude.{◌≡◌, IfOk, IsTrue, OnErr, OnOk};
ghost use Rattle.room_base.specs.Outside.{Told};
ghost use Rattle.room_disk.specs.Disk.{Quiet};
ghost use Rattle.journal_replay.specs.Answers.{ReplayCause};
ghost use Rattle.room_effects.specs.View.{IsRoom};
ghost use Rattle.room_turns.specs.Steps.{Turn};
ghost use Rattle.room_core.specs.Opening.{IsOpenedBy, IsRefusedBy};

use crate::dispatch::answer;
use crate::moment::moment_of;
use journal_replay::{ReplayFault, replay};
use room_base::Moment;
use room_catalog::Catalogue;
use room_command::{Command, Reply};
use room_disk::Store;
use room_state::RoomState;
use std::alloc::Global;
use std::marker::Model;

/// A room: its catalogue, the open sessions, its drives, and where its journal stands. Contracts see
/// these as one value.
#[derive(Drop)]
pub struct Room {
    state: RoomState,
}

impl Model for Room {
    ghost use Rattle.room_effects.specs.View.{IsBetweenCommands, RoomView};

    ghost Value = { RoomView };

    ghost view = { λ room. room.state.room };

    ghost invariant = { λ room. IsBetweenCommands room.state.room };
}

impl Room {
    /// Opens the room of a disk, from its journal; a blank disk has a room that was never used. Both
    /// files of the journal are synced, and nothing is written. `Damaged` says where the journal
    /// can't be read, `Failed` on which file a call failed.
    pub fn open<D: Store>(alloc: Global, store: &mut D) -> Result<Room, ReplayFault>
        ensures opened { IfOk result
            (λ room. IsOpenedBy room (D.view store.old) (D.view store.new)) }
        ensures refused { Told (D.view store.old).tells
            (IsRefusedBy (D.view store.old).reads result) }
        ensures cause { ReplayCause (D.view store.old) (D.view store.new) result }
        ensures tells { (D.view store.new).tells ≡ (D.view store.old).tells }
        ensures quiet { Told (D.view store.old).tells
            (Quiet (D.view store.old) (D.view store.new)) }
    {
        let replayed = replay(alloc, store)?;
        let state = RoomState::opened(alloc, replayed.catalogue, replayed.journal);
        let _is_open = state.is_open();
        Ok(Room { state })
    }

    /// Opens the room again behind a fault of its journal. What it held in memory is gone: sessions
    /// and buffers end, and drives are empty. Where that fails the room stays closed.
    pub fn reopen<D: Store>(&mut self, alloc: Global, store: &mut D) -> Result<(), ReplayFault>
        ensures opened { OnOk result
            (IsOpenedBy self.new (D.view store.old) (D.view store.new)) }
        ensures kept { OnErr result (self.new ≡ self.old) }
        ensures refused { Told (D.view store.old).tells
            (IsRefusedBy (D.view store.old).reads result) }
        ensures cause { ReplayCause (D.view store.old) (D.view store.new) result }
        ensures tells { (D.view store.new).tells ≡ (D.view store.old).tells }
        ensures quiet { Told (D.view store.old).tells
            (Quiet (D.view store.old) (D.view store.new)) }
    {
        match Room::open(alloc, store) {
            Ok(room) => {
                *self = room;
                Ok(())
            }
            Err(fault) => Err(fault),
        }
    }

    /// Whether the room takes commands: not after a write of the journal has failed.
    pub fn is_open(&self) -> bool
        ensures is_open { result ≡ self.now.is_open }
        ensures room { IsRoom self.now }
    {
        self.state.is_open()
    }

    /// The number of the last change.
    pub fn number(&self) -> u64
        ensures { result ≡ self.now.catalogue.number }
    {
        self.state.catalogue().number()
    }

    pub fn catalogue(&self) -> &Catalogue
        ensures { result.now.lists ≡ self.now.catalogue }
    {
        self.state.catalogue()
    }

    /// Does what a command asks, at what the clock answers, and replies. After the reply
    /// `JournalFault` the room is closed, and is to be reopened.
    pub fn call<D: Store>(&mut self, store: &mut D, clock: Moment, command: Command) -> Reply
        requires { IsTrue self.old.is_open }
        ensures turn { Turn (record { clock = clock.0; command = command; reply = result })
            self.old self.new (D.view store.old) (D.view store.new) }
        ensures room { IsRoom self.new }
    {
        let m = moment_of(self.state.catalogue(), clock);
        let reply = answer(&mut self.state, store, m, command);
        let _is_open = self.state.is_open();
        reply
    }
}
