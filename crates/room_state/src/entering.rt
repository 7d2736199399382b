//! The effects that write the journal.

ghost use Rattle.std.specs.Prelude.{◌≡◌, ◌∷◌, [], OnOk};
ghost use Rattle.room_effects.specs.Effects.{Enter, EnterPart, TurnOver};
ghost use Rattle.room_effects.specs.Memory.{HasMemoryFor};
ghost use Rattle.room_effects.specs.Needs.{CanDo};
ghost use Rattle.room_effects.specs.Running.{Does};
ghost use Rattle.room_state.specs.Memory.{TakesMemory};

use crate::state::RoomState;
use catalog_change::Change;
use room_base::{Items, Moment, Refusal, Ssid};
use room_disk::Store;
use save_stream::IndexEntry;

impl RoomState {
    /// Writes a change into the journal, and then makes it in the catalogue. Where the write fails
    /// the room is closed.
    pub fn enter<D: Store>(
        &mut self,
        store: &mut D,
        m: Moment,
        change: Change,
    ) -> Result<(), Refusal>
        requires can { CanDo (Enter m change) self.old.room }
        requires memory { HasMemoryFor (Enter m change) self.old }
        ensures does { Does (Enter m change ∷ []) result self.old.room self.new.room
            (D.view store.old) (D.view store.new) }
        ensures memory { OnOk result
            (TakesMemory (Enter m change) self.old.memory self.new.memory) }
    {
        match self.journal.append(store, m, &change) {
            Ok(number) => {
                self.catalogue.apply(number, m, change);
                let _held = self.catalogue.number();
                Ok(())
            }
            Err(_) => {
                self.shut();
                Err(Refusal::JournalFault)
            }
        }
    }

    /// Writes a part of an index into the journal, and then adds it to those that wait. Where the
    /// write fails the room is closed.
    pub fn enter_part<D: Store>(
        &mut self,
        store: &mut D,
        m: Moment,
        ssid: Ssid,
        part: u32,
        index: Items<IndexEntry>,
    ) -> Result<(), Refusal>
        requires can { CanDo (EnterPart m ssid part index) self.old.room }
        requires memory { HasMemoryFor (EnterPart m ssid part index) self.old }
        ensures does { Does (EnterPart m ssid part index ∷ []) result self.old.room self.new.room
            (D.view store.old) (D.view store.new) }
        ensures memory { OnOk result
            (TakesMemory (EnterPart m ssid part index) self.old.memory self.new.memory) }
    {
        let change = Change::IndexPart { ssid, part, index };
        match self.journal.append_part(store, m, &change) {
            Ok(()) => {
                let number = self.catalogue.number() + 1;
                self.catalogue.apply(number, m, change);
                Ok(())
            }
            Err(_) => {
                self.shut();
                Err(Refusal::JournalFault)
            }
        }
    }

    /// Goes on with the journal in its other file, behind this snapshot of the catalogue, where no
    /// part of an index waits. Behind the last generation nothing is written, and all stays as it
    /// is. Where the write fails the room is closed.
    pub fn turn_over<D: Store>(&mut self, store: &mut D, snapshot: &[u8]) -> Result<(), Refusal>
        requires { CanDo (TurnOver snapshot.now) self.old.room }
        ensures does { Does (TurnOver snapshot.now ∷ []) result self.old.room self.new.room
            (D.view store.old) (D.view store.new) }
        ensures memory { OnOk result
            (TakesMemory (TurnOver snapshot.now) self.old.memory self.new.memory) }
    {
        if self.journal.is_at_last() {
            return Ok(());
        }
        match self.journal.turn_over(store, snapshot) {
            Ok(()) => {
                self.catalogue.drop_parts();
                Ok(())
            }
            Err(_) => {
                self.shut();
                Err(Refusal::JournalFault)
            }
        }
    }
}
