//! Which command goes where.

ghost use Rattle.std.specs.Prelude.{◌≤◌, IsTrue};
ghost use Rattle.room_base.specs.Numbers.{max_moment};
ghost use Rattle.room_effects.specs.View.{IsBetweenCommands};
ghost use Rattle.room_effects.specs.Plans.{Follows, Plan};
ghost use Rattle.room_turns.specs.Steps.{IsPlanOf};

use crate::media::{eject, label, load, mount, unmount};
use crate::resources::{define, drop_resource};
use room_base::Moment;
use room_command::{Command, Reply};
use room_disk::Store;
use room_media::inventory;
use room_records::{amend, delete, nsrim, show};
use room_state::RoomState;
use save_append::append;
use save_begin::{abort, begin, savegrp};
use save_finish::finish;

/// Does what a command asks at its moment, and answers it.
pub(crate) fn answer<D: Store>(
    room: &mut RoomState,
    store: &mut D,
    m: Moment,
    command: Command,
) -> Reply
    requires opens { IsTrue room.old.room.is_open }
    requires moment { m.0 ≤ max_moment }
    requires between { IsBetweenCommands room.old.room }
    ensures follows { (plan : Plan) × IsPlanOf m command room.old.room plan × Follows plan result
        room.old.room room.new.room (D.view store.old) (D.view store.new) }
    ensures between { IsBetweenCommands room.new.room }
{
    match command {
        Command::Define { text } => define(room, store, m, text),
        Command::Drop { kind, name } => drop_resource(room, store, m, kind, name),
        Command::Load { slot, cart } => load(room, store, m, slot, cart),
        Command::Eject { slot } => eject(room, store, m, slot),
        Command::Label {
            slot,
            pool,
            capacity,
            block,
        } => label(room, store, m, slot, pool, capacity, block),
        Command::Mount { slot, drive } => mount(room, store, slot, drive),
        Command::Unmount { drive } => unmount(room, store, drive),
        Command::Inventory => inventory(room, store),
        Command::Append {
            ssid,
            offset,
            piece,
        } => append(room, store, ssid, offset, piece.as_slice()),
        Command::Amend {
            ssid,
            browse,
            retain,
            hold,
        } => amend(room, store, m, ssid, browse, retain, hold),
        Command::Delete { ssid } => delete(room, store, m, ssid),
        Command::Nsrim => nsrim(room, store, m),
        Command::Show { ssid } => show(room, store, ssid),
        Command::Savegrp { group } => savegrp(room, store, m, &group),
        Command::Begin {
            client,
            set,
            group,
            level,
        } => begin(room, store, m, client, set, group, level),
        Command::Finish {
            ssid,
            length,
            sha256,
        } => finish(room, store, m, ssid, length, sha256),
        Command::Abort { ssid } => abort(room, store, m, ssid),
    }
}
