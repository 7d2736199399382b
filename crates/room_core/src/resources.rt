//! The commands of resources leave the open sessions what they have.

ghost use Rattle.std.specs.Prelude.{◌≡◌, ◌≤◌, IsTrue};
ghost use Rattle.room_base.specs.Numbers.{max_moment};
ghost use Rattle.room_effects.specs.View.{IsBetweenCommands};
ghost use Rattle.room_effects.specs.Plans.{Follows, Plan};
ghost use Rattle.room_resources.specs.Defining.{IsDefinePlan};
ghost use Rattle.room_resources.specs.Dropping.{drop_plan};

use room_base::{Items, Moment, Name};
use room_command::{Reply, ResourceKind};
use room_disk::Store;
use room_state::RoomState;

pub(crate) fn define<D: Store>(
    room: &mut RoomState,
    store: &mut D,
    m: Moment,
    text: Items<u8>,
) -> Reply
    requires opens { IsTrue room.old.room.is_open }
    requires moment { m.0 ≤ max_moment }
    requires between { IsBetweenCommands room.old.room }
    ensures follows { (plan : Plan) × IsDefinePlan m text room.old.room plan
        × Follows plan result
        room.old.room room.new.room (D.view store.old) (D.view store.new) }
    ensures between { IsBetweenCommands room.new.room }
{
    let reply = room_resources::define(room, store, m, text.as_slice());
    let _is_open = room.is_open();
    reply
}

pub(crate) fn drop_resource<D: Store>(
    room: &mut RoomState,
    store: &mut D,
    m: Moment,
    kind: ResourceKind,
    name: Name,
) -> Reply
    requires opens { IsTrue room.old.room.is_open }
    requires moment { m.0 ≤ max_moment }
    requires between { IsBetweenCommands room.old.room }
    ensures follows { Follows (drop_plan m kind name room.old.room) result
        room.old.room room.new.room (D.view store.old) (D.view store.new) }
    ensures between { IsBetweenCommands room.new.room }
{
    let reply = room_resources::drop_resource(room, store, m, kind, name);
    let _is_open = room.is_open();
    reply
}
