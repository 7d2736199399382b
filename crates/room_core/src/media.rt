//! The commands on slots, cartridges and drives leave the open sessions what they have.

ghost use Rattle.std.specs.Prelude.{◌≡◌, ◌≤◌, IsTrue};
ghost use Rattle.room_base.specs.Numbers.{max_moment};
ghost use Rattle.room_effects.specs.View.{IsBetweenCommands};
ghost use Rattle.room_effects.specs.Plans.{Follows, Plan};
ghost use Rattle.room_media.specs.Labelling.{IsLabelPlan};
ghost use Rattle.room_media.specs.Mounting.{IsMountPlan, unmount_plan};
ghost use Rattle.room_media.specs.Slots.{eject_plan, load_plan};

use room_base::{Cart, Moment, Name};
use room_command::Reply;
use room_disk::Store;
use room_state::RoomState;

pub(crate) fn load<D: Store>(
    room: &mut RoomState,
    store: &mut D,
    m: Moment,
    slot: u8,
    cart: Cart,
) -> Reply
    requires opens { IsTrue room.old.room.is_open }
    requires moment { m.0 ≤ max_moment }
    requires between { IsBetweenCommands room.old.room }
    ensures follows { Follows (load_plan m slot cart room.old.room) result
        room.old.room room.new.room (D.view store.old) (D.view store.new) }
    ensures between { IsBetweenCommands room.new.room }
{
    let reply = room_media::load(room, store, m, slot, cart);
    let _is_open = room.is_open();
    reply
}

pub(crate) fn eject<D: Store>(room: &mut RoomState, store: &mut D, m: Moment, slot: u8) -> Reply
    requires opens { IsTrue room.old.room.is_open }
    requires moment { m.0 ≤ max_moment }
    requires between { IsBetweenCommands room.old.room }
    ensures follows { Follows (eject_plan m slot room.old.room) result
        room.old.room room.new.room (D.view store.old) (D.view store.new) }
    ensures between { IsBetweenCommands room.new.room }
{
    let reply = room_media::eject(room, store, m, slot);
    let _is_open = room.is_open();
    reply
}

pub(crate) fn mount<D: Store>(room: &mut RoomState, store: &mut D, slot: u8, drive: u8) -> Reply
    requires opens { IsTrue room.old.room.is_open }
    requires between { IsBetweenCommands room.old.room }
    ensures follows { (plan : Plan) × IsMountPlan slot drive room.old.room plan
        × Follows plan result
        room.old.room room.new.room (D.view store.old) (D.view store.new) }
    ensures between { IsBetweenCommands room.new.room }
{
    let reply = room_media::mount(room, store, slot, drive);
    let _is_open = room.is_open();
    reply
}

pub(crate) fn unmount<D: Store>(room: &mut RoomState, store: &mut D, drive: u8) -> Reply
    requires opens { IsTrue room.old.room.is_open }
    requires between { IsBetweenCommands room.old.room }
    ensures follows { Follows (unmount_plan drive room.old.room) result
        room.old.room room.new.room (D.view store.old) (D.view store.new) }
    ensures between { IsBetweenCommands room.new.room }
{
    let reply = room_media::unmount(room, store, drive);
    let _is_open = room.is_open();
    reply
}

pub(crate) fn label<D: Store>(
    room: &mut RoomState,
    store: &mut D,
    m: Moment,
    slot: u8,
    pool: Name,
    capacity: u32,
    block: Option<u32>,
) -> Reply
    requires opens { IsTrue room.old.room.is_open }
    requires moment { m.0 ≤ max_moment }
    requires between { IsBetweenCommands room.old.room }
    ensures follows { (plan : Plan) × IsLabelPlan m slot pool capacity block room.old.room plan
        × Follows plan result
        room.old.room room.new.room (D.view store.old) (D.view store.new) }
    ensures between { IsBetweenCommands room.new.room }
{
    let reply = room_media::label(room, store, m, slot, pool, capacity, block);
    let _is_open = room.is_open();
    reply
}
