//! The command that drops a resource.

ghost use Rattle.std.specs.Prelude.{◌≡◌, ◌≤◌, IsTrue};
ghost use Rattle.room_base.specs.Numbers.{max_moment};
ghost use Rattle.catalog_change.specs.Catalogues.{HasResources};
ghost use Rattle.room_catalog.specs.Held.{catalogue_of};
ghost use Rattle.room_effects.specs.Checked.{ComesTo};
ghost use Rattle.room_effects.specs.Plans.{Follows};
ghost use Rattle.room_resources.specs.Dropping.{drop_plan, may_drop};

use crate::calls::{has, kind_word, no_such};
use crate::users::{needed_by, user_of};
use catalog_change::{Change, ResourceKind};
use room_base::{Moment, Name, Refusal};
use room_command::{Answer, Reply};
use room_disk::Store;
use room_entering::enter_alone;
use room_state::RoomState;

/// Drops a resource that is there, and that nothing needs.
pub fn drop_resource<D: Store>(
    room: &mut RoomState,
    store: &mut D,
    m: Moment,
    kind: ResourceKind,
    name: Name,
) -> Reply
    requires opens { IsTrue room.old.room.is_open }
    requires moment { m.0 ≤ max_moment }
    ensures { Follows (drop_plan m kind name room.old.room) result
        room.old.room room.new.room (D.view store.old) (D.view store.new) }
{
    match may_drop(room, kind, &name) {
        Ok(()) => enter_alone(
            room,
            store,
            m,
            Change::Dropped { kind, name },
            Answer::Empty,
        ),
        Err(refusal) => Reply::Refused(refusal),
    }
}

// Whether a resource can be dropped.
fn may_drop(room: &RoomState, kind: ResourceKind, name: &Name) -> Result<(), Refusal>
    ensures checks { ComesTo (may_drop kind name.now room.now.room.catalogue) result }
    ensures allowed { HasResources (catalogue_of room.now.room.catalogue) }
{
    let catalogue = room.catalogue();
    // A catalogue knows that it is allowed.
    let _number = catalogue.number();
    if !has(catalogue, kind, name.as_bytes()) {
        return Err(no_such(room.allocator(), kind_word(kind), name.as_str()));
    }
    match user_of(catalogue, kind, name.as_str()) {
        Some(user) => Err(needed_by(room.allocator(), &user)),
        None => Ok(()),
    }
}
