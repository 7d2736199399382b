//! The command that defines resources.

ghost use Rattle.std.specs.Prelude.{◌≡◌, ◌≤◌, IsTrue, Ok};
ghost use Rattle.std.specs.List.{AllByRecursion};
ghost use Rattle.room_base.specs.Numbers.{max_moment};
ghost use Rattle.catalog_change.specs.Resources.{IsResource};
ghost use Rattle.resource_lists.specs.Adding.{AreDistinct};
ghost use Rattle.room_effects.specs.Plans.{Follows, Plan};
ghost use Rattle.room_resources.specs.Defining.{IsDefinePlan, define_plan, fault_refusal};

use crate::adding::may_define;
use catalog_change::{Change, Resource};
use resource_text::{TextFault, read_resources};
use room_base::{Items, Moment, Refusal};
use room_command::{Answer, Reply};
use room_disk::Store;
use room_entering::enter_alone;
use room_state::RoomState;

/// Defines the resources of a text, which are all new.
pub fn define<D: Store>(room: &mut RoomState, store: &mut D, m: Moment, text: &[u8]) -> Reply
    requires opens { IsTrue room.old.room.is_open }
    requires moment { m.0 ≤ max_moment }
    ensures { (plan : Plan) × IsDefinePlan m text.now room.old.room plan
        × Follows plan result room.old.room room.new.room (D.view store.old) (D.view store.new) }
{
    match read_resources(room.allocator(), text) {
        Ok(new) => define_each(room, store, m, Items::of(new)),
        Err(fault) => Reply::Refused(fault_refusal(fault)),
    }
}

// What is said of a text that isn't taken.
fn fault_refusal(fault: TextFault) -> Refusal
    ensures { result ≡ fault_refusal fault }
{
    match fault {
        TextFault::Malformed { field } => Refusal::Malformed { field },
        TextFault::Memory => Refusal::NoMemory,
    }
}

// Defines resources that are allowed, and of which no two have one kind and name.
fn define_each<D: Store>(
    room: &mut RoomState,
    store: &mut D,
    m: Moment,
    new: Items<Resource>,
) -> Reply
    requires opens { IsTrue room.old.room.is_open }
    requires moment { m.0 ≤ max_moment }
    requires allowed { AllByRecursion IsResource new }
    requires distinct { AreDistinct new }
    ensures { Follows (define_plan m (Ok new) room.old.room) result
        room.old.room room.new.room (D.view store.old) (D.view store.new) }
{
    match may_define(room, new.as_slice()) {
        Ok(()) => {
            let count = new.as_slice().len() as u32;
            let change = Change::Defined { resources: new };
            enter_alone(room, store, m, change, Answer::Defined { count })
        }
        Err(refusal) => Reply::Refused(refusal),
    }
}
