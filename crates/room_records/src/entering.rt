//! The entry of a change that no open session is about.

ghost use Rattle.std.specs.Prelude.{◌≤◌, ◌∷◌, [], IsTrue};
ghost use Rattle.room_base.specs.Numbers.{max_moment};
ghost use Rattle.catalog_change.specs.Changes.{IsChange};
ghost use Rattle.room_catalog.specs.Fits.{FitsByKind, FitsParts};
ghost use Rattle.room_catalog.specs.Held.{catalogue_of};
ghost use Rattle.room_command.specs.declared.reply.Reply.TheVariants as replies;
ghost use Rattle.room_effects.specs.View.{IsBetweenCommands};
ghost use Rattle.room_effects.specs.Effects.{Enter};
ghost use Rattle.room_effects.specs.Needs.{IsWholeChange};
ghost use Rattle.room_between.specs.Quiet.{LeavesOpen};
ghost use Rattle.room_effects.specs.Entering.{entering};
ghost use Rattle.room_effects.specs.Plans.{Follows};

use catalog_change::Change;
use room_base::Moment;
use room_command::{Answer, Reply};
use room_disk::Store;
use room_entering::enter_alone;
use room_state::RoomState;

/// Enters a change that is all that a command does, where a number is left for it.
pub(crate) fn enter<D: Store>(
    room: &mut RoomState,
    store: &mut D,
    m: Moment,
    change: Change,
    answer: Answer,
) -> Reply
    requires opens { IsTrue room.old.room.is_open }
    requires moment { m.0 ≤ max_moment }
    requires between { IsBetweenCommands room.old.room }
    requires whole { IsWholeChange change }
    requires allowed { IsChange change }
    requires fits { FitsByKind (catalogue_of room.old.room.catalogue) change }
    requires parts { FitsParts room.old.room.catalogue.parts change }
    requires leaves { LeavesOpen change room.old.room.sessions }
    ensures follows { Follows (entering [] (Enter m change ∷ []) (replies.Done answer)
        room.old.room) result
        room.old.room room.new.room (D.view store.old) (D.view store.new) }
    ensures between { IsBetweenCommands room.new.room }
{
    let reply = enter_alone(room, store, m, change, answer);
    // A room knows that it is one.
    let _is_open = room.is_open();
    reply
}
