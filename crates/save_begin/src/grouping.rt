//! Groups, and what one saves today.

ghost use Rattle.std.specs.Prelude.{◌≡◌, ◌≤◌, IfOk, IfSome, MatchOption, None, Some};
ghost use Rattle.room_base.specs.Numbers.{max_moment};
ghost use Rattle.room_effects.specs.Plans.{Plan, Follows};
ghost use Rattle.sched_levels.specs.Actions.{DecidesEachDay, action_on};
ghost use Rattle.sched_levels.specs.Plans.{IsPlan};
ghost use Rattle.save_begin.specs.Asking.{day_of, group_of, schedule_of};
ghost use Rattle.save_begin.specs.Grouping.{IsSavegrpPlan};

use crate::leveling::day_of;
use room_base::{Items, Memory, Moment, Name, Refusal};
use room_checks::no_such_name;
use room_command::{Answer, Reply};
use room_disk::Store;
use room_rules::{Group, Planned, Schedule};
use room_state::RoomState;
use sched_levels::group_plan;

/// Says what a group saves today. The disk isn't asked.
pub fn savegrp<D: Store>(room: &RoomState, _store: &D, m: Moment, group: &Name) -> Reply
    requires { m.0 ≤ max_moment }
    ensures { (plan : Plan) × IsSavegrpPlan m group.now room.now.room plan × Follows plan result
        room.now.room room.now.room (D.view _store.now) (D.view _store.now) }
{
    match scheduled_group(room, group) {
        Some((one, schedule)) => match planned(room, m, one, schedule) {
            Ok(plan) => Reply::Done(Answer::Plan(plan)),
            Err(Memory) => Reply::Refused(Refusal::NoMemory),
        },
        None => match group.copy() {
            Ok(name) => Reply::Refused(no_such_name(room.allocator(), "group", name)),
            Err(Memory) => Reply::Refused(Refusal::NoMemory),
        },
    }
}

/// The group of a name, with its schedule.
pub(crate) fn scheduled_group<'a>(
    room: &'a RoomState,
    name: &Name,
) -> Option<(&'a Group, &'a Schedule)>
    ensures found { MatchOption result (group_of name.now room.now.room ≡ None)
        (λ pair. (group_of name.now room.now.room ≡ Some pair.0.now)
        × (schedule_of pair.0.now.schedule room.now.room ≡ Some pair.1.now)) }
    ensures decides { IfSome result (λ pair. DecidesEachDay pair.1.now) }
{
    let catalogue = room.catalogue();
    let _held = catalogue.number();
    match catalogue.group(name.as_bytes()) {
        Some(group) => match catalogue.schedule(group.schedule.as_bytes()) {
            Some(schedule) => Some((group, schedule)),
            None => unreachable!(),
        },
        None => None,
    }
}

fn planned(
    room: &RoomState,
    m: Moment,
    group: &Group,
    schedule: &Schedule,
) -> Result<Items<Planned>, Memory>
    requires moment { m.0 ≤ max_moment }
    requires schedule { DecidesEachDay schedule.now }
    ensures { IfOk result (λ plan. IsPlan room.now.room.catalogue.records
        (action_on schedule.now (day_of m)) group.now.members plan) }
{
    let plan = group_plan(
        room.allocator(),
        room.catalogue().db(),
        group,
        schedule,
        day_of(m),
    )?;
    Ok(Items::of(plan))
}
