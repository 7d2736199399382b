//! What a group does with its members on a day.

ghost use Rattle.std.specs.Prelude.{◌≡◌, ◌≤◌, IfOk};
ghost use Rattle.sched_levels.specs.Actions.{DecidesEachDay, action_on};
ghost use Rattle.sched_levels.specs.Calendar.{last_day};
ghost use Rattle.sched_levels.specs.Plans.{Does, IsPlan, IsPlanned};

use crate::{base_for, level_on};
use media_db::MediaDb;
use room_base::{Memory, Ssid};
use room_rules::{Action, Group, Member, Planned, Schedule};
use save_stream::Level;
use std::alloc::Global;

/// What a group with this schedule does with each of its members on a day, in their order: the
/// level and the base of the save, or that it is skipped.
pub fn group_plan(
    alloc: Global,
    db: &MediaDb,
    group: &Group,
    schedule: &Schedule,
    day: u32,
) -> Result<Vec<Planned>, Memory>
    requires schedule { DecidesEachDay schedule.now }
    requires day { day ≤ last_day }
    ensures { IfOk result (λ plan.
        IsPlan db.now.records (action_on schedule.now day) group.now.members plan.items) }
{
    let action = level_on(schedule, day);
    let members = group.members.as_slice();
    let mut plan = Vec::with_capacity(alloc, members.len())?;
    for member in members {
        plan.push(planned(db, member, action)?)?;
    }
    Ok(plan)
}

// What is done with a member on a day of this action.
fn planned(db: &MediaDb, member: &Member, action: Action) -> Result<Planned, Memory>
    ensures { IfOk result (λ planned. IsPlanned db.now.records action member.now planned) }
{
    let (action, base) = action_and_base(db, member, action);
    Ok(Planned {
        client: member.client.copy()?,
        set: member.set.copy()?,
        action,
        base,
    })
}

fn action_and_base(db: &MediaDb, member: &Member, action: Action) -> (Action, Ssid)
    ensures { Does db.now.records member.now.client member.now.set action result.0 result.1 }
{
    match Level::of(action.byte()) {
        Some(level) => {
            let (level, base) = base_for(db, &member.client, &member.set, level);
            (action_of(level), base)
        }
        None => (action, Ssid(0)),
    }
}

// The action that saves at a level.
fn action_of(level: Level) -> Action
    ensures { result ≡ level }
{
    Action::of(level.rank()).unwrap()
}
