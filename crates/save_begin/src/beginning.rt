//! The beginning of a save.

ghost use Rattle.std.specs.Prelude.{◌≡◌, ◌≤◌, ◌<◌, false, length, IsTrue};
ghost use Rattle.room_base.specs.Numbers.{max_moment};
ghost use Rattle.room_effects.specs.View.{IsBetweenCommands};
ghost use Rattle.room_effects.specs.Entering.{is_at_ceiling};
ghost use Rattle.room_effects.specs.Plans.{Plan, Follows};
ghost use Rattle.room_entering.specs.Prepared.{IsPrepared};
ghost use Rattle.save_begin.specs.Beginning.{IsBeginPlan, IsLevelPlan, begin_plan, begun_answer};
ghost use Rattle.save_begin.specs.Beginning.{chosen_plan};
ghost use Rattle.save_begin.specs.Fitting.{GoesTo, IsChoice, IsNewHead, MayBegin};
ghost use Rattle.save_begin.specs.Writing.{IsMade};

use crate::asked::{Asked, allowed_names};
use crate::checking::begin_checks;
use crate::choosing::{Chosen, choose};
use crate::entering::{Begun, answer_of, enter_head, prepare};
use room_base::{Memory, Moment, Name, Refusal};
use room_command::{Answer, Reply};
use room_disk::Store;
use room_entering::{CEILING, is_at_ceiling};
use room_rules::Action;
use room_state::RoomState;
use save_stream::Level;

/// Begins a save of a client's set, at this level, or at that of the group's schedule.
pub fn begin<D: Store>(
    room: &mut RoomState,
    store: &mut D,
    m: Moment,
    client: Name,
    set: Name,
    group: Option<Name>,
    level: Option<Action>,
) -> Reply
    requires opens { IsTrue room.old.room.is_open }
    requires moment { m.0 ≤ max_moment }
    requires between { IsBetweenCommands room.old.room }
    ensures follows { (plan : Plan) × IsBeginPlan m
        (record { client = client; set = set; group = group; level = level }) room.old.room plan
        × Follows plan result
        room.old.room room.new.room (D.view store.old) (D.view store.new) }
    ensures between { IsBetweenCommands room.new.room }
{
    let asked = Asked {
        client,
        set,
        group,
        level,
    };
    let allowed = allowed_names(&asked);
    match begin_checks(room, m, allowed, &asked) {
        Ok(wanted) => begin_at(room, store, m, asked, wanted),
        Err(refusal) => Reply::Refused(refusal),
    }
}

// Begins a save at the level that is wanted.
fn begin_at<D: Store>(
    room: &mut RoomState,
    store: &mut D,
    m: Moment,
    asked: Asked,
    wanted: Level,
) -> Reply
    requires opens { IsTrue room.old.room.is_open }
    requires moment { m.0 ≤ max_moment }
    requires between { IsBetweenCommands room.old.room }
    requires asked { MayBegin asked room.old.room }
    ensures follows { (plan : Plan) × IsLevelPlan m asked room.old.room plan wanted
        × Follows plan result
        room.old.room room.new.room (D.view store.old) (D.view store.new) }
    ensures between { IsBetweenCommands room.new.room }
{
    let _rank = wanted.rank();
    let choice = choose(room, m, &asked, wanted);
    drop(asked);
    match choice {
        Ok(chosen) => begin_chosen(room, store, m, chosen),
        Err(refusal) => Reply::Refused(refusal),
    }
}

// Begins the save with the head that was chosen, where a number is left for its record.
fn begin_chosen<D: Store>(room: &mut RoomState, store: &mut D, m: Moment, chosen: Chosen) -> Reply
    requires opens { IsTrue room.old.room.is_open }
    requires moment { m.0 ≤ max_moment }
    requires between { IsBetweenCommands room.old.room }
    requires few { length room.old.room.sessions < 64 }
    requires choice { IsChoice room.old.room chosen }
    ensures follows { Follows (chosen_plan m room.old.room chosen) result
        room.old.room room.new.room (D.view store.old) (D.view store.new) }
    ensures between { IsBetweenCommands room.new.room }
{
    if is_at_ceiling(room.catalogue()) {
        return Reply::Refused(Refusal::TooMany { limit: CEILING });
    }
    begin_below(room, store, m, chosen)
}

// Takes the memory for the save, and begins it.
fn begin_below<D: Store>(room: &mut RoomState, store: &mut D, m: Moment, chosen: Chosen) -> Reply
    requires opens { IsTrue room.old.room.is_open }
    requires moment { m.0 ≤ max_moment }
    requires between { IsBetweenCommands room.old.room }
    requires few { length room.old.room.sessions < 64 }
    requires below { is_at_ceiling room.old.room.catalogue ≡ false }
    requires head { IsNewHead chosen.head room.old.room }
    requires drive { GoesTo chosen.head room.old.room chosen.drive }
    ensures follows { Follows (begin_plan m room.old.room chosen) result
        room.old.room room.new.room (D.view store.old) (D.view store.new) }
    ensures between { IsBetweenCommands room.new.room }
{
    match prepare(room, &chosen.head) {
        Ok(begun) => match answer_of(&chosen.head) {
            Ok(answer) => open_and_enter(room, store, m, chosen, begun, answer),
            Err(Memory) => Reply::Refused(Refusal::NoMemory),
        },
        Err(Memory) => Reply::Refused(Refusal::NoMemory),
    }
}

// Opens the session, which is the last that takes memory, and goes on with the record.
fn open_and_enter<D: Store>(
    room: &mut RoomState,
    store: &mut D,
    m: Moment,
    chosen: Chosen,
    begun: Begun,
    answer: Answer,
) -> Reply
    requires opens { IsTrue room.old.room.is_open }
    requires moment { m.0 ≤ max_moment }
    requires between { IsBetweenCommands room.old.room }
    requires few { length room.old.room.sessions < 64 }
    requires below { is_at_ceiling room.old.room.catalogue ≡ false }
    requires head { IsNewHead chosen.head room.old.room }
    requires drive { GoesTo chosen.head room.old.room chosen.drive }
    requires made { IsMade chosen.head begun }
    requires answer { answer ≡ begun_answer chosen.head }
    requires entry { IsPrepared begun.change begun.first room.old }
    requires commits { length room.old.room.sessions < room.old.memory.closed }
    ensures follows { Follows (begin_plan m room.old.room chosen) result
        room.old.room room.new.room (D.view store.old) (D.view store.new) }
    ensures between { IsBetweenCommands room.new.room }
{
    let Chosen { head, drive } = chosen;
    let ssid = head.ssid;
    match room.open_session(head) {
        Ok(()) => match enter_head(room, store, m, ssid, drive, begun) {
            Ok(()) => Reply::Done(answer),
            Err(fault) => Reply::Refused(fault),
        },
        Err(Memory) => Reply::Refused(Refusal::NoMemory),
    }
}
