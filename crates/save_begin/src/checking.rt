//! What is checked before a save begins.

ghost use Rattle.std.specs.Prelude.{◌≡◌, ◌⊎◌, ◌≤◌, codes, option_copied, IfOk, true};
ghost use Rattle.room_base.specs.Numbers.{max_moment};
ghost use Rattle.room_base.specs.declared.refusal.Refusal.TheVariants.{NoMemory, NoSuch};
ghost use Rattle.save_session.specs.Sessions.{find_session};
ghost use Rattle.save_begin.specs.Asking.{AnswersFor, begin_checks, busy_with, count_checks};
ghost use Rattle.save_begin.specs.Asking.{field_checks, free_checks, group_of, has_member, in_group};
ghost use Rattle.save_begin.specs.Asking.{is_level, level_checks, member_check, member_name};
ghost use Rattle.save_begin.specs.Asking.{named_checks, saves, saves_head, there_checks};

use crate::asked::{Allowed, Asked, is_level};
use crate::leveling::level_check;
use room_base::{Memory, Moment, Name, Refusal, Ssid};
use room_checks::{malformed, no_such_name};
use room_rules::Group;
use room_state::RoomState;
use save_session::Sessions;
use save_stream::{Level, StreamReader};
use std::alloc::{AllocError, Global};

/// The most open sessions.
const MAX_SESSIONS: usize = 64;

/// The most records.
const MAX_RECORDS: usize = 65_536;

/// Checks what a save is asked for, and answers the level that is wanted.
pub(crate) fn begin_checks(
    room: &RoomState,
    m: Moment,
    allowed: Allowed,
    asked: &Asked,
) -> Result<Level, Refusal>
    requires { m.0 ≤ max_moment }
    ensures { AnswersFor (begin_checks allowed m asked.now room.now.room) result }
{
    match field_checks(room.allocator(), allowed, asked) {
        Ok(()) => named_checks(room, m, asked),
        Err(refusal) => Err(refusal),
    }
}

fn field_checks(alloc: Global, allowed: Allowed, asked: &Asked) -> Result<(), Refusal>
    ensures checks { AnswersFor (field_checks allowed asked.now) result }
    ensures level { IfOk result (λ done. is_level asked.now.level asked.now.group ≡ true) }
{
    if !allowed.client {
        return Err(malformed(alloc, "client"));
    }
    if !allowed.set {
        return Err(malformed(alloc, "set"));
    }
    if !allowed.group {
        return Err(malformed(alloc, "group"));
    }
    if !is_level(asked) {
        return Err(malformed(alloc, "level"));
    }
    Ok(())
}

// Goes on behind the checks of the fields.
fn named_checks(room: &RoomState, m: Moment, asked: &Asked) -> Result<Level, Refusal>
    requires moment { m.0 ≤ max_moment }
    requires level { is_level asked.now.level asked.now.group ≡ true }
    ensures { AnswersFor (named_checks m asked.now room.now.room) result }
{
    match there_checks(room, asked) {
        Ok(()) => level_checks(room, m, asked),
        Err(refusal) => Err(refusal),
    }
}

// Whether the client is there, and the group that is given, with the client's set as a member.
fn there_checks(room: &RoomState, asked: &Asked) -> Result<(), Refusal>
    ensures { AnswersFor (there_checks asked.now room.now.room) result }
{
    if room.catalogue().client(asked.client.as_bytes()).is_none() {
        return Err(no_such(room.allocator(), "client", &asked.client));
    }
    match &asked.group {
        Some(name) => group_check(room, asked, name),
        None => Ok(()),
    }
}

fn group_check(room: &RoomState, asked: &Asked, name: &Name) -> Result<(), Refusal>
    ensures { AnswersFor (member_check asked.now name.now (group_of name.now room.now.room)) result }
{
    match room.catalogue().group(name.as_bytes()) {
        Some(group) => member_check(room.allocator(), asked, group),
        None => Err(no_such(room.allocator(), "group", name)),
    }
}

// Whether the group has the client's set.
fn member_check(alloc: Global, asked: &Asked, group: &Group) -> Result<(), Refusal>
    ensures { AnswersFor (in_group asked.now group.now) result }
{
    if has_member(asked, group) {
        return Ok(());
    }
    Err(no_member(alloc, asked))
}

fn has_member(asked: &Asked, group: &Group) -> bool
    ensures { result ≡ has_member asked.now group.now }
{
    group.members.as_slice().iter().any(|member| member.client == asked.client
        && member.set == asked.set)
}

// The client's set is no member.
fn no_member(alloc: Global, asked: &Asked) -> Refusal
    ensures { (result ≡ NoSuch (codes "member") (member_name asked.now)) ⊎ (result ≡ NoMemory) }
{
    match member_name(alloc, asked) {
        Ok(name) => no_such_name(alloc, "member", name),
        Err(Memory) => Refusal::NoMemory,
    }
}

fn member_name(alloc: Global, asked: &Asked) -> Result<Name, Memory>
    ensures { IfOk result (λ name. name ≡ member_name asked.now) }
{
    let client = asked.client.as_str();
    let set = asked.set.as_str();
    match format!(in alloc; "{client}:{set}") {
        Ok(text) => Name::from_text(alloc, text.as_str()),
        Err(AllocError) => Err(Memory),
    }
}

// Nothing of this kind and name is there.
fn no_such(alloc: Global, kind: &str, name: &Name) -> Refusal
    ensures { (result ≡ NoSuch kind.now name.now) ⊎ (result ≡ NoMemory) }
{
    match name.copy() {
        Ok(name) => no_such_name(alloc, kind, name),
        Err(Memory) => Refusal::NoMemory,
    }
}

// Which level is wanted, and whether there is room for the save.
fn level_checks(room: &RoomState, m: Moment, asked: &Asked) -> Result<Level, Refusal>
    requires moment { m.0 ≤ max_moment }
    requires level { is_level asked.now.level asked.now.group ≡ true }
    ensures { result ≡ level_checks m asked.now room.now.room }
{
    match level_check(room, m, asked) {
        Ok(level) => match free_checks(room, asked) {
            Ok(()) => Ok(level),
            Err(refusal) => Err(refusal),
        },
        Err(refusal) => Err(refusal),
    }
}

// Whether no session saves the set, and there is room for one more session and record.
fn free_checks(room: &RoomState, asked: &Asked) -> Result<(), Refusal>
    ensures { result ≡ free_checks asked.now room.now.room }
{
    match busy_with(room.sessions(), asked) {
        Some(ssid) => Err(Refusal::SetBusy { ssid: *ssid }),
        None => count_checks(room),
    }
}

fn count_checks(room: &RoomState) -> Result<(), Refusal>
    ensures { result ≡ count_checks room.now.room }
{
    if room.sessions().ssids().len() >= MAX_SESSIONS {
        return Err(Refusal::SessionsFull {
            limit: MAX_SESSIONS as u64,
        });
    }
    if room.catalogue().db().records().len() >= MAX_RECORDS {
        return Err(Refusal::TooMany {
            limit: MAX_RECORDS as u64,
        });
    }
    Ok(())
}

// The first open session that saves the set.
fn busy_with<'a>(sessions: &'a Sessions, asked: &Asked) -> Option<&'a Ssid>
    ensures { option_copied result ≡ busy_with asked.now sessions.now.sessions }
{
    let ssids = sessions.ssids();
    ssids.iter().find(|ssid| saves(sessions, asked, **ssid))
}

// Whether the session of an ssid saves the set.
fn saves(sessions: &Sessions, asked: &Asked, ssid: Ssid) -> bool
    ensures { result ≡ saves asked.now (find_session ssid.0 sessions.now.sessions) }
{
    if !sessions.is_open(ssid) {
        return false;
    }
    reads_set(sessions.reader(ssid), asked)
}

fn reads_set(reader: &StreamReader, asked: &Asked) -> bool
    ensures { result ≡ saves_head asked.now reader.now.head }
{
    match reader.head() {
        Some(head) => head.client == asked.client && head.set == asked.set,
        None => false,
    }
}
