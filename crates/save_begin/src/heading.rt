//! The head of a save that begins.

ghost use Rattle.std.specs.Prelude.{◌≡◌, [], length, max, option_copied, IfOk};
ghost use Rattle.save_stream.specs.Heads.{head_of_parts};
ghost use Rattle.save_stream.specs.Spelling.{head_text};
ghost use Rattle.save_begin.specs.Fitting.{HasShortNames};
ghost use Rattle.save_begin.specs.Heading.{IsHeadFor, IsPoolFor, browse_until, group_or_none};
ghost use Rattle.save_begin.specs.Heading.{retain_until, save_of, until};

use crate::asked::Asked;
use catalog_change::Client;
use room_base::{Memory, Moment, Name};
use room_rules::{Policy, pool_of, until};
use room_state::RoomState;
use save_stream::{HeadParts, Level, SetHead};
use sched_levels::base_for;

/// The bytes of a head beside those of its texts.
const HEAD_SIZE: usize = 46;

/// The head of a save for which this level is wanted. `group` is empty where none is given.
pub(crate) fn head_for<'a>(
    room: &'a RoomState,
    m: Moment,
    asked: &'a Asked,
    group: &'a Name,
    wanted: Level,
) -> HeadParts<'a>
    requires { group.now ≡ group_or_none asked.now.group }
    ensures { IsHeadFor m asked.now wanted room.now.room (head_of_parts result) }
{
    let catalogue = room.catalogue();
    let (rank, base) = base_for(catalogue.db(), &asked.client, &asked.set, wanted);
    let client = catalogue.client(asked.client.as_bytes());
    HeadParts {
        ssid: catalogue.next_ssid(),
        base,
        level: rank,
        saved: m,
        browse: browse_until(room, m, client),
        retain: retain_until(room, m, client),
        client: &asked.client,
        set: &asked.set,
        group,
        pool: pool_for(room, asked, group, rank),
    }
}

/// The group that is given, or else the empty name.
pub(crate) fn group_or<'a>(asked: &'a Asked, none: &'a Name) -> &'a Name
    requires { none.now ≡ [] }
    ensures { result.now ≡ group_or_none asked.now.group }
{
    match &asked.group {
        Some(group) => group,
        None => none,
    }
}

// The name of the pool that the save goes to.
fn pool_for<'a>(room: &'a RoomState, asked: &Asked, group: &Name, level: Level) -> &'a Name
    requires { group.now ≡ group_or_none asked.now.group }
    ensures { IsPoolFor (save_of asked.now level) room.now.room.catalogue.resources.pools
        result.now }
{
    let catalogue = room.catalogue();
    let _held = catalogue.number();
    let pools = catalogue.pools();
    let place = pool_of(
        pools,
        group.as_bytes(),
        asked.client.as_bytes(),
        asked.set.as_bytes(),
        level,
    );
    &pools[place as usize].name
}

// Until when the files of a save of the client can be browsed.
fn browse_until(room: &RoomState, m: Moment, client: Option<&Client>) -> Moment
    ensures { result.0 ≡ browse_until m room.now.room (option_copied client.entry) }
{
    match client {
        Some(client) => kept_until(m, room.catalogue().policy(client.browse.as_bytes())),
        None => m,
    }
}

// Until when a save of the client is kept.
fn retain_until(room: &RoomState, m: Moment, client: Option<&Client>) -> Moment
    ensures { result.0 ≡ retain_until m room.now.room (option_copied client.entry) }
{
    match client {
        Some(client) => later(
            kept_until(m, room.catalogue().policy(client.retention.as_bytes())),
            kept_until(m, room.catalogue().policy(client.browse.as_bytes())),
        ),
        None => m,
    }
}

fn later(one: Moment, other: Moment) -> Moment
    ensures { result.0 ≡ max one.0 other.0 }
{
    Moment(one.0.max(other.0))
}

fn kept_until(m: Moment, policy: Option<&Policy>) -> Moment
    ensures { result.0 ≡ until m (option_copied policy.entry) }
{
    match policy {
        Some(policy) => until(m, policy),
        None => m,
    }
}

/// How many bytes the spelling of the head has.
pub(crate) fn head_size(parts: &HeadParts) -> u64
    requires { HasShortNames (head_of_parts parts.now) }
    ensures { result ≡ length (head_text (head_of_parts parts.now)) }
{
    let client = parts.client.as_bytes().len();
    let set = parts.set.as_bytes().len();
    let group = parts.group.as_bytes().len();
    let pool = parts.pool.as_bytes().len();
    (HEAD_SIZE + client + set + group + pool) as u64
}

/// The head of these parts.
pub(crate) fn head_of(parts: &HeadParts) -> Result<SetHead, Memory>
    ensures { IfOk result (λ head. head ≡ head_of_parts parts.now) }
{
    Ok(SetHead {
        ssid: parts.ssid,
        base: parts.base,
        level: parts.level,
        saved: parts.saved,
        browse: parts.browse,
        retain: parts.retain,
        client: parts.client.copy()?,
        set: parts.set.copy()?,
        group: parts.group.copy()?,
        pool: parts.pool.copy()?,
    })
}
