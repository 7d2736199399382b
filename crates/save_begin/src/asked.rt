//! What a save is asked for, and which of its fields are allowed.

ghost use Rattle.std.specs.Prelude.{◌≡◌};
ghost use Rattle.save_stream.specs.Spelling.{IsNameTo};
ghost use Rattle.save_begin.specs.Asking.{AreAllowed, IsClientAsked, IsGroupAsked, Tells, is_level};

use room_base::{Name, name_text};
use room_rules::Action;

/// The client of the room's own saves.
const ROOM_CLIENT: &str = "room";

/// The most bytes of the name of a client or a group, and of a set.
const MAX_NAME: usize = 64;

const MAX_SET: usize = 255;

/// The action that skips a day.
const SKIP: u8 = 11;

/// What a save is asked for.
#[derive(Drop)]
pub struct Asked {
    pub client: Name,
    pub set: Name,
    pub group: Option<Name>,
    pub level: Option<Action>,
}

/// Which of its names are allowed.
#[derive(Clone, Copy)]
pub struct Allowed {
    pub client: bool,
    pub set: bool,
    pub group: bool,
}

pub(crate) fn allowed_names(asked: &Asked) -> Allowed
    ensures { AreAllowed result asked.now }
{
    Allowed {
        client: is_client(&asked.client),
        set: is_name(&asked.set, MAX_SET),
        group: is_group(&asked.group),
    }
}

fn is_client(client: &Name) -> bool
    ensures { Tells result (IsClientAsked client.now) }
{
    is_name(client, MAX_NAME) && client.as_str() != ROOM_CLIENT
}

fn is_group(group: &Option<Name>) -> bool
    ensures { Tells result (IsGroupAsked group.now) }
{
    match group {
        Some(name) => is_name(name, MAX_NAME),
        None => true,
    }
}

// Whether it is a name of at most so many bytes.
fn is_name(name: &Name, most: usize) -> bool
    ensures { Tells result (IsNameTo most name.now) }
{
    let bytes = name.as_bytes();
    !bytes.is_empty() && bytes.len() <= most && name_text(bytes).is_some()
}

/// Whether a level that saves is given, or a group.
pub(crate) fn is_level(asked: &Asked) -> bool
    ensures { result ≡ is_level asked.now.level asked.now.group }
{
    match asked.level {
        Some(level) => level.byte() != SKIP,
        None => asked.group.is_some(),
    }
}
