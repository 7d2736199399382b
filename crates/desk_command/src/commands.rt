//! The command of each line of the table of routes that takes parts of the target or fields of the
//! body.

ghost use Rattle.std.specs.Prelude.{◌≡◌};
ghost use Rattle.desk_command.specs.Commands.{amend_of, append_place, begin_of, drop_of, eject_of};
ghost use Rattle.desk_command.specs.Commands.{finish_of, label_of, load_of, mount_of, of_set};
ghost use Rattle.desk_command.specs.Commands.{savegrp_of, unmount_of};
ghost use Rattle.desk_command.specs.Outcomes.{Answers};
ghost use Rattle.room_command.specs.declared.command.Command.TheVariants.{Abort, Delete, Show};

use crate::body::{
    MAX_NAME, MAX_SET_NAME, digest_at, name_at, object_of, optional_action, optional_bool,
    optional_name, optional_u32, optional_u64, u8_at, u32_at, u64_at,
};
use crate::part::{name_part, ssid_part, u8_part, u64_part};
use room_base::{Cart, Refusal, Ssid};
use room_command::{Command, ResourceKind};
use std::alloc::Global;

pub(crate) fn drop_of(alloc: Global, kind: ResourceKind, name: &str) -> Result<Command, Refusal>
    ensures { Answers (drop_of kind name.now) result }
{
    let name = name_part(alloc, "name", name)?;
    Ok(Command::Drop { kind, name })
}

pub(crate) fn load_of(alloc: Global, slot: &str, body: &[u8]) -> Result<Command, Refusal>
    ensures { Answers (load_of slot.now body.now) result }
{
    let slot = u8_part(alloc, "slot", slot)?;
    let object = object_of(alloc, body)?;
    let cart = u32_at(alloc, &object, "cart")?;
    Ok(Command::Load {
        slot,
        cart: Cart(cart),
    })
}

pub(crate) fn eject_of(alloc: Global, slot: &str) -> Result<Command, Refusal>
    ensures { Answers (eject_of slot.now) result }
{
    let slot = u8_part(alloc, "slot", slot)?;
    Ok(Command::Eject { slot })
}

pub(crate) fn label_of(alloc: Global, body: &[u8]) -> Result<Command, Refusal>
    ensures { Answers (label_of body.now) result }
{
    let object = object_of(alloc, body)?;
    let slot = u8_at(alloc, &object, "slot")?;
    let pool = name_at(alloc, &object, "pool", MAX_NAME)?;
    let capacity = u32_at(alloc, &object, "capacity")?;
    let block = optional_u32(alloc, &object, "block")?;
    Ok(Command::Label {
        slot,
        pool,
        capacity,
        block,
    })
}

pub(crate) fn mount_of(alloc: Global, body: &[u8]) -> Result<Command, Refusal>
    ensures { Answers (mount_of body.now) result }
{
    let object = object_of(alloc, body)?;
    let slot = u8_at(alloc, &object, "slot")?;
    let drive = u8_at(alloc, &object, "drive")?;
    Ok(Command::Mount { slot, drive })
}

pub(crate) fn unmount_of(alloc: Global, body: &[u8]) -> Result<Command, Refusal>
    ensures { Answers (unmount_of body.now) result }
{
    let object = object_of(alloc, body)?;
    let drive = u8_at(alloc, &object, "drive")?;
    Ok(Command::Unmount { drive })
}

pub(crate) fn savegrp_of(alloc: Global, group: &str) -> Result<Command, Refusal>
    ensures { Answers (savegrp_of group.now) result }
{
    let group = name_part(alloc, "group", group)?;
    Ok(Command::Savegrp { group })
}

pub(crate) fn begin_of(alloc: Global, body: &[u8]) -> Result<Command, Refusal>
    ensures { Answers (begin_of body.now) result }
{
    let object = object_of(alloc, body)?;
    let client = name_at(alloc, &object, "client", MAX_NAME)?;
    let set = name_at(alloc, &object, "set", MAX_SET_NAME)?;
    let group = optional_name(alloc, &object, "group", MAX_NAME)?;
    let level = optional_action(alloc, &object, "level")?;
    Ok(Command::Begin {
        client,
        set,
        group,
        level,
    })
}

/// The save set and the offset of a piece.
pub(crate) fn append_place(alloc: Global, ssid: &str, offset: &str) -> Result<(Ssid, u64), Refusal>
    ensures { Answers (append_place ssid.now offset.now) result }
{
    let ssid = ssid_part(alloc, ssid)?;
    let offset = u64_part(alloc, "offset", offset)?;
    Ok((ssid, offset))
}

pub(crate) fn finish_of(alloc: Global, ssid: &str, body: &[u8]) -> Result<Command, Refusal>
    ensures { Answers (finish_of ssid.now body.now) result }
{
    let ssid = ssid_part(alloc, ssid)?;
    let object = object_of(alloc, body)?;
    let length = u64_at(alloc, &object, "length")?;
    let sha256 = digest_at(alloc, &object, "sha256")?;
    Ok(Command::Finish {
        ssid,
        length,
        sha256,
    })
}

pub(crate) fn amend_of(alloc: Global, ssid: &str, body: &[u8]) -> Result<Command, Refusal>
    ensures { Answers (amend_of ssid.now body.now) result }
{
    let ssid = ssid_part(alloc, ssid)?;
    let object = object_of(alloc, body)?;
    let browse = optional_u64(alloc, &object, "browse")?;
    let retain = optional_u64(alloc, &object, "retain")?;
    let hold = optional_bool(alloc, &object, "hold")?;
    Ok(Command::Amend {
        ssid,
        browse,
        retain,
        hold,
    })
}

pub(crate) fn abort_of(alloc: Global, ssid: &str) -> Result<Command, Refusal>
    ensures { Answers (of_set Abort ssid.now) result }
{
    let ssid = ssid_part(alloc, ssid)?;
    Ok(Command::Abort { ssid })
}

pub(crate) fn delete_of(alloc: Global, ssid: &str) -> Result<Command, Refusal>
    ensures { Answers (of_set Delete ssid.now) result }
{
    let ssid = ssid_part(alloc, ssid)?;
    Ok(Command::Delete { ssid })
}

pub(crate) fn show_of(alloc: Global, ssid: &str) -> Result<Command, Refusal>
    ensures { Answers (of_set Show ssid.now) result }
{
    let ssid = ssid_part(alloc, ssid)?;
    Ok(Command::Show { ssid })
}
