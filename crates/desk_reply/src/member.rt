//! The members of an object, and the writing of one.

ghost use Rattle.std.specs.Prelude.{map};
ghost use Rattle.hex.specs.Hex.{encode_lower};
ghost use Rattle.json.specs.Json.{string};
ghost use Rattle.json.specs.Tree.{json_tokens};
ghost use Rattle.desk_reply.specs.Members.{value_json, member_of};
ghost use Rattle.desk_reply.specs.Values.{json_object};
ghost use Rattle.desk_reply.specs.Writing.{Adds, member_tokens, list_tokens};

use crate::shown::write_list;
use json::Writer;
use room_base::Ssid;
use std::alloc::AllocError;

/// What a member says.
#[derive(Clone, Copy)]
pub(crate) enum Value<'a> {
    Number(u64),
    Text(&'a str),
    Flag(bool),
    Digest(&'a [u8; 32]),
    Ssids(&'a [Ssid]),
}

/// A key, and what it says.
#[derive(Clone, Copy)]
pub(crate) struct Member<'a>(pub &'static str, pub Value<'a>);

/// The object of these members.
pub(crate) fn write_object(out: &mut Writer, members: &[Member<'_>]) -> Result<(), AllocError>
    ensures { Adds result out.old out.new (json_tokens (json_object (map member_of members.now))) }
{
    out.begin_object()?;
    put_members(out, members)?;
    out.end_object()
}

/// The members alone, one behind the other.
pub(crate) fn put_members(out: &mut Writer, members: &[Member<'_>]) -> Result<(), AllocError>
    ensures { Adds result out.old out.new (list_tokens (map member_of members.now)) }
{
    for member in members {
        out.key(member.0)?;
        write_value(out, &member.1)?;
    }
    Ok(())
}

fn write_value(out: &mut Writer, value: &Value<'_>) -> Result<(), AllocError>
    ensures { Adds result out.old out.new (json_tokens (value_json value.now)) }
{
    match value {
        Value::Number(number) => out.u64(*number),
        Value::Text(text) => out.string(text),
        Value::Flag(flag) => out.boolean(*flag),
        Value::Digest(digest) => write_digest(out, digest),
        Value::Ssids(ssids) => write_list(out, ssids),
    }
}

// In hexadecimal digits.
#[tactic(auto, using(crate::proofs::Digits::digits_are_text))]
fn write_digest(out: &mut Writer, digest: &[u8; 32]) -> Result<(), AllocError>
    ensures { Adds result out.old out.new (json_tokens (string (encode_lower digest.now))) }
{
    let mut digits = [0; 64];
    let _ = hex::encode_to_slice(digest, &mut digits);
    match str::from_utf8(&digits) {
        Ok(text) => out.string(text),
        Err(_) => unreachable!(),
    }
}
