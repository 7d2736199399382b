//! One request and its reply.

ghost use Rattle.std.specs.Prelude.{◌≡◌, ◌≤◌, ◌⊎◌, IsTrue, MatchResult};
ghost use Rattle.room_base.specs.Faults.{Rose};
ghost use Rattle.room_base.specs.Outside.{Told};
ghost use Rattle.desk_reply.specs.Replies.{reply_bytes};
ghost use Rattle.desk.specs.Steps.{IsCalled, IsRefused, Sends};
ghost use Rattle.desk.specs.Taken.{AsksCommand};

use crate::DeskEnd;
use desk_command::{Routes, command_of};
use desk_reply::reply_text;
use desk_request::Request;
use room_base::{Clock, Failed, Sink, write_all};
use room_command::Reply;
use room_core::Room;
use room_disk::Store;
use std::alloc::Global;

/// Answers a request: what it asks for is done at the moment that the clock tells. Where it asks
/// for no command the clock isn't asked, and neither is the room.
pub(crate) fn answer<D: Store, C: Clock>(
    alloc: Global,
    routes: &Routes,
    room: &mut Room,
    disk: &mut D,
    clock: &mut C,
    request: Request,
) -> Result<Reply, Failed>
    requires { IsTrue room.old.is_open }
    ensures answers { MatchResult result
        (λ reply. (IsRefused request reply × (room.new ≡ room.old) × (disk.new ≡ disk.old)
        × (clock.new ≡ clock.old))
        ⊎ IsCalled request reply room.old room.new (D.view disk.old) (D.view disk.new)
        (C.view clock.old) (C.view clock.new))
        (λ failed. (room.new ≡ room.old) × (disk.new ≡ disk.old) × AsksCommand request
        × Rose (C.view clock.old).faults (C.view clock.new).faults
        × Told (C.view clock.old).tells
        ((C.view clock.new).moments ≡ (C.view clock.old).moments)) }
    ensures later { (C.view clock.old).faults ≤ (C.view clock.new).faults }
    ensures tells { (C.view clock.new).tells ≡ (C.view clock.old).tells }
{
    let command = match command_of(alloc, routes, request) {
        Ok(command) => command,
        Err(refusal) => return Ok(Reply::Refused(refusal)),
    };
    match clock.now() {
        Ok(moment) => Ok(room.call(disk, moment, command)),
        Err(failed) => Err(failed),
    }
}

/// Writes a reply, as one text.
pub(crate) fn send<W: Sink>(alloc: Global, out: &mut W, reply: &Reply) -> Result<(), DeskEnd>
    ensures sends { Sends (reply_bytes reply.now) (W.view out.old) (W.view out.new) result }
    ensures later { (W.view out.old).faults ≤ (W.view out.new).faults }
    ensures tells { (W.view out.new).tells ≡ (W.view out.old).tells }
{
    let text = match reply_text(alloc, reply) {
        Ok(text) => text,
        Err(_) => return Err(DeskEnd::Memory),
    };
    match write_all(out, text.as_slice()) {
        Ok(()) => Ok(()),
        Err(_) => Err(DeskEnd::WriteFault),
    }
}
