//! Requests, one after the other.

ghost use Rattle.std.specs.Prelude.{◌≡◌, IsTrue};
ghost use Rattle.room_effects.specs.View.{IsRoom};
ghost use Rattle.desk.specs.Runs.{DeskRuns, Serves, around};

use crate::DeskEnd;
use crate::answering::{answer, send};
use crate::intake::{INPUT_LIMIT, Intake, read_next};
use crate::opening::{open, reopen};
use desk_command::Routes;
use room_base::{Clock, Sink, Source};
use room_core::Room;
use room_disk::Store;
use std::alloc::Global;

/// Opens the room of the disk, and answers the requests of the input, one after the other. Each
/// reply is written whole before the next request is read. Behind a fault of the journal the room is
/// opened again.
pub fn desk<S: Source, W: Sink, D: Store, C: Clock>(
    alloc: Global,
    input: &mut S,
    out: &mut W,
    disk: &mut D,
    clock: &mut C,
) -> DeskEnd
    ensures { DeskRuns result
        (around (S.view input.old) (W.view out.old) (C.view clock.old) (D.view disk.old))
        (around (S.view input.new) (W.view out.new) (C.view clock.new) (D.view disk.new)) }
{
    match Routes::new(alloc) {
        Ok(routes) => serve_disk(alloc, &routes, input, out, disk, clock),
        Err(_) => DeskEnd::Memory,
    }
}

// Opens the room of the disk, and answers the requests of the input in it.
fn serve_disk<S: Source, W: Sink, D: Store, C: Clock>(
    alloc: Global,
    routes: &Routes,
    input: &mut S,
    out: &mut W,
    disk: &mut D,
    clock: &mut C,
) -> DeskEnd
    ensures { DeskRuns result
        (around (S.view input.old) (W.view out.old) (C.view clock.old) (D.view disk.old))
        (around (S.view input.new) (W.view out.new) (C.view clock.new) (D.view disk.new)) }
{
    match open(alloc, disk) {
        Ok(mut room) => serve(alloc, routes, &mut room, input, out, disk, clock),
        Err(end) => end,
    }
}

// Answers the requests of the input in this room.
fn serve<S: Source, W: Sink, D: Store, C: Clock>(
    alloc: Global,
    routes: &Routes,
    room: &mut Room,
    input: &mut S,
    out: &mut W,
    disk: &mut D,
    clock: &mut C,
) -> DeskEnd
    requires room { IsRoom room.old }
    requires opens { IsTrue room.old.is_open }
    ensures { Serves result room.old room.new
        (around (S.view input.old) (W.view out.old) (C.view clock.old) (D.view disk.old))
        (around (S.view input.new) (W.view out.new) (C.view clock.new) (D.view disk.new)) }
{
    let mut intake = Intake::new(alloc);
    'requests: for _ in 0..INPUT_LIMIT {
        let request = match read_next(alloc, input, &mut intake) {
            Ok(request) => request,
            Err(end) => return end,
        };
        let reply = match answer(alloc, routes, room, disk, clock, request) {
            Ok(reply) => reply,
            Err(_) => return DeskEnd::ClockFault,
        };
        match send(alloc, out, &reply) {
            Ok(()) => {}
            Err(end) => return end,
        }
        match reopen(alloc, room, disk) {
            Ok(()) => {}
            Err(end) => return end,
        }
    }
    DeskEnd::InputLimit
}
