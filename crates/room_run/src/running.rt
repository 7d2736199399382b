ghost use Rattle.std.specs.Prelude.{◌≤◌, map, string_bytes};
ghost use Rattle.room_base.specs.Outside.{Told};
ghost use Rattle.room_run.specs.Report.{Reports};
ghost use Rattle.room_run.specs.Run.{world, Ends};

use crate::Status;
use crate::get::get;
use crate::put::put;
use crate::reporting::report;
use crate::serving::serve_desk;
use crate::words::{Command, read_words};
use room_base::{Clock, Sink, Source};
use room_disk::Store;
use std::alloc::Global;

/// Does what the words ask, which are those behind the folder. A line on `err` names each status
/// but `Done`.
pub fn run<S: Source, W: Sink, E: Sink, D: Store, C: Clock>(
    alloc: Global,
    words: &[String],
    input: &mut S,
    out: &mut W,
    err: &mut E,
    disk: &mut D,
    clock: &mut C,
) -> Status
    ensures ends { Ends (map string_bytes words.now)
        (world (S.view input.old) (W.view out.old) (D.view disk.old) (C.view clock.old))
        (world (S.view input.new) (W.view out.new) (D.view disk.new) (C.view clock.new))
        result }
    ensures err_later { (E.view err.old).faults ≤ (E.view err.new).faults }
    ensures reported { Told (E.view err.old).tells
        (Reports result (E.view err.old) (E.view err.new)) }
{
    let status = obey(alloc, words, input, out, disk, clock);
    report(err, &status);
    status
}

// Reads the words, and does what they ask.
fn obey<S: Source, W: Sink, D: Store, C: Clock>(
    alloc: Global,
    words: &[String],
    input: &mut S,
    out: &mut W,
    disk: &mut D,
    clock: &mut C,
) -> Status
    ensures { Ends (map string_bytes words.now)
        (world (S.view input.old) (W.view out.old) (D.view disk.old) (C.view clock.old))
        (world (S.view input.new) (W.view out.new) (D.view disk.new) (C.view clock.new))
        result }
{
    match read_words(alloc, words) {
        Ok(Command::Put { cart }) => put(alloc, cart, input, out, disk, clock),
        Ok(Command::Get { cart, number }) => get(alloc, cart, number, out, disk),
        Ok(Command::Desk) => serve_desk(alloc, input, out, disk, clock),
        Err(status) => status,
    }
}
