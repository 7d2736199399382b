//! Tells an operator why the program didn't do its work.

ghost use Rattle.std.specs.Prelude.{◌≡◌, ◌≤◌};
ghost use Rattle.room_base.specs.Outside.{Told, WritesText};
ghost use Rattle.room_run.specs.Report.{usage_line, refusal_line, WritesLine, Reports};
ghost use Rattle.room_run.specs.Report.{ReportsUnlocked, bad_input_line, damaged_line};

use crate::Status;
use itoa::Buffer;
use room_base::{Failed, Refusal, Sink, write_all, write_parts, write_refusal};
use room_disk::{LockFault, Unlocked};

/// Writes the line that tells an operator why the program didn't do its work. Nothing is written
/// for `Done`, and a fault of the sink changes nothing. Takes no memory.
pub fn report<E: Sink>(err: &mut E, status: &Status)
    ensures later { (E.view err.old).faults ≤ (E.view err.new).faults }
    ensures tells { (E.view err.new).tells ≡ (E.view err.old).tells }
    ensures reported { Told (E.view err.old).tells
        (Reports status.now (E.view err.old) (E.view err.new)) }
{
    match status {
        Status::Done => {}
        Status::Usage { word } => report_usage(err, word.as_slice()),
        Status::Memory => write_line(err, b"room: memory\n"),
        Status::ReadFault => write_line(err, b"room: read fault\n"),
        Status::WriteFault => write_line(err, b"room: write fault\n"),
        Status::DiskFault => write_line(err, b"room: disk fault\n"),
        Status::DamagedJournal { file, place } => report_damaged(err, *file, *place),
        Status::BadInput { offset } => report_bad_input(err, *offset),
        Status::ClockFault => write_line(err, b"room: clock fault\n"),
        Status::Refused(refusal) => report_refusal(err, refusal),
        Status::InputLimit => write_line(err, b"room: input limit\n"),
    }
}

/// Tells an operator why the folder wasn't locked, as the system said.
pub fn report_unlocked<E: Sink>(err: &mut E, unlocked: &Unlocked)
    ensures later { (E.view err.old).faults ≤ (E.view err.new).faults }
    ensures tells { (E.view err.new).tells ≡ (E.view err.old).tells }
    ensures reported { Told (E.view err.old).tells
        (ReportsUnlocked unlocked.now.fault (E.view err.old) (E.view err.new)) }
{
    match unlocked.fault() {
        LockFault::InUse => write_line(err, b"room: disk fault\nroom: folder in use\n"),
        LockFault::NoFolder => write_line(err, b"room: disk fault\nroom: no folder\n"),
    }
}

// Writes a line, or a front of it where the sink fails.
fn write_line<E: Sink>(err: &mut E, line: &[u8])
    ensures later { (E.view err.old).faults ≤ (E.view err.new).faults }
    ensures tells { (E.view err.new).tells ≡ (E.view err.old).tells }
    ensures reported { Told (E.view err.old).tells
        (WritesLine line.now (E.view err.old) (E.view err.new)) }
{
    let _ = write_all(err, line);
}

fn report_usage<E: Sink>(err: &mut E, word: &[u8])
    ensures later { (E.view err.old).faults ≤ (E.view err.new).faults }
    ensures tells { (E.view err.new).tells ≡ (E.view err.old).tells }
    ensures reported { Told (E.view err.old).tells
        (WritesLine (usage_line word.now) (E.view err.old) (E.view err.new)) }
{
    let _ = write_parts(err, &[b"room: usage ", word, b"\n"]);
}

fn report_damaged<E: Sink>(err: &mut E, file: u32, place: u64)
    ensures later { (E.view err.old).faults ≤ (E.view err.new).faults }
    ensures tells { (E.view err.new).tells ≡ (E.view err.old).tells }
    ensures reported { Told (E.view err.old).tells
        (WritesLine (damaged_line file place) (E.view err.old) (E.view err.new)) }
{
    let mut file_digits = Buffer::new();
    let mut place_digits = Buffer::new();
    let file = file_digits.format(file).as_bytes();
    let place = place_digits.format(place).as_bytes();
    let _ = write_parts(err, &[b"room: damaged journal ", file, b" ", place, b"\n"]);
}

fn report_bad_input<E: Sink>(err: &mut E, offset: u64)
    ensures later { (E.view err.old).faults ≤ (E.view err.new).faults }
    ensures tells { (E.view err.new).tells ≡ (E.view err.old).tells }
    ensures reported { Told (E.view err.old).tells
        (WritesLine (bad_input_line offset) (E.view err.old) (E.view err.new)) }
{
    let mut digits = Buffer::new();
    let offset = digits.format(offset).as_bytes();
    let _ = write_parts(err, &[b"room: bad input ", offset, b"\n"]);
}

fn report_refusal<E: Sink>(err: &mut E, refusal: &Refusal)
    ensures later { (E.view err.old).faults ≤ (E.view err.new).faults }
    ensures tells { (E.view err.new).tells ≡ (E.view err.old).tells }
    ensures reported { Told (E.view err.old).tells
        (WritesLine (refusal_line refusal.now) (E.view err.old) (E.view err.new)) }
{
    let _ = write_refusal_line(err, refusal);
}

fn write_refusal_line<E: Sink>(err: &mut E, refusal: &Refusal) -> Result<(), Failed>
    ensures { WritesText (refusal_line refusal.now) (E.view err.old) (E.view err.new) result }
{
    write_parts(err, &[b"room: refused "])?;
    write_refusal(err, refusal)?;
    write_parts(err, &[b"\n"])
}
