//! The command that answers requests.

ghost use Rattle.std.specs.Prelude.{◌≡◌};
ghost use Rattle.room_run.specs.Desk.{desk_status};
ghost use Rattle.room_run.specs.Run.{world, DeskEnds};

use crate::Status;
use desk::{DeskEnd, desk};
use room_base::{Clock, Sink, Source};
use room_disk::Store;
use std::alloc::Global;

/// Answers the requests of the input, one after the other, until it ends.
pub fn serve_desk<S: Source, W: Sink, D: Store, C: Clock>(
    alloc: Global,
    input: &mut S,
    out: &mut W,
    disk: &mut D,
    clock: &mut C,
) -> Status
    ensures { DeskEnds
        (world (S.view input.old) (W.view out.old) (D.view disk.old) (C.view clock.old))
        (world (S.view input.new) (W.view out.new) (D.view disk.new) (C.view clock.new))
        result }
{
    status_of(desk(alloc, input, out, disk, clock))
}

fn status_of(end: DeskEnd) -> Status
    ensures { result ≡ desk_status end }
{
    match end {
        DeskEnd::Done => Status::Done,
        DeskEnd::Memory => Status::Memory,
        DeskEnd::ReadFault => Status::ReadFault,
        DeskEnd::WriteFault => Status::WriteFault,
        DeskEnd::DiskFault => Status::DiskFault,
        DeskEnd::DamagedJournal { file, place } => Status::DamagedJournal { file, place },
        DeskEnd::BadInput { offset } => Status::BadInput { offset },
        DeskEnd::ClockFault => Status::ClockFault,
        DeskEnd::InputLimit => Status::InputLimit,
    }
}
