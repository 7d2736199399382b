//! The room of a desk, opened and opened again.

ghost use Rattle.std.specs.Prelude.{◌≡◌, false, IfErr, IfOk, IsOk, IsTrue};
ghost use Rattle.room_core.specs.Opening.{IsOpenedBy};
ghost use Rattle.desk.specs.Runs.{FailsToOpen};
ghost use Rattle.desk.specs.Steps.{OpensQuietly, Reopens, end_of};

use crate::DeskEnd;
use room_core::{ReplayFault, Room};
use room_disk::Store;
use std::alloc::Global;

/// Opens the room of a disk.
pub(crate) fn open<D: Store>(alloc: Global, disk: &mut D) -> Result<Room, DeskEnd>
    ensures opened { IfOk result (λ room. IsOpenedBy room (D.view disk.old) (D.view disk.new)) }
    ensures fails { IfErr result (λ end. FailsToOpen end (D.view disk.old) (D.view disk.new)) }
    ensures quiet { OpensQuietly (D.view disk.old) (D.view disk.new) }
{
    match Room::open(alloc, disk) {
        Ok(room) => Ok(room),
        Err(fault) => Err(end_of(fault)),
    }
}

/// Opens the room again, where a fault of the journal has closed it.
pub(crate) fn reopen<D: Store>(alloc: Global, room: &mut Room, disk: &mut D) -> Result<(), DeskEnd>
    ensures stays { IsTrue room.old.is_open
        → IsOk result × (room.new ≡ room.old) × (disk.new ≡ disk.old) }
    ensures reopens { room.old.is_open ≡ false
        → Reopens room.old room.new (D.view disk.old) (D.view disk.new) result
        × OpensQuietly (D.view disk.old) (D.view disk.new) }
{
    if room.is_open() {
        return Ok(());
    }
    match room.reopen(alloc, disk) {
        Ok(()) => Ok(()),
        Err(fault) => Err(end_of(fault)),
    }
}

// What a fault of the opening is to the desk.
fn end_of(fault: ReplayFault) -> DeskEnd
    ensures { result ≡ end_of fault }
{
    match fault {
        ReplayFault::Damaged { file, place } => DeskEnd::DamagedJournal { file, place },
        ReplayFault::Failed { .. } => DeskEnd::DiskFault,
        ReplayFault::Memory => DeskEnd::Memory,
    }
}
