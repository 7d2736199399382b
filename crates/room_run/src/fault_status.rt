//! The statuses of faults. A refusal has texts; where memory is too short for them, that is the
//! status.

ghost use Rattle.std.specs.Prelude.{◌≡◌};
ghost use Rattle.room_run.specs.Stages.{IsOrMemory, bad_label_refusal, input_status, site_status};
ghost use Rattle.room_run.specs.Stages.{file_status};
ghost use Rattle.room_run.specs.declared.get.FileFault.TheVariants as file_faults;
ghost use Rattle.room_run.specs.declared.site.SiteFault.TheVariants as site_faults;

use crate::Status;
use crate::get::FileFault;
use crate::input::InputFault;
use crate::raw::MAX_FILE_SIZE;
use crate::site::SiteFault;
use itoa::Buffer;
use room_base::{Cart, Memory, Name, Refusal, Volid};
use std::alloc::Global;

/// The status of a `put` whose input isn't taken.
pub fn input_status_of(alloc: Global, fault: InputFault) -> Status
    ensures { IsOrMemory (input_status fault) result }
{
    match fault {
        InputFault::Memory => Status::Memory,
        InputFault::Failed => Status::ReadFault,
        InputFault::Empty => match Name::from_text(alloc, "input") {
            Ok(field) => Status::Refused(Refusal::Malformed { field }),
            Err(Memory) => Status::Memory,
        },
        InputFault::TooLong => Status::Refused(Refusal::TooMany {
            limit: MAX_FILE_SIZE as u64,
        }),
    }
}

/// The status of a `put` whose file has no place.
pub fn site_status_of(alloc: Global, cart: Cart, fault: SiteFault) -> Status
    ensures { IsOrMemory (site_status cart.0 fault) result }
{
    match fault {
        SiteFault::DiskFailed => Status::DiskFault,
        SiteFault::ClockFailed => Status::ClockFault,
        SiteFault::BadLabel => Status::Refused(bad_label()),
        SiteFault::Damaged { volid, block } => {
            Status::Refused(Refusal::DamagedBlock { volid, block })
        }
        SiteFault::Occupied => occupied(alloc, cart),
        SiteFault::Full => match Name::from_text(alloc, "Raw") {
            Ok(pool) => Status::Refused(Refusal::NeedVolume { pool }),
            Err(Memory) => Status::Memory,
        },
    }
}

// The cartridge has a label that isn't raw.
fn occupied(alloc: Global, cart: Cart) -> Status
    ensures { IsOrMemory (site_status cart.0 site_faults.Occupied) result }
{
    let mut digits = Buffer::new();
    let kind = Name::from_text(alloc, "cart");
    let name = Name::from_text(alloc, digits.format(cart.0));
    match (kind, name) {
        (Ok(kind), Ok(name)) => Status::Refused(Refusal::Exists { kind, name }),
        _ => Status::Memory,
    }
}

// The label isn't valid: it is block 0, and nobody knows its volume.
fn bad_label() -> Refusal
    ensures { result ≡ bad_label_refusal }
{
    Refusal::DamagedBlock {
        volid: Volid(0),
        block: 0,
    }
}

/// The status of a `get` whose file isn't read.
pub fn file_status_of(alloc: Global, cart: Cart, number: u64, fault: FileFault) -> Status
    ensures { IsOrMemory (file_status cart number fault) result }
{
    match fault {
        FileFault::Memory => Status::Memory,
        FileFault::Failed => Status::DiskFault,
        FileFault::Unlabelled => Status::Refused(Refusal::Unlabelled { cart }),
        FileFault::BadLabel => Status::Refused(bad_label()),
        FileFault::Damaged { volid, block } => {
            Status::Refused(Refusal::DamagedBlock { volid, block })
        }
        FileFault::Strange { volid } => Status::Refused(Refusal::Strange { volid }),
        FileFault::NoFile => no_file(alloc, cart, number),
    }
}

// The cartridge has no file with this number.
fn no_file(alloc: Global, cart: Cart, number: u64) -> Status
    ensures { IsOrMemory (file_status cart number file_faults.NoFile) result }
{
    let mut digits = Buffer::new();
    let kind = Name::from_text(alloc, "file");
    let name = Name::from_text(alloc, digits.format(number));
    match (kind, name) {
        (Ok(kind), Ok(name)) => Status::Refused(Refusal::NoSuch { kind, name }),
        _ => Status::Memory,
    }
}
