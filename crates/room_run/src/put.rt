ghost use Rattle.std.specs.Prelude.{◌≡◌, IfOk, string_bytes};
ghost use Rattle.volume_store.specs.Writes.{IsCart};
ghost use Rattle.room_run.specs.Put.{kept_line};
ghost use Rattle.room_run.specs.Run.{world, Later, PutEnds};

use crate::Status;
use crate::fault_status::{input_status_of, site_status_of};
use crate::input::take_input;
use crate::site::find_site;
use crate::store::{StoreFault, store_file};
use room_base::{Cart, Clock, Sink, Source, write_all};
use room_disk::Store;
use std::alloc::{AllocError, Global};

/// The input becomes the next file of the cartridge, and a line on `out` says so.
pub fn put<S: Source, W: Sink, D: Store, C: Clock>(
    alloc: Global,
    cart: Cart,
    input: &mut S,
    out: &mut W,
    disk: &mut D,
    clock: &mut C,
) -> Status
    requires { IsCart cart.0 }
    ensures later { Later
        (world (S.view input.old) (W.view out.old) (D.view disk.old) (C.view clock.old))
        (world (S.view input.new) (W.view out.new) (D.view disk.new) (C.view clock.new)) }
    ensures ends { PutEnds cart.0
        (world (S.view input.old) (W.view out.old) (D.view disk.old) (C.view clock.old))
        (world (S.view input.new) (W.view out.new) (D.view disk.new) (C.view clock.new))
        result }
{
    let bytes = match take_input(alloc, input) {
        Ok(bytes) => bytes,
        Err(fault) => return input_status_of(alloc, fault),
    };
    let site = match find_site(cart, bytes.len(), disk, clock) {
        Ok(site) => site,
        Err(fault) => return site_status_of(alloc, cart, fault),
    };
    let Ok(line) = kept_line_text(alloc, bytes.len(), site.number(), cart) else {
        return Status::Memory;
    };
    match store_file(alloc, cart, &site, &bytes, disk) {
        Ok(()) => {}
        Err(StoreFault::Memory) => return Status::Memory,
        Err(StoreFault::Failed) => return Status::DiskFault,
    }
    match write_all(out, line.as_bytes()) {
        Ok(()) => Status::Done,
        Err(_) => Status::WriteFault,
    }
}

// The line that says what was kept.
fn kept_line_text(alloc: Global, size: usize, number: u64, cart: Cart) -> Result<String, AllocError>
    ensures { IfOk result (λ line. string_bytes line ≡ kept_line size number cart.0) }
{
    format!(in alloc; "kept {size} bytes as file {number} of cart {}\n", cart.0)
}
