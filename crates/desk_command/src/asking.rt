//! The command that a request asks for.

ghost use Rattle.std.specs.Prelude.{◌≡◌, ◌⊎◌, IfOk};
ghost use Rattle.room_base.specs.declared.refusal.Refusal.TheVariants.{NoMemory};
ghost use Rattle.desk_command.specs.Commands.{AnswersRequest, name_of_target, no_route};

use crate::commands::{
    abort_of, amend_of, append_place, begin_of, delete_of, drop_of, eject_of, finish_of, label_of,
    load_of, mount_of, savegrp_of, show_of, unmount_of,
};
use crate::place::Routes;
use crate::route::{Route, route_of};
use desk_request::Request;
use room_base::{Items, Memory, Name, NameFault, Refusal};
use room_command::Command;
use std::alloc::Global;

/// The most bytes of a target that is named in a refusal.
const MAX_TARGET: u32 = 8_192;

#[tactic(auto, using(crate::proofs::Answering::asked, crate::proofs::Answering::not_asked))]
/// The command that a request asks for. Its body is moved, not copied, into a command that takes it
/// as it is.
pub fn command_of(alloc: Global, routes: &Routes, request: Request) -> Result<Command, Refusal>
    ensures { AnswersRequest request result }
{
    let Some(route) = route_of(routes, request.method(), request.target()) else {
        return Err(no_route(alloc, request.target()));
    };
    match route {
        Route::Define => Ok(Command::Define {
            text: Items::of(request.into_body()),
        }),
        Route::Drop { kind, name } => drop_of(alloc, kind, name),
        Route::Load { slot } => load_of(alloc, slot, request.body()),
        Route::Eject { slot } => eject_of(alloc, slot),
        Route::Label => label_of(alloc, request.body()),
        Route::Mount => mount_of(alloc, request.body()),
        Route::Unmount => unmount_of(alloc, request.body()),
        Route::Inventory => Ok(Command::Inventory),
        Route::Savegrp { group } => savegrp_of(alloc, group),
        Route::Begin => begin_of(alloc, request.body()),
        Route::Append { ssid, offset } => {
            let (ssid, offset) = append_place(alloc, ssid, offset)?;
            Ok(Command::Append {
                ssid,
                offset,
                piece: Items::of(request.into_body()),
            })
        }
        Route::Finish { ssid } => finish_of(alloc, ssid, request.body()),
        Route::Abort { ssid } => abort_of(alloc, ssid),
        Route::Amend { ssid } => amend_of(alloc, ssid, request.body()),
        Route::Delete { ssid } => delete_of(alloc, ssid),
        Route::Nsrim => Ok(Command::Nsrim),
        Route::Show { ssid } => show_of(alloc, ssid),
    }
}

// The refusal that names a target that no route has.
fn no_route(alloc: Global, target: &str) -> Refusal
    ensures { (result ≡ no_route target.now) ⊎ (result ≡ NoMemory) }
{
    match (
        Name::from_text(alloc, "route"),
        name_of_target(alloc, target),
    ) {
        (Ok(kind), Ok(name)) => Refusal::NoSuch { kind, name },
        _ => Refusal::NoMemory,
    }
}

#[tactic(auto, using(crate::proofs::Names::name_passes, crate::proofs::Names::long_fails, crate::proofs::Names::other_fails))]
fn name_of_target(alloc: Global, target: &str) -> Result<Name, Memory>
    ensures { IfOk result (λ name. name ≡ name_of_target target.now) }
{
    match Name::read(alloc, target.as_bytes(), MAX_TARGET) {
        Ok(name) => Ok(name),
        Err(NameFault::Length) => Ok(Name::empty(alloc)),
        Err(NameFault::NotText) => Ok(Name::empty(alloc)),
        Err(NameFault::Memory) => Err(Memory),
    }
}
