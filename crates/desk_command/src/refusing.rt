//! Refusals of requests.

ghost use Rattle.std.specs.Prelude.{◌≡◌, ◌⊎◌};
ghost use Rattle.room_base.specs.declared.refusal.Refusal.TheVariants.{Malformed, NoMemory};

use room_base::{Name, Refusal};
use std::alloc::Global;

/// The refusal that names a field or a part of a target.
pub(crate) fn malformed(alloc: Global, field: &str) -> Refusal
    ensures { (result ≡ Malformed field.now) ⊎ (result ≡ NoMemory) }
{
    match Name::from_text(alloc, field) {
        Ok(field) => Refusal::Malformed { field },
        Err(_) => Refusal::NoMemory,
    }
}
