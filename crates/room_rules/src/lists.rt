//! Copies of lists.

ghost use Rattle.std.specs.Prelude.{◌≡◌, IfOk};

use room_base::{Items, Memory, Name};

/// The same names.
pub(crate) fn names_copy(names: &Items<Name>) -> Result<Items<Name>, Memory>
    ensures { IfOk result (λ copy. copy ≡ names.now) }
{
    let mut copy = Vec::with_capacity(names.allocator(), names.as_slice().len())?;
    for name in names.as_slice() {
        copy.push(name.copy()?)?;
    }
    Ok(Items::of(copy))
}
