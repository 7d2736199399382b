//! Decodes changes.

ghost use Rattle.std.specs.Prelude.{◌≡◌, ◌≤◌, ◌-◌, length};
ghost use Rattle.catalog_spelling.specs.Reading.{Gives};
ghost use Rattle.catalog_spelling.specs.Changes.{change_at};
ghost use Rattle.catalog_spelling.specs.Decoding.{Decodes};
ghost use Rattle.catalog_spelling.specs.declared.fault.DecodeFault.TheVariants as faults;

use crate::change_reading::read_change;
use crate::field::read_moment;
use crate::{DecodeFault, FieldFault};
use catalog_change::Change;
use room_base::Moment;
use std::alloc::Global;

/// Decodes a change and its moment, from all of the bytes.
pub fn decode_change(alloc: Global, bytes: &[u8]) -> Result<(Moment, Change), DecodeFault>
    ensures { Decodes bytes.now result }
{
    match read_stamped(alloc, bytes) {
        Ok((moment, change, rest)) => {
            if !rest.is_empty() {
                return Err(bad(bytes, rest.len()));
            }
            Ok((moment, change))
        }
        Err(FieldFault::Bad { behind }) => Err(bad(bytes, behind)),
        Err(FieldFault::Memory) => Err(DecodeFault::Memory),
    }
}

// A fault so many bytes before the end.
fn bad(bytes: &[u8], behind: usize) -> DecodeFault
    requires { behind ≤ length bytes.now }
    ensures { result ≡ faults.Bad (length bytes.now - behind) }
{
    DecodeFault::Bad {
        place: (bytes.len() - behind) as u64,
    }
}

// A moment and the change behind it.
#[tactic(auto, unfolding(catalog_spelling::specs::Changes::change_at))]
fn read_stamped(alloc: Global, bytes: &[u8]) -> Result<(Moment, Change, &[u8]), FieldFault>
    ensures { Gives (λ x. (record { moment = x.0.0; change = x.1 }, x.2.now)) result
        (change_at bytes.now) }
{
    let (moment, rest) = read_moment(bytes)?;
    let (change, rest) = read_change(alloc, rest)?;
    Ok((moment, change, rest))
}
