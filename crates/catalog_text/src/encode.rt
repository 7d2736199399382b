//! Encodes changes.

ghost use Rattle.std.specs.Prelude.{◌≡◌, ◌≤◌, length, IfOk, OnOk};
ghost use Rattle.room_base.specs.Numbers.{max_moment};
ghost use Rattle.catalog_change.specs.Changes.{IsChange};
ghost use Rattle.catalog_spelling.specs.Changes.{change_text};
ghost use Rattle.catalog_spelling.specs.Decoding.{IsStamped};
ghost use Rattle.catalog_text.specs.Writing.{HasRoom, Appends};

use crate::change_sizes::change_length;
use crate::change_writing::{change_byte, put_fields};
use crate::put::{put_u8, put_u64};
use catalog_change::Change;
use room_base::{Memory, Moment};
use std::alloc::Global;

/// Writes a change at a moment in its one spelling.
pub fn encode_change(alloc: Global, moment: Moment, change: &Change) -> Result<Vec<u8>, Memory>
    requires moment { moment.0 ≤ max_moment }
    requires allowed { IsChange change.now }
    ensures text { IfOk result (λ bytes. bytes.items ≡ change_text moment.0 change.now) }
    ensures fits { OnOk result (IsStamped moment.0 change.now) }
{
    let mut bytes = Vec::with_capacity(alloc, change_length(change) as usize)?;
    encode_change_into(moment, change, &mut bytes);
    Ok(bytes)
}

/// Appends the one spelling of a change at a moment. There is room for it, as many bytes as
/// `change_length` says, and no memory is taken.
pub fn encode_change_into(moment: Moment, change: &Change, into: &mut Vec<u8>)
    requires moment { moment.0 ≤ max_moment }
    requires allowed { IsChange change.now }
    requires room { HasRoom into.old (change_text moment.0 change.now) }
    ensures text { Appends into.old into.new (change_text moment.0 change.now) }
    ensures fits { IsStamped moment.0 change.now }
{
    put_u64(into, moment.0);
    put_u8(into, change_byte(change));
    put_fields(into, change);
}
