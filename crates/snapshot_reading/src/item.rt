//! Lists whose items are read by a reader that knows what stands before the list.

ghost use Rattle.std.specs.Prelude.{◌≡◌, ◌≤◌, ◌<◌, ◌+◌, List, ℕ, []};
ghost use Rattle.catalog_spelling.specs.Reading.{Gives, Part};
ghost use Rattle.catalog_spelling.specs.Lists.{items_at};

use catalog_text::FieldFault;
use room_base::Items;
use std::alloc::Global;

/// Reads the items of a list.
pub(crate) trait ReadItem {
    type Item: Drop;

    /// The least bytes of an item.
    const LEAST: usize;

    /// The item that begins these bytes, behind the items before it.
    ghost at: { Self → List Self.Item → List ℕ → Part Self.Item };

    fn read<'a>(
        &self,
        alloc: Global,
        before: &[Self::Item],
        bytes: &'a [u8],
    ) -> Result<(Self::Item, &'a [u8]), FieldFault>
        ensures { Gives (λ x. (x.0, x.1.now)) result (at self.now before.now bytes.now) };
}

/// Reads so many items. No more room is taken than the bytes can fill.
pub(crate) fn read_items<'a, R: ReadItem>(
    reader: &R,
    alloc: Global,
    count: usize,
    bytes: &'a [u8],
) -> Result<(Items<R::Item>, &'a [u8]), FieldFault>
    ensures { Gives (λ x. (x.0, x.1.now)) result (items_at (R.at reader.now) count [] bytes.now) }
{
    let mut items = Vec::with_capacity(alloc, count.min(bytes.len() / R::LEAST.max(1)))?;
    let mut rest = bytes;
    for _ in 0..count {
        let (item, after) = reader.read(alloc, items.as_slice(), rest)?;
        items.push(item)?;
        rest = after;
    }
    Ok((Items::of(items), rest))
}
