//! Lists whose items are written one behind the other, into bytes that have room for them.

ghost use Rattle.std.specs.Prelude.{◌≡◌, ◌≤◌, ◌<◌, ◌+◌, ◌^◌, List, ℕ, length};
ghost use Rattle.std.specs.Io.Iter.{u64_saturate};
ghost use Rattle.std.specs.List.{flat_map, AllByRecursion};
ghost use Rattle.catalog_spelling.specs.Fields.{number_bytes};
ghost use Rattle.catalog_spelling.specs.Lists.{list_text};
ghost use Rattle.catalog_text.specs.Writing.{HasRoom, Appends};

use catalog_text::put_u32;

/// Writes the items of a list.
pub(crate) trait PutItem {
    type Item;

    ghost text: { Self → Self.Item → List ℕ };

    /// What an item needs to be written.
    ghost Is: { Self → Self.Item → Type 0 };

    /// That the numbers of an item that are written are in the ranges of their types.
    ghost Fits: { Self → Self.Item → Type 0 } = { λ _ _. Unit {0} };

    /// Appends an item, for which there is room.
    fn put(&self, item: &Self::Item, into: &mut Vec<u8>)
        requires allowed { Is self.now item.now }
        requires room { HasRoom into.old (text self.now item.now) }
        ensures text { Appends into.old into.new (text self.now item.now) }
        ensures fits { Fits self.now item.now };

    /// How many bytes an item has, or the greatest number where that is less.
    fn length(&self, item: &Self::Item) -> u64
        requires { Is self.now item.now }
        ensures { result ≡ u64_saturate (length (text self.now item.now)) };
}

/// Appends items, for which there is room.
pub(crate) fn put_items<P: PutItem>(writer: &P, items: &[P::Item], into: &mut Vec<u8>)
    requires allowed { AllByRecursion (P.Is writer.now) items.now }
    requires room { HasRoom into.old (flat_map (P.text writer.now) items.now) }
    ensures text { Appends into.old into.new (flat_map (P.text writer.now) items.now) }
    ensures fits { AllByRecursion (P.Fits writer.now) items.now }
{
    for item in items {
        writer.put(item, into);
    }
}

/// Appends a list behind four bytes of count.
pub(crate) fn put_list<P: PutItem>(writer: &P, items: &[P::Item], into: &mut Vec<u8>)
    requires allowed { AllByRecursion (P.Is writer.now) items.now }
    requires count { length items.now < 2 ^ 32 }
    requires room { HasRoom into.old (list_text (number_bytes 4) (P.text writer.now) items.now) }
    ensures text { Appends into.old into.new
        (list_text (number_bytes 4) (P.text writer.now) items.now) }
    ensures fits { AllByRecursion (P.Fits writer.now) items.now }
{
    put_u32(into, items.len() as u32);
    put_items(writer, items, into);
}

/// How many bytes so many items have, or the greatest number where that is less.
pub(crate) fn items_length<P: PutItem>(writer: &P, items: &[P::Item]) -> u64
    requires { AllByRecursion (P.Is writer.now) items.now }
    ensures { result ≡ u64_saturate (length (flat_map (P.text writer.now) items.now)) }
{
    let mut total = 0u64;
    for item in items {
        total = total.saturating_add(writer.length(item));
    }
    total
}
