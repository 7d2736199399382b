//! Lists: a count, and items one behind the other.

ghost use Rattle.std.specs.Prelude.{◌≡◌, ◌≤◌, ◌<◌, ◌+◌, ◌^◌, List, ℕ, [], length};
ghost use Rattle.std.specs.List.{flat_map, AllByRecursion};
ghost use Rattle.catalog_spelling.specs.Reading.{Gives, Part};
ghost use Rattle.catalog_spelling.specs.Fields.{byte_text, number_bytes, byte_within_at};
ghost use Rattle.catalog_spelling.specs.Fields.{number_within_at};
ghost use Rattle.catalog_spelling.specs.Lists.{items_at, list_at, list_text};
ghost use Rattle.catalog_text.specs.Writing.{HasRoom, Appends};

use crate::FieldFault;
use crate::field::{read_u8_within, read_u16_within, read_u32_within};
use crate::put::{put_u8, put_u16, put_u32};
use room_base::Items;
use std::alloc::Global;

/// How the items of a list are spelled.
pub trait Format {
    type Item: Drop;

    /// The least bytes of an item.
    const LEAST: usize;

    /// The item that begins these bytes, behind the items before it.
    ghost at: { List Self.Item → List ℕ → Part Self.Item };

    ghost text: { Self.Item → List ℕ };

    /// What an item needs to be written.
    ghost Is: { Self.Item → Type 0 };

    ghost LEAST: { ℕ };

    /// That the numbers of an item are in the ranges of their types.
    ghost Fits: { Self.Item → Type 0 } = { λ _. Unit {0} };

    /// Reads an item at the front of bytes.
    fn read<'a>(
        alloc: Global,
        before: &[Self::Item],
        bytes: &'a [u8],
    ) -> Result<(Self::Item, &'a [u8]), FieldFault>
        ensures { Gives (λ x. (x.0, x.1.now)) result (at before.now bytes.now) };

    /// Appends an item, for which there is room.
    fn put(item: &Self::Item, into: &mut Vec<u8>)
        requires allowed { Is item.now }
        requires room { HasRoom into.old (text item.now) }
        ensures text { Appends into.old into.new (text item.now) }
        ensures fits { Fits item.now };

    /// How many bytes an item has.
    fn length(item: &Self::Item) -> u64
        requires { Is item.now }
        ensures length { result ≡ length (text item.now) }
        ensures bound { result < 2 ^ 24 };
}

/// Reads so many items. No more room is taken than the bytes can fill.
pub fn read_items<F: Format>(
    alloc: Global,
    count: usize,
    bytes: &[u8],
) -> Result<(Items<F::Item>, &[u8]), FieldFault>
    ensures { Gives (λ x. (x.0, x.1.now)) result (items_at F.at count [] bytes.now) }
{
    let mut items = Vec::with_capacity(alloc, count.min(bytes.len() / F::LEAST.max(1)))?;
    let mut rest = bytes;
    for _ in 0..count {
        let (item, after) = F::read(alloc, items.as_slice(), rest)?;
        items.push(item)?;
        rest = after;
    }
    Ok((Items::of(items), rest))
}

/// Reads a list of `least` to `most` items behind one byte of count.
#[tactic(auto, unfolding(catalog_spelling::specs::Lists::list_at))]
pub fn read_list_u8<F: Format>(
    alloc: Global,
    least: u8,
    most: u8,
    bytes: &[u8],
) -> Result<(Items<F::Item>, &[u8]), FieldFault>
    ensures { Gives (λ x. (x.0, x.1.now)) result
        (list_at (byte_within_at least most) F.at bytes.now) }
{
    let (count, rest) = read_u8_within(least, most, bytes)?;
    read_items::<F>(alloc, usize::from(count), rest)
}

/// Reads a list of `least` to `most` items behind two bytes of count.
#[tactic(auto, unfolding(catalog_spelling::specs::Lists::list_at))]
pub fn read_list_u16<F: Format>(
    alloc: Global,
    least: u16,
    most: u16,
    bytes: &[u8],
) -> Result<(Items<F::Item>, &[u8]), FieldFault>
    ensures { Gives (λ x. (x.0, x.1.now)) result
        (list_at (number_within_at 2 least most) F.at bytes.now) }
{
    let (count, rest) = read_u16_within(least, most, bytes)?;
    read_items::<F>(alloc, usize::from(count), rest)
}

/// Reads a list of `least` to `most` items behind four bytes of count.
#[tactic(auto, unfolding(catalog_spelling::specs::Lists::list_at))]
pub fn read_list_u32<F: Format>(
    alloc: Global,
    least: u32,
    most: u32,
    bytes: &[u8],
) -> Result<(Items<F::Item>, &[u8]), FieldFault>
    ensures { Gives (λ x. (x.0, x.1.now)) result
        (list_at (number_within_at 4 least most) F.at bytes.now) }
{
    let (count, rest) = read_u32_within(least, most, bytes)?;
    read_items::<F>(alloc, count as usize, rest)
}

/// Appends items, for which there is room.
pub fn put_items<F: Format>(items: &[F::Item], into: &mut Vec<u8>)
    requires allowed { AllByRecursion F.Is items.now }
    requires room { HasRoom into.old (flat_map F.text items.now) }
    ensures text { Appends into.old into.new (flat_map F.text items.now) }
    ensures fits { AllByRecursion F.Fits items.now }
{
    for item in items {
        F::put(item, into);
    }
}

/// Appends a list behind one byte of count.
pub fn put_list_u8<F: Format>(items: &[F::Item], into: &mut Vec<u8>)
    requires allowed { AllByRecursion F.Is items.now }
    requires count { length items.now < 2 ^ 8 }
    requires room { HasRoom into.old (list_text byte_text F.text items.now) }
    ensures text { Appends into.old into.new (list_text byte_text F.text items.now) }
    ensures fits { AllByRecursion F.Fits items.now }
{
    put_u8(into, items.len() as u8);
    put_items::<F>(items, into);
}

/// Appends a list behind two bytes of count.
pub fn put_list_u16<F: Format>(items: &[F::Item], into: &mut Vec<u8>)
    requires allowed { AllByRecursion F.Is items.now }
    requires count { length items.now < 2 ^ 16 }
    requires room { HasRoom into.old (list_text (number_bytes 2) F.text items.now) }
    ensures text { Appends into.old into.new (list_text (number_bytes 2) F.text items.now) }
    ensures fits { AllByRecursion F.Fits items.now }
{
    put_u16(into, items.len() as u16);
    put_items::<F>(items, into);
}

/// Appends a list behind four bytes of count.
pub fn put_list_u32<F: Format>(items: &[F::Item], into: &mut Vec<u8>)
    requires allowed { AllByRecursion F.Is items.now }
    requires count { length items.now < 2 ^ 32 }
    requires room { HasRoom into.old (list_text (number_bytes 4) F.text items.now) }
    ensures text { Appends into.old into.new (list_text (number_bytes 4) F.text items.now) }
    ensures fits { AllByRecursion F.Fits items.now }
{
    put_u32(into, items.len() as u32);
    put_items::<F>(items, into);
}

/// How many bytes so many items have.
pub fn items_length<F: Format>(items: &[F::Item]) -> u64
    requires allowed { AllByRecursion F.Is items.now }
    requires count { length items.now < 2 ^ 32 }
    ensures length { result ≡ length (flat_map F.text items.now) }
    ensures bound { result < 2 ^ 56 }
{
    let mut total = 0;
    for item in items {
        total += F::length(item);
    }
    total
}
