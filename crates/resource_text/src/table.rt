//! What a table of the text has at a key.

ghost use Rattle.std.specs.Prelude.{◌≡◌, codes, map, option_map, option_copied};
ghost use Rattle.std.specs.Option.{option_and_then};
ghost use Rattle.toml.specs.Data.{as_str, get_member};
ghost use Rattle.toml.specs.View.{table_view, view};
ghost use Rattle.save_stream.specs.Spelling.{IsNameTo};
ghost use Rattle.resource_text.specs.Reading.{HasText, IsItself, IsTable, NamesField};
ghost use Rattle.resource_text.specs.Reading.{NamesKey, ReadsAs, ReadsField, ReadsKeys};
ghost use Rattle.resource_text.specs.Reading.{is_among, other_key};

use crate::TextFault;
use room_base::{Name, NameFault};
use std::alloc::Global;
use toml::{Table, Value};

/// The most bytes of the name of a save set, and of all other names.
pub(crate) const MAX_SET_NAME: u32 = 255;

pub(crate) const MAX_NAME: u32 = 64;

/// The fault that names a field.
pub(crate) fn malformed(alloc: Global, field: &str) -> TextFault
    ensures { NamesField field.now result }
{
    match Name::from_text(alloc, field) {
        Ok(field) => TextFault::Malformed { field },
        Err(_) => TextFault::Memory,
    }
}

/// The value at a key.
pub(crate) fn value_at<'a>(table: &'a Table, key: &str) -> Option<&'a Value>
    ensures { option_map (λ value. view value.now) result
        ≡ get_member key.now (table_view table.now) }
{
    table.get(key)
}

/// The text at a key.
pub(crate) fn text_at<'a>(table: &'a Table, key: &str) -> Option<&'a str>
    ensures { option_copied result
        ≡ option_and_then as_str (get_member key.now (table_view table.now)) }
{
    match value_at(table, key) {
        Some(value) => value.as_str(),
        None => None,
    }
}

/// A value of a kind of resources, which has to be a table.
pub(crate) fn table_of<'a>(
    alloc: Global,
    kind: &str,
    value: &'a Value,
) -> Result<&'a Table, TextFault>
    ensures { ReadsAs (λ table. table_view table.now) kind.now (IsTable (view value.now))
        result }
{
    match value.as_table() {
        Some(table) => {
            // A map knows that its keys ascend.
            let _count = table.len();
            Ok(table)
        }
        None => Err(malformed(alloc, kind)),
    }
}

/// A name that a text has to be.
pub(crate) fn name_of(alloc: Global, field: &str, text: &str, most: u32) -> Result<Name, TextFault>
    ensures { ReadsField field.now (IsItself (IsNameTo most) text.now) result }
{
    match Name::read(alloc, text.as_bytes(), most) {
        Ok(name) => Ok(name),
        Err(NameFault::Memory) => Err(TextFault::Memory),
        Err(NameFault::Length | NameFault::NotText) => Err(malformed(alloc, field)),
    }
}

/// The name that a table has at a key.
pub(crate) fn name_at(alloc: Global, table: &Table, key: &str, most: u32) -> Result<Name, TextFault>
    ensures { ReadsField key.now (HasText key.now (IsNameTo most) (table_view table.now))
        result }
{
    match text_at(table, key) {
        Some(text) => name_of(alloc, key, text, most),
        None => Err(malformed(alloc, key)),
    }
}

/// Refuses a table that has other keys than these.
pub(crate) fn know_keys(alloc: Global, table: &Table, keys: &[&str]) -> Result<(), TextFault>
    ensures { ReadsKeys (map (λ key. key.now) keys.now) (table_view table.now) result }
{
    match other_key(table, keys) {
        Some(key) => Err(unknown(alloc, key)),
        None => Ok(()),
    }
}

// The first key of a table that isn't among these.
fn other_key<'a>(table: &'a Table, keys: &[&str]) -> Option<&'a str>
    ensures { option_copied result
        ≡ other_key (map (λ key. key.now) keys.now) (table_view table.now) }
{
    'keys: for (key, _value) in table.iter() {
        if !is_among(keys, key.as_str()) {
            return Some(key.as_str());
        }
    }
    None
}

fn is_among(keys: &[&str], key: &str) -> bool
    ensures { result ≡ is_among (map (λ key. key.now) keys.now) key.now }
{
    for one in keys {
        if *one == key {
            return true;
        }
    }
    false
}

// The fault that names an unknown key.
fn unknown(alloc: Global, key: &str) -> TextFault
    ensures { NamesKey key.now result }
{
    match Name::read(alloc, key.as_bytes(), MAX_NAME) {
        Ok(field) => TextFault::Malformed { field },
        Err(NameFault::Memory) => TextFault::Memory,
        Err(NameFault::Length | NameFault::NotText) => malformed(alloc, "key"),
    }
}
