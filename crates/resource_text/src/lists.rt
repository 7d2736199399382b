//! Lists of texts, each of which stands for something.

ghost use Rattle.toml.specs.View.{items_view, table_view, view};
ghost use Rattle.save_stream.specs.Spelling.{IsNameTo};
ghost use Rattle.resource_text.specs.Reading.{IsItself, ReadsField};
ghost use Rattle.resource_text.specs.Lists.{AreTextsTo, IsText, MayHaveTexts};

use crate::TextFault;
use crate::table::{malformed, name_of, value_at};
use crate::words::Word;
use room_base::{Items, Name};
use std::alloc::Global;
use toml::{Table, Value};

/// The most items of a criterion of a pool.
pub(crate) const MAX_CRITERIA: usize = 64;

/// The names of at most so many bytes that a table may have at a key.
pub(crate) fn names_at(
    alloc: Global,
    table: &Table,
    key: &str,
    most: u32,
) -> Result<Items<Name>, TextFault>
    ensures { ReadsField key.now (MayHaveTexts key.now 64 (IsItself (IsNameTo most))
        (table_view table.now)) result }
{
    match value_at(table, key) {
        Some(value) => match value.as_array() {
            Some(array) => names_of(alloc, key, array, most),
            None => Err(malformed(alloc, key)),
        },
        None => Ok(Items::of(Vec::new(alloc))),
    }
}

// The names in an array.
fn names_of(alloc: Global, key: &str, array: &[Value], most: u32) -> Result<Items<Name>, TextFault>
    ensures { ReadsField key.now (AreTextsTo 64 (IsItself (IsNameTo most))
        (items_view array.now)) result }
{
    if MAX_CRITERIA < array.len() {
        return Err(malformed(alloc, key));
    }
    let mut names = Vec::with_capacity(alloc, array.len())?;
    for value in array {
        names.push(name_in(alloc, key, value, most)?)?;
    }
    Ok(Items::of(names))
}

fn name_in(alloc: Global, key: &str, value: &Value, most: u32) -> Result<Name, TextFault>
    ensures { ReadsField key.now (IsText (IsItself (IsNameTo most)) (view value.now)) result }
{
    match value.as_str() {
        Some(text) => name_of(alloc, key, text, most),
        None => Err(malformed(alloc, key)),
    }
}

/// The words of which a table may have at most 64 at a key.
pub(crate) fn words_at<W: Word>(
    alloc: Global,
    table: &Table,
    key: &str,
) -> Result<Items<W>, TextFault>
    ensures { ReadsField key.now (MayHaveTexts key.now 64 W.stands (table_view table.now))
        result }
{
    match value_at(table, key) {
        Some(value) => match value.as_array() {
            Some(array) => words_of(alloc, key, array, MAX_CRITERIA),
            None => Err(malformed(alloc, key)),
        },
        None => Ok(Items::of(Vec::new(alloc))),
    }
}

/// The words in an array, at most so many.
pub(crate) fn words_of<W: Word>(
    alloc: Global,
    key: &str,
    array: &[Value],
    most: usize,
) -> Result<Items<W>, TextFault>
    ensures { ReadsField key.now (AreTextsTo most W.stands (items_view array.now)) result }
{
    if most < array.len() {
        return Err(malformed(alloc, key));
    }
    let mut words = Vec::with_capacity(alloc, array.len())?;
    for value in array {
        words.push(word_in(alloc, key, value)?)?;
    }
    Ok(Items::of(words))
}

fn word_in<W: Word>(alloc: Global, key: &str, value: &Value) -> Result<W, TextFault>
    ensures { ReadsField key.now (IsText W.stands (view value.now)) result }
{
    match value.as_str() {
        Some(text) => word_of(alloc, key, text),
        None => Err(malformed(alloc, key)),
    }
}

fn word_of<W: Word>(alloc: Global, key: &str, text: &str) -> Result<W, TextFault>
    ensures { ReadsField key.now (W.stands text.now) result }
{
    match W::of_text(text) {
        Some(word) => Ok(word),
        None => Err(malformed(alloc, key)),
    }
}
