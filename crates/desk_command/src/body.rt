//! Bodies that are JSON objects, and their fields.

ghost use Rattle.std.specs.Prelude.{◌≡◌, codes};
ghost use Rattle.std.specs.List.{list_all};
ghost use Rattle.serde_json.specs.Find.{as_bool};
ghost use Rattle.serde_json.specs.View.{view};
ghost use Rattle.desk_command.specs.Fields.{action_in, action_of, digest_in, digest_of, field};
ghost use Rattle.desk_command.specs.Fields.{most_u8, most_u64, most_u32, name_to, number_to};
ghost use Rattle.desk_command.specs.Fields.{is_lower_digit, object_in, optional, name_in};
ghost use Rattle.desk_command.specs.Outcomes.{Answers, outcome_map};

use crate::refusing::malformed;
use hex::FromHex;
use room_base::{Name, NameFault, Refusal};
use room_rules::Action;
use serde_json::Value;
use std::alloc::Global;

/// The most bytes of a save set's name, and of all other names.
pub(crate) const MAX_SET_NAME: u32 = 255;

pub(crate) const MAX_NAME: u32 = 64;

#[tactic(auto, using(crate::proofs::Objects::object_there, crate::proofs::Objects::object_other, crate::proofs::Objects::object_missing))]
/// The JSON object that a body is.
pub(crate) fn object_of(alloc: Global, body: &[u8]) -> Result<Value, Refusal>
    ensures { Answers (object_in body.now) (outcome_map view result) }
{
    match Value::from_slice(alloc, body) {
        Ok(object) if object.is_object() => Ok(object),
        Ok(_) => Err(malformed(alloc, "body")),
        Err(error) => {
            if error.is_memory() {
                Err(Refusal::NoMemory)
            } else {
                Err(malformed(alloc, "body"))
            }
        }
    }
}

// The whole number, at most `most`, that an object has at a key.
fn number_at(alloc: Global, object: &Value, key: &str, most: u64) -> Result<u64, Refusal>
    ensures { Answers (field key.now (number_to most) (view object.now)) result }
{
    match object.get(key).and_then(Value::as_u64) {
        Some(number) if number <= most => Ok(number),
        _ => Err(malformed(alloc, key)),
    }
}

/// The number of one byte that an object has at a key.
pub(crate) fn u8_at(alloc: Global, object: &Value, key: &str) -> Result<u8, Refusal>
    ensures { Answers (field key.now (number_to most_u8) (view object.now)) result }
{
    let number = number_at(alloc, object, key, u64::from(u8::MAX))?;
    Ok(number as u8)
}

/// The number of four bytes that an object has at a key.
pub(crate) fn u32_at(alloc: Global, object: &Value, key: &str) -> Result<u32, Refusal>
    ensures { Answers (field key.now (number_to most_u32) (view object.now)) result }
{
    let number = number_at(alloc, object, key, u64::from(u32::MAX))?;
    Ok(number as u32)
}

/// The number of eight bytes that an object has at a key.
pub(crate) fn u64_at(alloc: Global, object: &Value, key: &str) -> Result<u64, Refusal>
    ensures { Answers (field key.now (number_to most_u64) (view object.now)) result }
{
    number_at(alloc, object, key, u64::MAX)
}

/// The number of eight bytes that an object may have at a key.
pub(crate) fn optional_u64(alloc: Global, object: &Value, key: &str) -> Result<Option<u64>, Refusal>
    ensures { Answers (optional key.now (number_to most_u64) (view object.now)) result }
{
    match object.get(key) {
        Some(value) => match value.as_u64() {
            Some(number) => Ok(Some(number)),
            None => Err(malformed(alloc, key)),
        },
        None => Ok(None),
    }
}

/// The number of four bytes that an object may have at a key.
pub(crate) fn optional_u32(alloc: Global, object: &Value, key: &str) -> Result<Option<u32>, Refusal>
    ensures { Answers (optional key.now (number_to most_u32) (view object.now)) result }
{
    match object.get(key) {
        Some(value) => match value.as_u64() {
            Some(number) if number <= u64::from(u32::MAX) => Ok(Some(number as u32)),
            _ => Err(malformed(alloc, key)),
        },
        None => Ok(None),
    }
}

/// The truth value that an object may have at a key.
pub(crate) fn optional_bool(
    alloc: Global,
    object: &Value,
    key: &str,
) -> Result<Option<bool>, Refusal>
    ensures { Answers (optional key.now as_bool (view object.now)) result }
{
    match object.get(key) {
        Some(value) => match value.as_bool() {
            Some(is) => Ok(Some(is)),
            None => Err(malformed(alloc, key)),
        },
        None => Ok(None),
    }
}

#[tactic(auto, using(crate::proofs::Names::name_passes, crate::proofs::Names::long_fails, crate::proofs::Names::other_fails))]
/// A name that a text has to be, of at most `most` bytes.
pub(crate) fn name_of(alloc: Global, field: &str, text: &str, most: u32) -> Result<Name, Refusal>
    ensures { Answers (name_in field.now most text.now) result }
{
    match Name::read(alloc, text.as_bytes(), most) {
        Ok(name) => Ok(name),
        Err(NameFault::Memory) => Err(Refusal::NoMemory),
        Err(NameFault::Length) => Err(malformed(alloc, field)),
        Err(NameFault::NotText) => Err(malformed(alloc, field)),
    }
}

/// The name, of at most `most` bytes, that an object has at a key.
pub(crate) fn name_at(alloc: Global, object: &Value, key: &str, most: u32) -> Result<Name, Refusal>
    ensures { Answers (field key.now (name_to most) (view object.now)) result }
{
    match object.get(key).and_then(Value::as_str) {
        Some(text) => name_of(alloc, key, text, most),
        None => Err(malformed(alloc, key)),
    }
}

/// The name, of at most `most` bytes, that an object may have at a key.
pub(crate) fn optional_name(
    alloc: Global,
    object: &Value,
    key: &str,
    most: u32,
) -> Result<Option<Name>, Refusal>
    ensures { Answers (optional key.now (name_to most) (view object.now)) result }
{
    match object.get(key) {
        Some(value) => match value.as_str() {
            Some(text) => Ok(Some(name_of(alloc, key, text, most)?)),
            None => Err(malformed(alloc, key)),
        },
        None => Ok(None),
    }
}

/// The action that an object may have at a key, by its word.
pub(crate) fn optional_action(
    alloc: Global,
    object: &Value,
    key: &str,
) -> Result<Option<Action>, Refusal>
    ensures { Answers (optional key.now action_in (view object.now)) result }
{
    match object.get(key) {
        Some(value) => match value.as_str().and_then(action_of) {
            Some(action) => Ok(Some(action)),
            None => Err(malformed(alloc, key)),
        },
        None => Ok(None),
    }
}

// The action of a word.
fn action_of(word: &str) -> Option<Action>
    ensures { result ≡ action_of word.now }
{
    match word {
        "full" => Action::of(0),
        "1" => Action::of(1),
        "2" => Action::of(2),
        "3" => Action::of(3),
        "4" => Action::of(4),
        "5" => Action::of(5),
        "6" => Action::of(6),
        "7" => Action::of(7),
        "8" => Action::of(8),
        "9" => Action::of(9),
        "incr" => Action::of(10),
        "skip" => Action::of(11),
        _ => None,
    }
}

/// The digest that an object has at a key, as 64 hexadecimal digits in lower case.
pub(crate) fn digest_at(alloc: Global, object: &Value, key: &str) -> Result<[u8; 32], Refusal>
    ensures { Answers (field key.now digest_in (view object.now)) result }
{
    match object.get(key).and_then(Value::as_str).and_then(digest_of) {
        Some(digest) => Ok(digest),
        None => Err(malformed(alloc, key)),
    }
}

// The bytes that 64 digits write.
fn digest_of(text: &str) -> Option<[u8; 32]>
    ensures { result ≡ digest_of text.now }
{
    if !is_in_lower_case(text) {
        return None;
    }
    match <[u8; 32] as FromHex>::from_hex(text) {
        Ok(digest) => Some(digest),
        Err(_) => None,
    }
}

fn is_in_lower_case(text: &str) -> bool
    ensures { result ≡ list_all is_lower_digit text.now }
{
    text.as_bytes().iter().all(|digit| is_lower_digit(*digit))
}

fn is_lower_digit(digit: u8) -> bool
    ensures { result ≡ is_lower_digit digit }
{
    digit.is_ascii_digit() || (b'a' <= digit && digit <= b'f')
}
