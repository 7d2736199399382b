//! Writes the head of a stream.

ghost use Rattle.std.specs.Prelude.{◌≡◌, ◌+◌, ◌≤◌, ◌++◌, ◌∷◌, [], length, IfOk, vec_len};
ghost use Rattle.std.specs.Prelude.{vec_capacity};
ghost use Rattle.save_stream.specs.Heads.{head_of_parts};
ghost use Rattle.save_stream.specs.Spelling.{IsHead, head_text, head_numbers, number_text};
ghost use Rattle.save_stream.specs.Spelling.{short_text};

use crate::{HeadParts, SetHead};
use room_base::{Memory, Name};
use std::alloc::Global;

/// The byte that begins a head.
pub(crate) const HEAD_KIND: u8 = b'H';

// The bytes of a head before its first text, and the length bytes of its four texts.
const HEAD_SIZE: usize = 46;

/// Writes a head in its one spelling.
pub fn encode_head(alloc: Global, head: &SetHead) -> Result<Vec<u8>, Memory>
    requires { IsHead head.now }
    ensures { IfOk result (λ bytes. bytes.items ≡ head_text head.now) }
{
    let parts = head.parts();
    let mut bytes = Vec::with_capacity(alloc, head_length(&parts) as usize)?;
    encode_head_into(&parts, &mut bytes);
    Ok(bytes)
}

/// Appends the one spelling of the head of these parts. There is room for it, and no memory is
/// taken.
pub fn encode_head_into(parts: &HeadParts, into: &mut Vec<u8>)
    requires allowed { IsHead (head_of_parts parts.now) }
    requires room { let text = head_text (head_of_parts parts.now) in
        vec_len into.old + length text ≤ vec_capacity into.old }
    ensures items { into.new.items ≡ into.old.items ++ head_text (head_of_parts parts.now) }
    ensures capacity { vec_capacity into.new ≡ vec_capacity into.old }
{
    put_numbers(into, parts);
    put_text(into, parts.client);
    put_text(into, parts.set);
    put_text(into, parts.group);
    put_text(into, parts.pool);
}

/// How many bytes the spelling of the head of these parts has.
pub fn head_length(parts: &HeadParts) -> u64
    requires { IsHead (head_of_parts parts.now) }
    ensures { result ≡ length (head_text (head_of_parts parts.now)) }
{
    let client = parts.client.as_bytes().len();
    let set = parts.set.as_bytes().len();
    let group = parts.group.as_bytes().len();
    let pool = parts.pool.as_bytes().len();
    (HEAD_SIZE + client + set + group + pool) as u64
}

// Adds the fields before the texts.
fn put_numbers(into: &mut Vec<u8>, parts: &HeadParts)
    requires { vec_len into.old + 42 ≤ vec_capacity into.old }
    ensures items { into.new.items ≡ into.old.items ++ head_numbers (head_of_parts parts.now) }
    ensures len { vec_len into.new ≡ vec_len into.old + 42 }
    ensures capacity { vec_capacity into.new ≡ vec_capacity into.old }
{
    put(into, &[HEAD_KIND]);
    put_number(into, parts.ssid.0);
    put_number(into, parts.base.0);
    put(into, &[parts.level.rank()]);
    put_number(into, parts.saved.0);
    put_number(into, parts.browse.0);
    put_number(into, parts.retain.0);
}

// Adds a number of eight bytes.
#[tactic(auto, unfolding(crate::specs::Spelling::number_text))]
fn put_number(into: &mut Vec<u8>, number: u64)
    requires { vec_len into.old + 8 ≤ vec_capacity into.old }
    ensures items { into.new.items ≡ into.old.items ++ number_text number }
    ensures len { vec_len into.new ≡ vec_len into.old + 8 }
    ensures capacity { vec_capacity into.new ≡ vec_capacity into.old }
{
    put(into, &number.to_be_bytes());
}

// Adds a text behind its length.
fn put_text(into: &mut Vec<u8>, text: &Name)
    requires short { length text.now ≤ 255 }
    requires room { vec_len into.old + 1 + length text.now ≤ vec_capacity into.old }
    ensures items { into.new.items ≡ into.old.items ++ short_text text.now }
    ensures len { vec_len into.new ≡ vec_len into.old + 1 + length text.now }
    ensures capacity { vec_capacity into.new ≡ vec_capacity into.old }
{
    let text = text.as_bytes();
    put(into, &[text.len() as u8]);
    put(into, text);
}

// Adds bytes that there is room for, so that the list stays where it is.
fn put(into: &mut Vec<u8>, bytes: &[u8])
    requires { vec_len into.old + length bytes.now ≤ vec_capacity into.old }
    ensures items { into.new.items ≡ into.old.items ++ bytes.now }
    ensures len { vec_len into.new ≡ vec_len into.old + length bytes.now }
    ensures capacity { vec_capacity into.new ≡ vec_capacity into.old }
{
    for byte in bytes {
        let end = into.len();
        into.insert(end, *byte).unwrap();
    }
}
