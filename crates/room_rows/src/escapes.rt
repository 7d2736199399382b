//! Bytes written as text. `\n` and `\r` stand for line ends, `\xHH` for a byte, `\#` for a number of
//! five digits, and `\{NAME}`, `\{NAME FROM}` or `\{NAME FROM TO}` for bytes that have a name.

use crate::names::Names;
use anyhow::{Result, bail};
use std::alloc::{AllocError, Global};

/// The bytes that a text stands for. `number` is the one that `\#` shows.
pub fn bytes_of(alloc: Global, text: &str, names: &Names, number: u64) -> Result<Vec<u8>> {
    let mut bytes = Vec::new(alloc);
    let mut parts = text.as_bytes().split(|byte| *byte == b'\\');
    if let Some(first) = parts.next() {
        bytes.extend_from_slice(first)?;
    }
    for part in parts {
        add_part(alloc, &mut bytes, part, names, number)?;
    }
    Ok(bytes)
}

// Adds what a text that follows a backslash stands for.
fn add_part(
    alloc: Global,
    bytes: &mut Vec<u8>,
    part: &[u8],
    names: &Names,
    number: u64,
) -> Result<()> {
    let rest = match part {
        [b'n', rest @ ..] => {
            bytes.push(b'\n')?;
            rest
        }
        [b'r', rest @ ..] => {
            bytes.push(b'\r')?;
            rest
        }
        [b'x', high, low, rest @ ..] => {
            bytes.push(digit_of(*high)? << 4 | digit_of(*low)?)?;
            rest
        }
        [b'#', rest @ ..] => {
            bytes.extend_from_slice(format!(in alloc; "{number:05}")?.as_bytes())?;
            rest
        }
        [b'{', rest @ ..] => add_named(bytes, rest, names)?,
        _ => bail!("no such escape"),
    };
    bytes.extend_from_slice(rest)?;
    Ok(())
}

fn digit_of(byte: u8) -> Result<u8> {
    match byte {
        b'0'..=b'9' => Ok(byte - b'0'),
        b'a'..=b'f' => Ok(byte - b'a' + 10),
        _ => bail!("no hexadecimal digit"),
    }
}

// Adds the bytes that are named up to a closing brace, and gives what is behind it.
fn add_named<'a>(bytes: &mut Vec<u8>, text: &'a [u8], names: &Names) -> Result<&'a [u8]> {
    let mut parts = text.splitn(2, |byte| *byte == b'}');
    let name = std::str::from_utf8(parts.next().unwrap_or(b""))?;
    bytes.extend_from_slice(names.part(name)?)?;
    match parts.next() {
        Some(rest) => Ok(rest),
        None => bail!("no closing brace"),
    }
}

/// The most bytes that are shown; longer ones are told by their number and digest.
const MOST_SHOWN: usize = 2000;

/// Adds bytes as text in one line.
pub fn show(text: &mut Vec<u8>, bytes: &[u8]) -> Result<(), AllocError> {
    for byte in bytes.get(..MOST_SHOWN).unwrap_or(bytes) {
        show_byte(text, *byte)?;
    }
    if bytes.len() > MOST_SHOWN {
        text.extend_from_slice(b" ..")?;
    }
    Ok(())
}

fn show_byte(text: &mut Vec<u8>, byte: u8) -> Result<(), AllocError> {
    match byte {
        b'\n' => text.extend_from_slice(b"\\n"),
        b'\r' => text.extend_from_slice(b"\\r"),
        b'\\' => text.extend_from_slice(b"\\x5c"),
        b' '..=b'~' => {
            text.push(byte)?;
            Ok(())
        }
        _ => {
            text.extend_from_slice(b"\\x")?;
            text.push(digit(byte >> 4))?;
            text.push(digit(byte & 15))?;
            Ok(())
        }
    }
}

// The digit of a number below 16.
fn digit(number: u8) -> u8 {
    match number {
        0..=9 => b'0' + number,
        10..=15 => b'a' + (number - 10),
        _ => b'?',
    }
}
