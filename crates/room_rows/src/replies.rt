//! The replies of a desk, a line each.

use crate::escapes::show;
use std::alloc::AllocError;

/// A reply as it stands in an output.
#[derive(Drop)]
struct Reply<'a> {
    status: &'a [u8],
    kind: &'a [u8],
    body: &'a [u8],
}

/// Adds a line for each reply in an output, with its status and its body, and with the body's type
/// where that isn't JSON. What isn't a reply is added as it is.
pub fn add_replies(text: &mut Vec<u8>, output: &[u8]) -> Result<(), AllocError> {
    let mut rest = output;
    for _ in 0..output.len() {
        let Some((reply, behind)) = split_reply(rest) else {
            break;
        };
        add_reply(text, &reply)?;
        rest = behind;
    }
    if !rest.is_empty() {
        text.extend_from_slice(b"bytes ")?;
        show(text, rest)?;
        text.push(b'\n')?;
    }
    Ok(())
}

fn add_reply(text: &mut Vec<u8>, reply: &Reply<'_>) -> Result<(), AllocError> {
    text.extend_from_slice(reply.status)?;
    if reply.kind != b"application/json".as_slice() {
        text.push(b' ')?;
        text.extend_from_slice(reply.kind)?;
    }
    text.push(b' ')?;
    show(text, reply.body)?;
    text.push(b'\n')?;
    Ok(())
}

// The first reply of an output, and what is behind it.
fn split_reply(output: &[u8]) -> Option<(Reply<'_>, &[u8])> {
    let (status, rest) = split_line(output.strip_prefix(b"HTTP/1.1 ")?)?;
    let (kind, rest) = split_line(rest.strip_prefix(b"Content-Type: ")?)?;
    let (length, rest) = split_line(rest.strip_prefix(b"Content-Length: ")?)?;
    let length = std::str::from_utf8(length).ok()?.parse::<usize>().ok()?;
    let (body, rest) = rest.strip_prefix(b"\r\n")?.split_at_checked(length)?;
    Some((Reply { status, kind, body }, rest))
}

// The bytes before the first line end, and those behind it.
fn split_line(bytes: &[u8]) -> Option<(&[u8], &[u8])> {
    let end = bytes.iter().position(|byte| *byte == b'\r')?;
    let (line, rest) = bytes.split_at_checked(end)?;
    Some((line, rest.strip_prefix(b"\r\n")?))
}
