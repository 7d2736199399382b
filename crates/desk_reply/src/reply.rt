//! The text of a reply.

ghost use Rattle.std.specs.Prelude.{◌≡◌, ◌<◌, ◌^◌, ◌++◌, length, IfOk, OnOk};
ghost use Rattle.json.specs.Lex.{tokens};
ghost use Rattle.desk_reply.specs.Replies.{reply_status, reply_json, body_bytes, reply_bytes};
ghost use Rattle.desk_reply.specs.Replies.{status_line, length_line, with_head, IsReadable};
ghost use Rattle.desk_reply.specs.Writing.{Adds};
ghost use Rattle.json.specs.Tree.{json_tokens};

use crate::answer::write_answer;
use crate::refused::{refusal_status, write_refusal};
use http::StatusCode;
use itoa::Buffer;
use json::Writer;
use room_base::Memory;
use room_command::Reply;
use std::alloc::{AllocError, Global};

/// Room for the body of most replies.
const BODY_ROOM: usize = 256;

/// More than a head has.
const HEAD_ROOM: usize = 128;

/// The bytes of a reply, head and body, so that it can be sent by one write.
#[tactic(auto, using(crate::proofs::Reading::reads_back))]
pub fn reply_text(alloc: Global, reply: &Reply) -> Result<Vec<u8>, Memory>
    ensures text { IfOk result (λ text. text.items ≡ reply_bytes reply.now) }
    ensures readable { OnOk result (IsReadable reply.now) }
{
    let body = body_text(alloc, reply)?;
    with_head(alloc, status(reply), &body)
}

fn status(reply: &Reply) -> StatusCode
    ensures { result ≡ reply_status reply.now }
{
    match reply {
        Reply::Done(_) => StatusCode::OK,
        Reply::Refused(refusal) => refusal_status(refusal),
    }
}

fn body_text(alloc: Global, reply: &Reply) -> Result<Vec<u8>, Memory>
    ensures text { IfOk result (λ body. body.items ≡ body_bytes reply.now) }
    ensures tokens { OnOk result
        (tokens (body_bytes reply.now) ≡ json_tokens (reply_json reply.now)) }
{
    let mut out = Writer::new(Vec::with_capacity(alloc, BODY_ROOM)?);
    write_body(&mut out, reply)?;
    Ok(out.into_inner())
}

fn write_body(out: &mut Writer, reply: &Reply) -> Result<(), AllocError>
    ensures { Adds result out.old out.new (json_tokens (reply_json reply.now)) }
{
    match reply {
        Reply::Done(answer) => write_answer(out, answer),
        Reply::Refused(refusal) => write_refusal(out, refusal),
    }
}

fn with_head(alloc: Global, status: StatusCode, body: &[u8]) -> Result<Vec<u8>, Memory>
    ensures text { IfOk result (λ text. text.items ≡ with_head status body.now) }
    ensures length { length body.now < 2 ^ 64 }
{
    let mut text = Vec::with_capacity(alloc, HEAD_ROOM.saturating_add(body.len()))?;
    put_status(&mut text, status)?;
    text.extend_from_slice(b"Content-Type: application/json\r\n")?;
    put_length(&mut text, body.len())?;
    text.extend_from_slice(b"\r\n")?;
    text.extend_from_slice(body)?;
    Ok(text)
}

#[tactic(auto, using(crate::proofs::Heads::status_appended))]
fn put_status(text: &mut Vec<u8>, status: StatusCode) -> Result<(), AllocError>
    ensures { OnOk result (text.new.items ≡ text.old.items ++ status_line status) }
{
    let mut digits = Buffer::new();
    text.extend_from_slice(b"HTTP/1.1 ")?;
    text.extend_from_slice(digits.format(status.as_u16()).as_bytes())?;
    text.extend_from_slice(b" ")?;
    text.extend_from_slice(status.canonical_reason().unwrap_or("").as_bytes())?;
    text.extend_from_slice(b"\r\n")
}

#[tactic(auto, using(crate::proofs::Heads::length_appended))]
fn put_length(text: &mut Vec<u8>, length: usize) -> Result<(), AllocError>
    ensures { OnOk result (text.new.items ≡ text.old.items ++ length_line length) }
{
    let mut digits = Buffer::new();
    text.extend_from_slice(b"Content-Length: ")?;
    text.extend_from_slice(digits.format(length).as_bytes())?;
    text.extend_from_slice(b"\r\n")
}
