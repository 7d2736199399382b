//! The head of a request, as the parser finds it at the front of bytes.

ghost use Rattle.std.specs.Prelude.{◌≡◌, ◌≤◌, length, string_bytes, IfOk};
ghost use Rattle.std.specs.Str.{IsUtf8};
ghost use Rattle.httparse.specs.Spans.{IsRequestWithin, IsRequestOf};
ghost use Rattle.desk_request.specs.Framing.{max_headers};
ghost use Rattle.desk_request.specs.Heads.{FindsHead};

use crate::RequestFault;
use crate::framing::{body_length, says_close};
use httparse::Status;
use httparse::spans::{EMPTY_HEADER_SPAN, HeaderSpan, RequestSpans, parse_request};
use std::alloc::{AllocError, Global};
use std::str;

/// The most bytes that a head may have.
pub const MAX_HEAD: usize = 8_192;

/// The most headers that a head may have.
pub const MAX_HEADERS: usize = 32;

/// What the head of a request says.
#[derive(Drop)]
pub struct Head {
    pub method: String,
    pub target: String,
    pub close: bool,
    /// The length of the head, where the body begins.
    pub len: usize,
    /// The length of the body.
    pub body: usize,
}

/// Finds the head of a request at the front of the bytes.
pub fn find_head(alloc: Global, bytes: &[u8]) -> Result<Option<Head>, RequestFault>
    ensures { FindsHead bytes.now result }
{
    let mut headers = [EMPTY_HEADER_SPAN; MAX_HEADERS];
    match parse_request(bytes, &mut headers) {
        Ok(Status::Complete(spans)) => judge(alloc, bytes, &headers, spans),
        Ok(Status::Partial) => Ok(None),
        Err(_) => Err(RequestFault::Bad),
    }
}

// Judges a head that the parser found whole.
fn judge(
    alloc: Global,
    bytes: &[u8],
    headers: &[HeaderSpan],
    spans: RequestSpans,
) -> Result<Option<Head>, RequestFault>
    requires room { length headers.now ≤ max_headers }
    requires within { IsRequestWithin bytes.now headers.now spans }
    requires read { IsRequestOf bytes.now headers.now spans }
    ensures { FindsHead bytes.now result }
{
    let headers = &headers[..spans.headers];
    if spans.len > MAX_HEAD {
        return Err(RequestFault::Bad);
    }
    let Some(body) = body_length(bytes, headers) else {
        return Err(RequestFault::Bad);
    };
    Ok(Some(Head {
        method: text_of(alloc, spans.method.of(bytes))?,
        target: text_of(alloc, spans.path.of(bytes))?,
        close: says_close(bytes, headers),
        len: spans.len,
        body,
    }))
}

fn text_of(alloc: Global, bytes: &[u8]) -> Result<String, AllocError>
    requires { IsUtf8 bytes.now }
    ensures { IfOk result (λ text. string_bytes text ≡ bytes.now) }
{
    let Ok(text) = str::from_utf8(bytes) else {
        unreachable!()
    };
    String::from_str(alloc, text)
}
