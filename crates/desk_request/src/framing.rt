//! What the headers of a head say of the bytes behind it and of the connection.

ghost use Rattle.std.specs.Prelude.{◌≡◌, ◌≤◌, length, map, All};
ghost use Rattle.std.specs.Prelude.{if◌then◌else◌};
ghost use Rattle.std.specs.List.{list_any, list_all};
ghost use Rattle.std.specs.Char.{is_ascii_digit};
ghost use Rattle.std.specs.Str.{str_eq_ignore_ascii_case};
ghost use Rattle.std.specs.Str.Parse.{digits_value};
ghost use Rattle.httparse.specs.Spans.{IsHeaderWithin, header_bytes};
ghost use Rattle.desk_request.specs.Framing.{is_named, is_close, length_said};
ghost use Rattle.desk_request.specs.Framing.{length_by, values_named, content_length, body_length};

use httparse::spans::{HeaderSpan, Span};

/// The most bytes that a body may have.
pub const MAX_BODY: usize = 1_048_576;

// More digits than a length that is allowed may have write no such length.
const MAX_DIGITS: usize = 7;

fn is_same_text(one: &[u8], other: &[u8]) -> bool
    ensures { result ≡ str_eq_ignore_ascii_case one.now other.now }
{
    one.eq_ignore_ascii_case(other)
}

fn is_named(bytes: &[u8], header: &HeaderSpan, name: &[u8]) -> bool
    requires { IsHeaderWithin (length bytes.now) header.now }
    ensures { result ≡ is_named name.now (header_bytes bytes.now header.now) }
{
    is_same_text(header.name.of(bytes), name)
}

fn is_close(bytes: &[u8], header: &HeaderSpan) -> bool
    requires { IsHeaderWithin (length bytes.now) header.now }
    ensures { result ≡ is_close (header_bytes bytes.now header.now) }
{
    is_named(bytes, header, b"connection") && is_same_text(header.value.of(bytes), b"close")
}

/// Whether the headers say that the connection ends behind the reply.
pub fn says_close(bytes: &[u8], headers: &[HeaderSpan]) -> bool
    requires { All (IsHeaderWithin (length bytes.now)) headers.now }
    ensures { result ≡ list_any (λ header. is_close (header_bytes bytes.now header)) headers.now }
{
    headers.iter().any(|header| is_close(bytes, header))
}

fn has_named(bytes: &[u8], headers: &[HeaderSpan], name: &[u8]) -> bool
    requires { All (IsHeaderWithin (length bytes.now)) headers.now }
    ensures { result ≡ list_any (λ header. is_named name.now (header_bytes bytes.now header))
        headers.now }
{
    headers.iter().any(|header| is_named(bytes, header, name))
}

// The number that digits write, at most 7 of them.
fn number_of(digits: &[u8]) -> Option<usize>
    requires { length digits.now ≤ 7 }
    ensures { result ≡ (if list_all is_ascii_digit digits.now
        then Some (digits_value 10 digits.now) else None) }
{
    let mut number = 0;
    for digit in digits {
        if !digit.is_ascii_digit() {
            return None;
        }
        number = number * 10 + (*digit - b'0') as usize;
    }
    Some(number)
}

fn length_said(value: &[u8]) -> Option<usize>
    ensures { result ≡ length_said value.now }
{
    if value.is_empty() || value.len() > MAX_DIGITS {
        return None;
    }
    let number = number_of(value)?;
    if number > MAX_BODY {
        return None;
    }
    Some(number)
}

// The lengths that Content-Length headers say together.
fn length_by(bytes: &[u8], headers: &[HeaderSpan]) -> Option<usize>
    requires { All (IsHeaderWithin (length bytes.now)) headers.now }
    ensures { result ≡ length_by
        (values_named content_length (map (header_bytes bytes.now) headers.now)) }
{
    let mut said: Option<Span> = None;
    for header in headers {
        if is_named(bytes, header, b"content-length") {
            if said.is_some() {
                return None;
            }
            said = Some(header.value);
        }
    }
    match said {
        None => Some(0),
        Some(value) => length_said(value.of(bytes)),
    }
}

#[tactic(auto, using(crate::proofs::Headers::any_of_map))]
/// How many bytes the body has that the headers announce; none, where they announce none that is
/// allowed.
pub fn body_length(bytes: &[u8], headers: &[HeaderSpan]) -> Option<usize>
    requires { All (IsHeaderWithin (length bytes.now)) headers.now }
    ensures { result ≡ body_length (map (header_bytes bytes.now) headers.now) }
{
    if has_named(bytes, headers, b"transfer-encoding") {
        return None;
    }
    length_by(bytes, headers)
}
