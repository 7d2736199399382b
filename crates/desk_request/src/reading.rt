//! A request is read: its head into the buffer, its body into the place where it stays.

ghost use Rattle.std.specs.Prelude.{◌≡◌, ◌≤◌, ◌<◌, Err, OnErr, length, min, take, drop, vec_len};
ghost use Rattle.room_base.specs.Faults.{Rose};
ghost use Rattle.room_base.specs.Outside.{Told};
ghost use Rattle.desk_request.specs.Framing.{max_head};
ghost use Rattle.desk_request.specs.Heads.{HasNoHead, FindsHead};
ghost use Rattle.desk_request.specs.Reading.{ReadsOne};
ghost use Rattle.desk_request.specs.Steps.{TakesPiece, ReadsHead, EndsAs, Fills, ReadsBody};
ghost use Rattle.desk_request.specs.declared.fault.RequestFault.TheVariants.{ReadFault};

use crate::head::{Head, MAX_HEAD, find_head};
use crate::head_end::may_end;
use crate::{Request, RequestFault};
use room_base::Source;
use std::alloc::Global;

// The most bytes that are taken at once while a head isn't whole.
const PIECE: usize = 4_096;

/// Reads the next request: its bytes are those in the buffer, and then those that the source gives.
/// What is behind it stays in the buffer and in the source for the next call. `None` says that there
/// are no bytes any more. After `Bad` and `ReadFault` nothing can be read on: the bytes of a body that
/// ended too early aren't in the buffer. After `Memory` the call may be made again.
pub fn read_request<S: Source>(
    alloc: Global,
    source: &mut S,
    buffer: &mut Vec<u8>,
) -> Result<Option<Request>, RequestFault>
    ensures later { (S.view source.old).faults ≤ (S.view source.new).faults }
    ensures cause { result ≡ Err ReadFault
        → Rose (S.view source.old).faults (S.view source.new).faults }
    ensures tells { (S.view source.new).tells ≡ (S.view source.old).tells }
    ensures alone { S.takes_alone source.old source.new }
    ensures read { Told (S.view source.old).tells (ReadsOne (S.view source.old) (S.view source.new)
        buffer.old.items buffer.new.items result) }
{
    let Some(head) = read_head(alloc, source, buffer)? else {
        return Ok(None);
    };
    let body = read_body(alloc, source, buffer, head.len, head.body)?;
    let size = (head.len + head.body) as u64;
    Ok(Some(Request::new(head.method, head.target, head.close, body, size)))
}

// Takes bytes behind those in the buffer until these begin with the head of a request, or can't.
fn read_head<S: Source>(
    alloc: Global,
    source: &mut S,
    buffer: &mut Vec<u8>,
) -> Result<Option<Head>, RequestFault>
    ensures later { (S.view source.old).faults ≤ (S.view source.new).faults }
    ensures cause { result ≡ Err ReadFault
        → Rose (S.view source.old).faults (S.view source.new).faults }
    ensures tells { (S.view source.new).tells ≡ (S.view source.old).tells }
    ensures alone { S.takes_alone source.old source.new }
    ensures read { ReadsHead (S.view source.old) (S.view source.new)
        buffer.old.items buffer.new.items result }
{
    let mut searched = 0;
    'pieces: loop {
        if let Some(head) = search(alloc, buffer, searched)? {
            return Ok(Some(head));
        }
        if buffer.len() >= MAX_HEAD {
            return Err(RequestFault::Bad);
        }
        searched = buffer.len();
        if take_piece(source, buffer)? == 0 {
            return end_of(buffer);
        }
    }
}

// What the last bytes are that the source gave, where no head is among them.
fn end_of(bytes: &[u8]) -> Result<Option<Head>, RequestFault>
    ensures { EndsAs bytes.now result }
{
    if bytes.is_empty() {
        Ok(None)
    } else {
        Err(RequestFault::Bad)
    }
}

// Looks for a head, where the first `searched` bytes have none.
fn search(alloc: Global, bytes: &[u8], searched: usize) -> Result<Option<Head>, RequestFault>
    requires { HasNoHead (take searched bytes.now) }
    ensures found { FindsHead bytes.now result }
    ensures some { OnErr result (0 < length bytes.now) }
{
    if !may_end(bytes, searched) {
        return Ok(None);
    }
    find_head(alloc, bytes)
}

// Takes at most a piece, and no more than a head has room for. 0 says that the source has ended.
fn take_piece<S: Source>(source: &mut S, buffer: &mut Vec<u8>) -> Result<usize, RequestFault>
    requires { vec_len buffer.old < max_head }
    ensures later { (S.view source.old).faults ≤ (S.view source.new).faults }
    ensures cause { result ≡ Err ReadFault
        → Rose (S.view source.old).faults (S.view source.new).faults }
    ensures tells { (S.view source.new).tells ≡ (S.view source.old).tells }
    ensures alone { S.takes_alone source.old source.new }
    ensures piece { TakesPiece (S.view source.old) (S.view source.new)
        buffer.old.items buffer.new.items result }
{
    let had = buffer.len();
    buffer.resize((had + PIECE).min(MAX_HEAD), 0)?;
    let (_, space) = buffer.split_at_mut(had);
    match source.take(space) {
        Ok(count) => {
            let count = count as usize;
            buffer.truncate(had + count);
            Ok(count)
        }
        Err(_) => {
            buffer.truncate(had);
            Err(RequestFault::ReadFault)
        }
    }
}

// Takes the body behind the first `at` bytes of the buffer, and removes it and them.
fn read_body<S: Source>(
    alloc: Global,
    source: &mut S,
    buffer: &mut Vec<u8>,
    at: usize,
    count: usize,
) -> Result<Vec<u8>, RequestFault>
    requires { at ≤ vec_len buffer.old }
    ensures later { (S.view source.old).faults ≤ (S.view source.new).faults }
    ensures cause { result ≡ Err ReadFault
        → Rose (S.view source.old).faults (S.view source.new).faults }
    ensures tells { (S.view source.new).tells ≡ (S.view source.old).tells }
    ensures alone { S.takes_alone source.old source.new }
    ensures body { ReadsBody (λ body. body.items) (S.view source.old) (S.view source.new)
        buffer.old.items buffer.new.items at count result }
{
    let mut body = vec![in alloc; 0; count]?;
    let had = copy_front(&buffer[at..], &mut body);
    fill(source, &mut body, had)?;
    remove_front(buffer, at + had);
    Ok(body)
}

// Copies as much as there is and fits, and says how much that is.
fn copy_front(from: &[u8], into: &mut [u8]) -> usize
    ensures count { result ≡ min (length from.now) (length into.new) }
    ensures copied { take result into.new ≡ take result from.now }
{
    let count = from.len().min(into.len());
    into[..count].copy_from_slice(&from[..count]);
    count
}

// Takes bytes from the place on, until the list is full.
fn fill<S: Source>(source: &mut S, into: &mut [u8], from: usize) -> Result<(), RequestFault>
    requires { from ≤ length into.old }
    ensures later { (S.view source.old).faults ≤ (S.view source.new).faults }
    ensures cause { result ≡ Err ReadFault
        → Rose (S.view source.old).faults (S.view source.new).faults }
    ensures tells { (S.view source.new).tells ≡ (S.view source.old).tells }
    ensures alone { S.takes_alone source.old source.new }
    ensures fills { Fills (S.view source.old) (S.view source.new) into.old into.new from result }
{
    let mut at = from;
    while at < into.len() {
        let (_, space) = into.split_at_mut(at);
        let Ok(count) = source.take(space) else {
            return Err(RequestFault::ReadFault);
        };
        if count == 0 {
            return Err(RequestFault::Bad);
        }
        at += count as usize;
    }
    Ok(())
}

fn remove_front(list: &mut Vec<u8>, count: usize)
    requires { count ≤ vec_len list.old }
    ensures { list.new.items ≡ drop count list.old.items }
{
    let left = list.len() - count;
    list.rotate_left(count);
    list.truncate(left);
}
