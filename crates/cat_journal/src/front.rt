//! Reads the front of a file: its head, and the snapshot behind it.

ghost use Rattle.std.specs.Prelude.{◌≡◌, ◌≤◌, ◌+◌, ◌↔◌, take, drop, length, replicate, slice_index};
ghost use Rattle.std.specs.Prelude.{IfOk, IfSome, IfNone, IsTrue};
ghost use Rattle.room_base.specs.Outside.{Told};
ghost use Rattle.room_disk.specs.Disk.{Quiet};
ghost use Rattle.cat_journal.specs.Layout.{HasForm};
ghost use Rattle.cat_journal.specs.Reads.{ReadCause};
ghost use Rattle.cat_journal.specs.Heads.{IsHeadText, file_head, FindsHead, IsFileHead};
ghost use Rattle.cat_journal.specs.Heads.{HasFileHead, FindsSnapshot, ChecksSnapshot, DigestsPart};

use crate::digest::{DIGEST_SIZE, has_digest, same_digest};
use crate::head::{FIELDS_SIZE, FILE_GATE, FORM, FRONT_SIZE};
use crate::reading::{PIECE_SIZE, ReadFault, read_whole};
use byteorder::{BigEndian, ByteOrder};
use room_base::{Failed, Items};
use room_disk::Store;
use sha2::{Digest, Sha256};
use std::alloc::Global;

/// The head of an open file that has `end` bytes: its fields are allowed, and its snapshot, of
/// `size` bytes, ends in the file. Whether the digest is that of the fields and the snapshot is to
/// be judged yet.
#[derive(Clone, Copy)]
pub(crate) struct FileHead {
    pub(crate) form: u8,
    pub(crate) generation: u64,
    pub(crate) number: u64,
    pub(crate) size: u64,
    pub(crate) end: u64,
    pub(crate) fields: [u8; FIELDS_SIZE],
    pub(crate) digest: [u8; DIGEST_SIZE],
}

/// What the front of a file is: its gate is closed, or open before a head, or before none.
#[derive(Clone, Copy)]
pub(crate) enum FrontRead {
    Shut,
    Open(FileHead),
    Bad,
}

/// The first form of files, which can't tell parts.
const FIRST_FORM: u8 = 1;

/// Reads the head of a file.
pub(crate) fn read_front<D: Store>(store: &mut D, file: u32) -> Result<FrontRead, ReadFault>
    ensures head { IfOk result HasFileHead }
    ensures cause { ReadCause file (D.view store.old) (D.view store.new) result }
    ensures tells { (D.view store.new).tells ≡ (D.view store.old).tells }
    ensures quiet { Told (D.view store.old).tells (Quiet (D.view store.old) (D.view store.new)) }
    ensures found { Told (D.view store.old).tells (IfOk result
        (FindsHead (take 64 ((D.view store.old).reads file))
        (length ((D.view store.old).reads file)))) }
{
    let end = length_of(store, file)?;
    let mut text = [0; FRONT_SIZE as usize];
    match store.read_at(file, 0, &mut text) {
        Ok(count) => Ok(front_in(&text[..count as usize], end)),
        Err(Failed) => Err(ReadFault::Failed { file }),
    }
}

fn length_of<D: Store>(store: &mut D, file: u32) -> Result<u64, ReadFault>
    ensures cause { ReadCause file (D.view store.old) (D.view store.new) result }
    ensures tells { (D.view store.new).tells ≡ (D.view store.old).tells }
    ensures quiet { Told (D.view store.old).tells (Quiet (D.view store.old) (D.view store.new)) }
    ensures length { Told (D.view store.old).tells (IfOk result
        (λ end. end ≡ length ((D.view store.old).reads file))) }
{
    match store.len(file) {
        Ok(end) => Ok(end),
        Err(Failed) => Err(ReadFault::Failed { file }),
    }
}

// The front that the first bytes of a file are.
fn front_in(text: &[u8], end: u64) -> FrontRead
    requires { length text.now ≤ 64 }
    ensures found { FindsHead text.now end result }
    ensures head { HasFileHead result }
{
    match text {
        [FILE_GATE, ..] => match open_head(text, end) {
            Some(head) => FrontRead::Open(head),
            None => FrontRead::Bad,
        },
        _ => FrontRead::Shut,
    }
}

// The head behind an open gate.
fn open_head(text: &[u8], end: u64) -> Option<FileHead>
    requires { length text.now ≤ 64 }
    ensures found { IfSome result
        (λ head. IsHeadText text.now end × (head ≡ file_head text.now end)) }
    ensures none { IfNone result (¬ IsHeadText text.now end) }
    ensures allowed { IfSome result IsFileHead }
{
    if text.len() < FRONT_SIZE as usize || !has_zeros(text) {
        return None;
    }
    let head = head_in(text, end);
    if !has_form(head.form, head.generation) || end < FRONT_SIZE || end - FRONT_SIZE < head.size {
        return None;
    }
    Some(head)
}

// The fields of a head, whatever they are.
fn head_in(text: &[u8], end: u64) -> FileHead
    requires { length text.now ≡ 64 }
    ensures { result ≡ file_head text.now end }
{
    let mut fields = [0; FIELDS_SIZE];
    fields.copy_from_slice(&text[1..1 + FIELDS_SIZE]);
    let mut digest = [0; DIGEST_SIZE];
    digest.copy_from_slice(&text[1 + FIELDS_SIZE..]);
    FileHead {
        form: text[1],
        generation: BigEndian::read_u64(&text[8..]),
        number: BigEndian::read_u64(&text[16..]),
        size: BigEndian::read_u64(&text[24..]),
        end,
        fields,
        digest,
    }
}

fn has_zeros(text: &[u8]) -> bool
    requires { length text.now ≡ 64 }
    ensures { IsTrue result ↔ (take 6 (drop 2 text.now) ≡ replicate 6 0) }
{
    text[2..8] == [0; 6]
}

fn has_form(form: u8, generation: u64) -> bool
    ensures { IsTrue result ↔ (HasForm form generation × (1 ≤ generation)) }
{
    generation >= 1 && (form == FORM || form == FIRST_FORM && generation < 1 << 63)
}

/// Reads the snapshot behind a head, if the digest is that of both.
pub(crate) fn read_snapshot<D: Store>(
    alloc: Global,
    store: &mut D,
    file: u32,
    head: &FileHead,
) -> Result<Option<Items<u8>>, ReadFault>
    ensures size { IfOk result (λ found.
        IfSome found (λ snapshot. length snapshot ≡ head.now.size)) }
    ensures cause { ReadCause file (D.view store.old) (D.view store.new) result }
    ensures tells { (D.view store.new).tells ≡ (D.view store.old).tells }
    ensures quiet { Told (D.view store.old).tells (Quiet (D.view store.old) (D.view store.new)) }
    ensures found { Told (D.view store.old).tells
        (IfOk result (FindsSnapshot ((D.view store.old).reads file) head.now)) }
{
    let mut snapshot = Vec::new(alloc);
    snapshot.resize(head.size as usize, 0)?;
    if !read_whole(store, file, FRONT_SIZE, &mut snapshot)? {
        return Ok(None);
    }
    if !has_digest(&head.fields, &snapshot, &head.digest) {
        return Ok(None);
    }
    Ok(Some(Items::of(snapshot)))
}

/// Whether the digest is that of the head and the snapshot behind it, of which only a piece is held
/// at a time.
pub(crate) fn check_snapshot<D: Store>(
    alloc: Global,
    store: &mut D,
    file: u32,
    head: &FileHead,
) -> Result<bool, ReadFault>
    requires { 64 + head.now.size ≤ head.now.end }
    ensures cause { ReadCause file (D.view store.old) (D.view store.new) result }
    ensures tells { (D.view store.new).tells ≡ (D.view store.old).tells }
    ensures quiet { Told (D.view store.old).tells (Quiet (D.view store.old) (D.view store.new)) }
    ensures found { Told (D.view store.old).tells
        (IfOk result (ChecksSnapshot ((D.view store.old).reads file) head.now)) }
{
    let mut piece = Vec::new(alloc);
    piece.resize(head.size.min(PIECE_SIZE as u64) as usize, 0)?;
    let mut hasher = Sha256::new();
    hasher.update(&head.fields);
    let mut done = 0;
    while done < head.size {
        let count = (head.size - done).min(PIECE_SIZE as u64) as usize;
        if !digest_part(
            store,
            file,
            FRONT_SIZE + done,
            &mut piece[..count],
            &mut hasher,
        )? {
            return Ok(false);
        }
        done += count as u64;
    }
    Ok(same_digest(&hasher.finalize(), &head.digest))
}

// Reads a part of a file and digests it, if it is there.
fn digest_part<D: Store>(
    store: &mut D,
    file: u32,
    at: u64,
    part: &mut [u8],
    hasher: &mut Sha256,
) -> Result<bool, ReadFault>
    ensures cause { ReadCause file (D.view store.old) (D.view store.new) result }
    ensures tells { (D.view store.new).tells ≡ (D.view store.old).tells }
    ensures quiet { Told (D.view store.old).tells (Quiet (D.view store.old) (D.view store.new)) }
    ensures size { length part.new ≡ length part.old }
    ensures digested { Told (D.view store.old).tells (IfOk result
        (DigestsPart ((D.view store.old).reads file) at (length part.old) hasher.old hasher.new)) }
{
    if !read_whole(store, file, at, part)? {
        return Ok(false);
    }
    hasher.update(part);
    Ok(true)
}
