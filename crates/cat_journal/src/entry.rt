//! How an entry is spelled.

ghost use Rattle.std.specs.Prelude.{◌≡◌, ◌+◌, ◌<◌, ◌^◌, [], ◌∷◌, ◌++◌, length};
ghost use Rattle.sha2.specs.Sha256.{sha256};
ghost use Rattle.cat_journal.specs.Contents.{is_part};
ghost use Rattle.cat_journal.specs.Layout.{entry_fields, entry_text};

use crate::digest::DIGEST_SIZE;
use crate::head::FORM;
use byteorder::{BigEndian, ByteOrder};
use sha2::{Digest, Sha256};

/// The letter that opens an entry.
pub(crate) const ENTRY_GATE: u8 = b'E';

/// Where an entry's bytes begin, behind its number and its length.
pub(crate) const BYTES_PLACE: usize = 12;

/// The bytes that an entry has besides its own, with its gate or with the next one.
pub(crate) const FRAME_SIZE: usize = 1 + BYTES_PLACE + DIGEST_SIZE;

/// The byte of an entry's bytes that tells a part, in a file of form 2.
const KIND_PLACE: usize = 8;

/// What it is there.
const PART_KIND: u8 = 14;

/// Whether an entry with these bytes is a part, in a file of that form.
pub(crate) fn is_part(form: u8, bytes: &[u8]) -> bool
    ensures { result ≡ is_part form bytes.now }
{
    form == FORM && bytes.len() > KIND_PLACE && bytes[KIND_PLACE] == PART_KIND
}

/// Spells an entry behind its gate, and the next gate, closed.
pub(crate) fn spell_entry(number: u64, bytes: &[u8], into: &mut [u8])
    requires short { length bytes.now < 2 ^ 32 }
    requires room { length into.old ≡ 45 + length bytes.now }
    ensures { into.new ≡ entry_text number bytes.now ++ 0 ∷ [] }
{
    let (fields, behind) = into.split_at_mut(BYTES_PLACE + bytes.len());
    spell_fields(number, bytes, fields);
    spell_end(fields, behind);
}

// Spells what the digest of an entry is of.
fn spell_fields(number: u64, bytes: &[u8], into: &mut [u8])
    requires short { length bytes.now < 2 ^ 32 }
    requires room { length into.old ≡ 12 + length bytes.now }
    ensures { into.new ≡ entry_fields number bytes.now }
{
    BigEndian::write_u64(into, number);
    BigEndian::write_u32(&mut into[8..], bytes.len() as u32);
    into[BYTES_PLACE..].copy_from_slice(bytes);
}

// Spells the digest of an entry's fields, and the next gate, closed.
fn spell_end(fields: &[u8], into: &mut [u8])
    requires { length into.old ≡ 33 }
    ensures { into.new ≡ sha256 fields.now ++ 0 ∷ [] }
{
    let digest = Sha256::digest(fields);
    let (room, gate) = into.split_at_mut(DIGEST_SIZE);
    room.copy_from_slice(&digest);
    gate[0] = 0;
}
