//! Makes a block where its payload stands: writes the zeros behind it, the head and the digest.

ghost use Rattle.std.specs.Prelude.{◌≡◌, ◌≤◌, ◌+◌, ◌++◌, length, take, drop};
ghost use Rattle.sha2.specs.Sha256.{sha256};
ghost use Rattle.volume_block.specs.Layout.{form_text, fields_text, head_text, with_digest};
ghost use Rattle.volume_block.specs.Layout.{block_text};

use crate::layout::{FORM_PLACE, HEAD_SIZE, PAYLOAD_START, UNITS_PLACE, USED_PLACE};
use crate::units::{form_byte, units_field};
use byteorder::{BigEndian, ByteOrder};
use sha2::{Digest, Sha256};

/// Makes a block of the first `used` bytes of the payload.
pub(crate) fn finish_block(
    kind: u8,
    units: u32,
    volid: u64,
    number: u64,
    used: u32,
    block: &mut [u8],
)
    requires units { units ≤ 16 }
    requires fits { 56 + used ≤ length block.old }
    ensures { block.new
        ≡ block_text kind units (length block.old) volid number (take used (drop 56 block.old)) }
{
    block[PAYLOAD_START + used as usize..].fill(0);
    write_head(kind, units, used, volid, number, block);
    write_digest(block);
}

// Writes the bytes before the digest.
fn write_head(kind: u8, units: u32, used: u32, volid: u64, number: u64, block: &mut [u8])
    requires whole { 56 ≤ length block.old }
    requires units { units ≤ 16 }
    ensures { block.new ≡ head_text kind units used volid number ++ drop 24 block.old }
{
    write_form(kind, units, block);
    write_fields(used, volid, number, &mut block[USED_PLACE..]);
}

// Writes the kind and the form.
fn write_form(kind: u8, units: u32, block: &mut [u8])
    requires whole { 4 ≤ length block.old }
    requires units { units ≤ 16 }
    ensures { block.new ≡ form_text kind units ++ drop 4 block.old }
{
    block[0] = kind;
    block[FORM_PLACE] = form_byte(units);
    BigEndian::write_u16(&mut block[UNITS_PLACE..], units_field(units));
}

// Writes the used length, the volid and the number.
fn write_fields(used: u32, volid: u64, number: u64, fields: &mut [u8])
    requires { 20 ≤ length fields.old }
    ensures { fields.new ≡ fields_text used volid number ++ drop 20 fields.old }
{
    BigEndian::write_u32(fields, used);
    BigEndian::write_u64(&mut fields[4..], volid);
    BigEndian::write_u64(&mut fields[12..], number);
}

// Writes the digest of the bytes before it and behind it.
fn write_digest(block: &mut [u8])
    requires { 56 ≤ length block.old }
    ensures { block.new ≡ with_digest (take 24 block.old) (drop 56 block.old) }
{
    let digest = digest_of(block);
    block[HEAD_SIZE..PAYLOAD_START].copy_from_slice(&digest);
}

/// The digest of a block's bytes, which are digested where they stand.
pub(crate) fn digest_of(block: &[u8]) -> [u8; 32]
    requires { 56 ≤ length block.now }
    ensures { result ≡ sha256 (take 24 block.now ++ drop 56 block.now) }
{
    let mut hasher = Sha256::new();
    hasher.update(&block[..HEAD_SIZE]);
    hasher.update(&block[PAYLOAD_START..]);
    hasher.finalize()
}
