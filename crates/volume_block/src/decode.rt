//! Reads blocks. None of these functions takes memory.

ghost use Rattle.std.specs.Prelude.{◌≡◌, ◌≤◌, ◌+◌, ◌↔◌, length, All, IsTrue, MatchOption};
ghost use Rattle.std.specs.Prelude.{MatchResult};
ghost use Rattle.volume_block.specs.Layout.{IsUnits, data_size};
ghost use Rattle.volume_block.specs.Why.{IsKindAt, HasForm, HasLength, IsPadded, HasDigest};
ghost use Rattle.volume_block.specs.Why.{volid_in, number_in, used_in, payload_in, AreRightBelow};
ghost use Rattle.volume_block.specs.Why.{IsPayload, SaysBlock, Why};
ghost use Rattle.volume_block.specs.Valid.{ValidBlock};

use crate::block::{BadBlock, Block, Reason};
use crate::chunks::are_chunks;
use crate::label::Label;
use crate::layout::{
    DATA_KIND, HEAD_SIZE, LABEL_KIND, MARK_KIND, NUMBER_PLACE, PAYLOAD_START, VOLID_PLACE,
    used_length,
};
use crate::payload::{label_in, mark_count};
use crate::sealing::digest_of;
use crate::units::{block_size, has_form, units_in};
use byteorder::{BigEndian, ByteOrder};
use room_base::Volid;

/// Reads the block with this number of this volume. Of several wrong parts the first is named.
pub fn decode_block(bytes: &[u8], volid: Volid, number: u64) -> Result<Block, BadBlock>
    requires { 4096 ≤ length bytes.now }
    ensures decoded { MatchResult result (ValidBlock bytes.now volid.0 number)
        (λ bad. Why bytes.now volid.0 number bad.why) }
    ensures only { (block : Block) → ValidBlock bytes.now volid.0 number block → result ≡ Ok block }
{
    if let Some(why) = fault_before_payload(bytes, volid, number) {
        return Err(BadBlock { why });
    }
    match block_in(bytes[0], units_in(bytes), volid, payload_of(bytes)) {
        Some(block) => Ok(block),
        None => Err(BadBlock {
            why: Reason::Payload,
        }),
    }
}

/// Reads the label of a volume whose volid is not known before.
pub fn decode_label(bytes: &[u8]) -> Result<Label, BadBlock>
    requires { length bytes.now ≡ 4096 }
    ensures decoded { MatchResult result
        (λ label. ValidBlock bytes.now label.volid.0 0 (Block.Label label))
        (λ bad. Why bytes.now (volid_in bytes.now) 0 bad.why) }
    ensures only { (label : Label) → ValidBlock bytes.now label.volid.0 0 (Block.Label label)
        → result ≡ Ok label }
{
    let volid = Volid(BigEndian::read_u64(&bytes[VOLID_PLACE..]));
    if let Some(why) = fault_before_payload(bytes, volid, 0) {
        return Err(BadBlock { why });
    }
    match label_in(units_in(bytes), volid, payload_of(bytes)) {
        Some(label) => Ok(label),
        None => Err(BadBlock {
            why: Reason::Payload,
        }),
    }
}

// The block that a payload says behind a head of this kind.
fn block_in(kind: u8, units: u32, volid: Volid, payload: &[u8]) -> Option<Block>
    requires units { IsUnits units }
    requires volume { 1 ≤ volid.0 }
    requires fits { (kind ≡ 0x44) → 56 + length payload.now ≤ data_size units }
    ensures { MatchOption result (¬ IsPayload kind units volid.0 payload.now)
        (SaysBlock kind units volid.0 payload.now) }
{
    match kind {
        LABEL_KIND => Some(Block::Label(label_in(units, volid, payload)?)),
        MARK_KIND => Some(Block::Mark {
            count: mark_count(payload)?,
            units,
        }),
        DATA_KIND if are_chunks(payload) => Some(Block::Data {
            used: payload.len() as u32,
            units,
        }),
        _ => None,
    }
}

// The used bytes of the payload.
fn payload_of(bytes: &[u8]) -> &[u8]
    requires { 56 + used_in bytes.now ≤ length bytes.now }
    ensures { result.now ≡ payload_in bytes.now }
{
    let used = used_length(bytes) as usize;
    &bytes[PAYLOAD_START..PAYLOAD_START + used]
}

fn is_kind_at(kind: u8, number: u64) -> bool
    ensures { IsTrue result ↔ IsKindAt kind number }
{
    if number == 0 {
        kind == LABEL_KIND
    } else {
        kind == MARK_KIND || kind == DATA_KIND
    }
}

// Whether the block has the size of its kind and units, and zeros behind its payload.
fn has_length(bytes: &[u8]) -> bool
    requires whole { 4096 ≤ length bytes.now }
    requires form { HasForm bytes.now }
    ensures { IsTrue result ↔ HasLength bytes.now }
{
    bytes.len() == block_size(bytes[0], units_in(bytes)) && is_padded(bytes)
}

fn is_padded(bytes: &[u8]) -> bool
    requires { 4096 ≤ length bytes.now }
    ensures { IsTrue result ↔ IsPadded bytes.now }
{
    let used = used_length(bytes) as usize;
    used <= bytes.len() - PAYLOAD_START && are_zeros(&bytes[PAYLOAD_START + used..])
}

// Whether the first byte is zero, and each other byte the same as the one before it: the slices are
// compared many bytes at a time.
fn are_zeros(bytes: &[u8]) -> bool
    ensures { IsTrue result ↔ All (λ byte. byte ≡ 0) bytes.now }
{
    match bytes {
        [] => true,
        [first, rest @ ..] => *first == 0 && rest == &bytes[..rest.len()],
    }
}

fn has_digest(bytes: &[u8]) -> bool
    requires { 56 ≤ length bytes.now }
    ensures { IsTrue result ↔ HasDigest bytes.now }
{
    let digest = digest_of(bytes);
    &bytes[HEAD_SIZE..PAYLOAD_START] == digest.as_slice()
}

fn has_volid(bytes: &[u8], volid: Volid) -> bool
    requires { 24 ≤ length bytes.now }
    ensures { IsTrue result ↔ ((volid_in bytes.now ≡ volid.0) × (1 ≤ volid.0)) }
{
    BigEndian::read_u64(&bytes[VOLID_PLACE..]) == volid.0 && volid.0 >= 1
}

fn has_number(bytes: &[u8], number: u64) -> bool
    requires { 24 ≤ length bytes.now }
    ensures { IsTrue result ↔ (number_in bytes.now ≡ number) }
{
    BigEndian::read_u64(&bytes[NUMBER_PLACE..]) == number
}

// The first wrong part before the payload.
fn fault_before_payload(bytes: &[u8], volid: Volid, number: u64) -> Option<Reason>
    requires { 4096 ≤ length bytes.now }
    ensures { MatchOption result (AreRightBelow 6 bytes.now volid.0 number)
        (Why bytes.now volid.0 number) }
{
    if !is_kind_at(bytes[0], number) {
        Some(Reason::Kind)
    } else if !has_form(bytes) {
        Some(Reason::Form)
    } else if !has_volid(bytes, volid) {
        Some(Reason::Volid)
    } else if !has_number(bytes, number) {
        Some(Reason::Number)
    } else if !has_length(bytes) {
        Some(Reason::Length)
    } else if !has_digest(bytes) {
        Some(Reason::Digest)
    } else {
        None
    }
}
