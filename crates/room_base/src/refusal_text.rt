//! Writes what is said of a refusal, without taking memory.

ghost use Rattle.std.specs.Fmt.{decimal};
ghost use Rattle.std.specs.List.{flat_map};
ghost use Rattle.hex.specs.Hex.{encode_lower};
ghost use Rattle.room_base.specs.Outside.{WritesText};
ghost use Rattle.room_base.specs.Refusals.{value_of, named_value, list_of_fields, field_text};
ghost use Rattle.room_base.specs.Refusals.{value_text, ssids_text, ssid_behind, title_text};
ghost use Rattle.room_base.specs.Refusals.{refusal_text};

use crate::refusal_fields::{Field, FieldValue, Fields};
use crate::{Failed, Refusal, Sink, Ssid, write_parts};
use itoa::Buffer;

/// Writes a refusal's number, its name, and ` field=value` for each of its fields, with no line
/// end. A digest is written in hexadecimal digits, a list of sessions with commas between. After
/// `Failed` a front of the text has been written.
pub fn write_refusal<W: Sink>(sink: &mut W, refusal: &Refusal) -> Result<(), Failed>
    ensures { WritesText (refusal_text refusal.now) (W.view sink.old) (W.view sink.new) result }
{
    write_title(sink, refusal)?;
    write_fields(sink, &refusal.fields())
}

fn write_title<W: Sink>(sink: &mut W, refusal: &Refusal) -> Result<(), Failed>
    ensures { WritesText (title_text refusal.now) (W.view sink.old) (W.view sink.new) result }
{
    let mut digits = Buffer::new();
    let number = digits.format(refusal.number());
    write_parts(sink, &[number.as_bytes(), b" ", refusal.name().as_bytes()])
}

fn write_fields<W: Sink>(sink: &mut W, fields: &Fields<'_>) -> Result<(), Failed>
    ensures { WritesText (flat_map field_text (list_of_fields fields.now)) (W.view sink.old)
        (W.view sink.new) result }
{
    match fields {
        Fields::None => write_parts(sink, &[]),
        Fields::One(field) => write_field(sink, field),
        Fields::Two(first, second) => {
            write_field(sink, first)?;
            write_field(sink, second)
        }
    }
}

fn write_field<W: Sink>(sink: &mut W, field: &Field<'_>) -> Result<(), Failed>
    ensures { WritesText (field_text (named_value field.now)) (W.view sink.old)
        (W.view sink.new) result }
{
    write_parts(sink, &[b" ", field.name.as_bytes(), b"="])?;
    write_value(sink, &field.value)
}

fn write_value<W: Sink>(sink: &mut W, value: &FieldValue<'_>) -> Result<(), Failed>
    ensures { WritesText (value_text (value_of value.now)) (W.view sink.old)
        (W.view sink.new) result }
{
    match value {
        FieldValue::Number(number) => write_number(sink, *number),
        FieldValue::Text(text) => write_parts(sink, &[text.as_bytes()]),
        FieldValue::Digest(digest) => write_digest(sink, digest),
        FieldValue::Ssids(ssids) => write_ssids(sink, ssids),
    }
}

fn write_number<W: Sink>(sink: &mut W, number: u64) -> Result<(), Failed>
    ensures { WritesText (decimal number) (W.view sink.old) (W.view sink.new) result }
{
    let mut digits = Buffer::new();
    write_parts(sink, &[digits.format(number).as_bytes()])
}

fn write_digest<W: Sink>(sink: &mut W, digest: &[u8; 32]) -> Result<(), Failed>
    ensures { WritesText (encode_lower digest.now) (W.view sink.old) (W.view sink.new) result }
{
    let mut digits = [0; 64];
    let _ = hex::encode_to_slice(digest, &mut digits);
    write_parts(sink, &[&digits])
}

fn write_ssids<W: Sink>(sink: &mut W, ssids: &[Ssid]) -> Result<(), Failed>
    ensures { WritesText (ssids_text ssids.now) (W.view sink.old) (W.view sink.new) result }
{
    match ssids {
        [] => write_parts(sink, &[]),
        [first, others @ ..] => {
            write_number(sink, first.0)?;
            write_other_ssids(sink, others)
        }
    }
}

// Writes a comma and a number for each.
fn write_other_ssids<W: Sink>(sink: &mut W, ssids: &[Ssid]) -> Result<(), Failed>
    ensures { WritesText (flat_map ssid_behind ssids.now) (W.view sink.old)
        (W.view sink.new) result }
{
    for ssid in ssids {
        let mut digits = Buffer::new();
        write_parts(sink, &[b",", digits.format(ssid.0).as_bytes()])?;
    }
    Ok(())
}
