//! Writes refusals, and says which status each has.

ghost use Rattle.std.specs.Prelude.{◌≡◌, map};
ghost use Rattle.std.specs.Ordering.{is_gt, nat_cmp};
ghost use Rattle.std.specs.Cmp.Lexicographic.{slice_cmp};
ghost use Rattle.json.specs.Tree.{json_tokens};
ghost use Rattle.room_base.specs.Refusals.{named_value, refusal_number};
ghost use Rattle.desk_reply.specs.Refused.{status_of_number, field_member, put_member};
ghost use Rattle.desk_reply.specs.Refused.{refusal_json, title_members};
ghost use Rattle.desk_reply.specs.Members.{member_of};
ghost use Rattle.desk_reply.specs.Writing.{Adds};

use crate::member::Value::{Number, Text};
use crate::member::{Member, Value, write_object};
use http::StatusCode;
use json::Writer;
use room_base::{Field, FieldValue, Fields, Refusal};
use std::alloc::AllocError;
use std::cmp::Ordering;

pub(crate) fn refusal_status(refusal: &Refusal) -> StatusCode
    ensures { result ≡ status_of_number (refusal_number refusal.now) }
{
    match refusal.number() {
        1 => StatusCode::BAD_REQUEST,
        2 | 9 | 28 => StatusCode::NOT_FOUND,
        25 | 26 => StatusCode::GONE,
        11 => StatusCode::PAYLOAD_TOO_LARGE,
        24 => StatusCode::INTERNAL_SERVER_ERROR,
        30 | 31 | 32 => StatusCode::SERVICE_UNAVAILABLE,
        _ => StatusCode::CONFLICT,
    }
}

pub(crate) fn write_refusal(out: &mut Writer, refusal: &Refusal) -> Result<(), AllocError>
    ensures { Adds result out.old out.new (json_tokens (refusal_json refusal.now)) }
{
    match refusal.fields() {
        Fields::None => write_object(out, &title(refusal)),
        Fields::One(field) => write_object(out, &put_among_two(member(field), title(refusal))),
        Fields::Two(first, second) => {
            let members = put_among_two(member(second), title(refusal));
            write_object(out, &put_among_three(member(first), members))
        }
    }
}

// The number and the name, which each refusal has.
fn title<'a>(refusal: &'a Refusal) -> [Member<'a>; 2]
    ensures { map member_of result ≡ title_members refusal.now }
{
    [
        Member("no", Number(u64::from(refusal.number()))),
        Member("refusal", Text(refusal.name())),
    ]
}

fn member<'a>(field: Field<'a>) -> Member<'a>
    ensures { member_of result ≡ field_member (named_value field.entry) }
{
    let value = match field.value {
        FieldValue::Number(number) => Value::Number(number),
        FieldValue::Text(text) => Value::Text(text),
        FieldValue::Digest(digest) => Value::Digest(digest),
        FieldValue::Ssids(ssids) => Value::Ssids(ssids),
    };
    Member(field.name, value)
}

fn is_above(one: &Member<'_>, other: &Member<'_>) -> bool
    ensures { result ≡ is_gt (slice_cmp nat_cmp one.now.0.now other.now.0.now) }
{
    one.0.cmp(other.0) == Ordering::Greater
}

// The member before the first one whose key is greater.
fn put_among_two<'a>(member: Member<'a>, members: [Member<'a>; 2]) -> [Member<'a>; 3]
    ensures { map member_of result ≡ put_member (member_of member.entry)
        (map member_of members.entry) }
{
    let [first, second] = members;
    if is_above(&first, &member) {
        [member, first, second]
    } else if is_above(&second, &member) {
        [first, member, second]
    } else {
        [first, second, member]
    }
}

fn put_among_three<'a>(member: Member<'a>, members: [Member<'a>; 3]) -> [Member<'a>; 4]
    ensures { map member_of result ≡ put_member (member_of member.entry)
        (map member_of members.entry) }
{
    let [first, second, third] = members;
    if is_above(&first, &member) {
        return [member, first, second, third];
    }
    let [low, middle, high] = put_among_two(member, [second, third]);
    [first, low, middle, high]
}
