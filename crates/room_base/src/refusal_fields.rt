//! What is said of a refusal: its number, its name, and its fields.

ghost use Rattle.std.specs.Prelude.{◌≡◌};
ghost use Rattle.room_base.specs.Refusals.{refusal_number, refusal_name, refusal_fields};
ghost use Rattle.room_base.specs.Refusals.{list_of_fields, value_of, kind_and_name, OfNumber};
ghost use Rattle.room_base.specs.Refusals.{OfText, OfDigest, OfSsids};

use crate::{Name, Refusal, Ssid};

/// What a field of a refusal says.
#[derive(Clone, Copy)]
pub enum FieldValue<'a> {
    Number(u64),
    Text(&'a str),
    Digest(&'a [u8; 32]),
    Ssids(&'a [Ssid]),
}

/// A field of a refusal, with the name that scripts know it by.
#[derive(Clone, Copy)]
pub struct Field<'a> {
    pub name: &'static str,
    pub value: FieldValue<'a>,
}

/// The fields of a refusal, of which there are at most two.
#[derive(Clone, Copy)]
pub enum Fields<'a> {
    None,
    One(Field<'a>),
    Two(Field<'a>, Field<'a>),
}

impl Refusal {
    /// The number by which scripts know it, from 1 to 32.
    pub fn number(&self) -> u8
        ensures { result ≡ refusal_number self.now }
    {
        match self {
            Refusal::Malformed { .. } => 1,
            Refusal::NoSuch { .. } => 2,
            Refusal::Exists { .. } => 3,
            Refusal::InUse { .. } => 4,
            Refusal::Skipped { .. } => 5,
            Refusal::SetBusy { .. } => 6,
            Refusal::NeedVolume { .. } => 7,
            Refusal::SessionsFull { .. } => 8,
            Refusal::NotOpen { .. } => 9,
            Refusal::Gap { .. } => 10,
            Refusal::PieceTooLong { .. } => 11,
            Refusal::BadStream { .. } => 12,
            Refusal::NotEnded { .. } => 13,
            Refusal::WrongLength { .. } => 14,
            Refusal::WrongDigest { .. } => 15,
            Refusal::SlotEmpty { .. } => 16,
            Refusal::DriveBusy { .. } => 17,
            Refusal::Unlabelled { .. } => 18,
            Refusal::Strange { .. } => 19,
            Refusal::LabelPending { .. } => 20,
            Refusal::Mounted { .. } => 21,
            Refusal::Needed { .. } => 22,
            Refusal::Offsite { .. } => 23,
            Refusal::DamagedBlock { .. } => 24,
            Refusal::Purged { .. } => 25,
            Refusal::BaseGone { .. } => 26,
            Refusal::HasCopy { .. } => 27,
            Refusal::NoFile { .. } => 28,
            Refusal::TooMany { .. } => 29,
            Refusal::DeviceFault { .. } => 30,
            Refusal::JournalFault => 31,
            Refusal::NoMemory => 32,
        }
    }

    /// Its name, as of its variant.
    pub fn name(&self) -> &'static str
        ensures { result.now ≡ refusal_name self.now }
    {
        match self {
            Refusal::Malformed { .. } => "Malformed",
            Refusal::NoSuch { .. } => "NoSuch",
            Refusal::Exists { .. } => "Exists",
            Refusal::InUse { .. } => "InUse",
            Refusal::Skipped { .. } => "Skipped",
            Refusal::SetBusy { .. } => "SetBusy",
            Refusal::NeedVolume { .. } => "NeedVolume",
            Refusal::SessionsFull { .. } => "SessionsFull",
            Refusal::NotOpen { .. } => "NotOpen",
            Refusal::Gap { .. } => "Gap",
            Refusal::PieceTooLong { .. } => "PieceTooLong",
            Refusal::BadStream { .. } => "BadStream",
            Refusal::NotEnded { .. } => "NotEnded",
            Refusal::WrongLength { .. } => "WrongLength",
            Refusal::WrongDigest { .. } => "WrongDigest",
            Refusal::SlotEmpty { .. } => "SlotEmpty",
            Refusal::DriveBusy { .. } => "DriveBusy",
            Refusal::Unlabelled { .. } => "Unlabelled",
            Refusal::Strange { .. } => "Strange",
            Refusal::LabelPending { .. } => "LabelPending",
            Refusal::Mounted { .. } => "Mounted",
            Refusal::Needed { .. } => "Needed",
            Refusal::Offsite { .. } => "Offsite",
            Refusal::DamagedBlock { .. } => "DamagedBlock",
            Refusal::Purged { .. } => "Purged",
            Refusal::BaseGone { .. } => "BaseGone",
            Refusal::HasCopy { .. } => "HasCopy",
            Refusal::NoFile { .. } => "NoFile",
            Refusal::TooMany { .. } => "TooMany",
            Refusal::DeviceFault { .. } => "DeviceFault",
            Refusal::JournalFault => "JournalFault",
            Refusal::NoMemory => "NoMemory",
        }
    }

    /// Its fields, in the order in which they are written.
    pub fn fields(&self) -> Fields<'_>
        ensures { list_of_fields result ≡ refusal_fields self.now }
    {
        match self {
            Refusal::Malformed { field } => Fields::One(text("field", field)),
            Refusal::NoSuch { kind, name } => kind_and_name(kind, name),
            Refusal::Exists { kind, name } => kind_and_name(kind, name),
            Refusal::InUse { kind, name } => kind_and_name(kind, name),
            Refusal::Skipped { day } => Fields::One(number("day", u64::from(*day))),
            Refusal::SetBusy { ssid } => Fields::One(number("ssid", ssid.0)),
            Refusal::NeedVolume { pool } => Fields::One(text("pool", pool)),
            Refusal::SessionsFull { limit } => Fields::One(number("limit", *limit)),
            Refusal::NotOpen { ssid } => Fields::One(number("ssid", ssid.0)),
            Refusal::Gap { expected } => Fields::One(number("expected", *expected)),
            Refusal::PieceTooLong { limit } => Fields::One(number("limit", *limit)),
            Refusal::BadStream { offset } => Fields::One(number("offset", *offset)),
            Refusal::NotEnded { offset } => Fields::One(number("offset", *offset)),
            Refusal::WrongLength { kept } => Fields::One(number("kept", *kept)),
            Refusal::WrongDigest { kept } => Fields::One(digest("kept", kept)),
            Refusal::SlotEmpty { slot } => Fields::One(number("slot", u64::from(*slot))),
            Refusal::DriveBusy { drive, volid } => Fields::Two(
                number("drive", u64::from(*drive)),
                number("volid", volid.0),
            ),
            Refusal::Unlabelled { cart } => Fields::One(number("cart", u64::from(cart.0))),
            Refusal::Strange { volid } => Fields::One(number("volid", volid.0)),
            Refusal::LabelPending { volid, found } => {
                Fields::Two(number("volid", volid.0), number("found", found.0))
            }
            Refusal::Mounted { drive } => Fields::One(number("drive", u64::from(*drive))),
            Refusal::Needed { ssid } => Fields::One(number("ssid", ssid.0)),
            Refusal::Offsite { volid } => Fields::One(number("volid", volid.0)),
            Refusal::DamagedBlock { volid, block } => {
                Fields::Two(number("volid", volid.0), number("block", *block))
            }
            Refusal::Purged { ssid } => Fields::One(number("ssid", ssid.0)),
            Refusal::BaseGone { ssid } => Fields::One(number("ssid", ssid.0)),
            Refusal::HasCopy { volid } => Fields::One(number("volid", volid.0)),
            Refusal::NoFile { path } => Fields::One(text("path", path)),
            Refusal::TooMany { limit } => Fields::One(number("limit", *limit)),
            Refusal::DeviceFault { file, closed } => Fields::Two(
                number("file", u64::from(*file)),
                ssids("closed", closed.as_slice()),
            ),
            Refusal::JournalFault => Fields::None,
            Refusal::NoMemory => Fields::None,
        }
    }
}

fn number(name: &'static str, number: u64) -> Field<'static>
    ensures name { result.name.now ≡ name.now }
    ensures value { value_of result.value ≡ OfNumber number }
{
    Field {
        name,
        value: FieldValue::Number(number),
    }
}

fn text<'a>(name: &'static str, text: &'a Name) -> Field<'a>
    ensures name { result.name.now ≡ name.now }
    ensures value { value_of result.value ≡ OfText text.now }
{
    Field {
        name,
        value: FieldValue::Text(text.as_str()),
    }
}

fn digest<'a>(name: &'static str, digest: &'a [u8; 32]) -> Field<'a>
    ensures name { result.name.now ≡ name.now }
    ensures value { value_of result.value ≡ OfDigest digest.now }
{
    Field {
        name,
        value: FieldValue::Digest(digest),
    }
}

fn ssids<'a>(name: &'static str, ssids: &'a [Ssid]) -> Field<'a>
    ensures name { result.name.now ≡ name.now }
    ensures value { value_of result.value ≡ OfSsids ssids.now }
{
    Field {
        name,
        value: FieldValue::Ssids(ssids),
    }
}

// A kind of thing, and the name of one.
fn kind_and_name<'a>(kind: &'a Name, name: &'a Name) -> Fields<'a>
    ensures { list_of_fields result ≡ kind_and_name kind.now name.now }
{
    Fields::Two(text("kind", kind), text("name", name))
}
