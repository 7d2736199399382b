//! How the front of a file is spelled.

ghost use Rattle.std.specs.Prelude.{◌≡◌};
ghost use Rattle.cat_journal.specs.Layout.{head_text};

use byteorder::{BigEndian, ByteOrder};

/// The letter that opens a file.
pub(crate) const FILE_GATE: u8 = b'J';

/// The form of every new file.
pub(crate) const FORM: u8 = 2;

/// The bytes of a head between the gate and the digest.
pub(crate) const FIELDS_SIZE: usize = 31;

/// What stands before a snapshot: gate, fields and digest.
pub(crate) const FRONT_SIZE: u64 = 64;

/// The fields of a new file's head.
pub(crate) fn spell_fields(generation: u64, number: u64, size: u64) -> [u8; FIELDS_SIZE]
    ensures { result
        ≡ head_text (record { form = 2; generation = generation; number = number }) size }
{
    let mut fields = [0; FIELDS_SIZE];
    fields[0] = FORM;
    BigEndian::write_u64(&mut fields[7..], generation);
    BigEndian::write_u64(&mut fields[15..], number);
    BigEndian::write_u64(&mut fields[23..], size);
    fields
}
