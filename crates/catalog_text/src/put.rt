//! Writes single fields at the end of bytes that have room for them, so that no memory is taken.

ghost use Rattle.std.specs.Prelude.{◌≡◌, ◌+◌, ◌≤◌, ◌<◌, ◌^◌, length, vec_len, vec_capacity};
ghost use Rattle.catalog_spelling.specs.Fields.{number_bytes, byte_text, flag_byte};
ghost use Rattle.catalog_text.specs.Writing.{HasRoom, Appends};
ghost use Rattle.save_stream.specs.Spelling.{short_text, long_text};

use room_base::Name;

/// So many bytes as they are.
pub fn put_bytes(into: &mut Vec<u8>, bytes: &[u8])
    requires { HasRoom into.old bytes.now }
    ensures { Appends into.old into.new bytes.now }
{
    for byte in bytes {
        into.push_reserved(*byte);
    }
}

/// A byte.
pub fn put_u8(into: &mut Vec<u8>, byte: u8)
    requires { HasRoom into.old (byte_text byte) }
    ensures { Appends into.old into.new (byte_text byte) }
{
    into.push_reserved(byte);
}

/// A number of two bytes.
#[tactic(auto, unfolding(catalog_spelling::specs::Fields::number_bytes))]
pub fn put_u16(into: &mut Vec<u8>, number: u16)
    requires { HasRoom into.old (number_bytes 2 number) }
    ensures { Appends into.old into.new (number_bytes 2 number) }
{
    put_bytes(into, &number.to_be_bytes());
}

/// A number of four bytes.
#[tactic(auto, unfolding(catalog_spelling::specs::Fields::number_bytes))]
pub fn put_u32(into: &mut Vec<u8>, number: u32)
    requires { HasRoom into.old (number_bytes 4 number) }
    ensures { Appends into.old into.new (number_bytes 4 number) }
{
    put_bytes(into, &number.to_be_bytes());
}

/// A number of eight bytes.
#[tactic(auto, unfolding(catalog_spelling::specs::Fields::number_bytes))]
pub fn put_u64(into: &mut Vec<u8>, number: u64)
    requires { HasRoom into.old (number_bytes 8 number) }
    ensures { Appends into.old into.new (number_bytes 8 number) }
{
    put_bytes(into, &number.to_be_bytes());
}

/// A byte that is 0 or 1.
pub fn put_flag(into: &mut Vec<u8>, flag: bool)
    requires { HasRoom into.old (byte_text (flag_byte flag)) }
    ensures { Appends into.old into.new (byte_text (flag_byte flag)) }
{
    put_u8(into, u8::from(flag));
}

/// A text behind one byte of length.
pub fn put_text(into: &mut Vec<u8>, text: &Name)
    requires short { length text.now < 2 ^ 8 }
    requires room { HasRoom into.old (short_text text.now) }
    ensures { Appends into.old into.new (short_text text.now) }
{
    let text = text.as_bytes();
    put_u8(into, text.len() as u8);
    put_bytes(into, text);
}

/// A text behind two bytes of length.
#[tactic(auto, unfolding(catalog_spelling::specs::Fields::number_bytes, save_stream::specs::Spelling::short_number_text))]
pub fn put_long_text(into: &mut Vec<u8>, text: &Name)
    requires long { length text.now < 2 ^ 16 }
    requires room { HasRoom into.old (long_text text.now) }
    ensures { Appends into.old into.new (long_text text.now) }
{
    let text = text.as_bytes();
    put_u16(into, text.len() as u16);
    put_bytes(into, text);
}
