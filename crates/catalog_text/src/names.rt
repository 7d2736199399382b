//! Lists of names as bytes.

ghost use Rattle.std.specs.Prelude.{◌≡◌, ◌<◌, ◌^◌, List, ℕ, length};
ghost use Rattle.save_stream.specs.Spelling.{short_text, IsNameTo};
ghost use Rattle.catalog_spelling.specs.Reading.{Gives};
ghost use Rattle.catalog_spelling.specs.Fields.{name_at};
ghost use Rattle.catalog_text.specs.Writing.{HasRoom, Appends};

use crate::put::put_text;
use crate::text::read_name;
use crate::{FieldFault, Format};
use room_base::Name;
use std::alloc::Global;

/// Names of at most 64 bytes.
pub struct ShortNames;

impl Format for ShortNames {
    type Item = Name;

    const LEAST: usize = 2;

    ghost at = { λ before. name_at 64 };

    ghost text = { short_text };

    ghost Is = { IsNameTo 64 };

    ghost LEAST = { 2 };

    fn read<'a>(
        alloc: Global,
        _before: &[Name],
        bytes: &'a [u8],
    ) -> Result<(Name, &'a [u8]), FieldFault> {
        read_name(alloc, 64, bytes)
    }

    fn put(name: &Name, into: &mut Vec<u8>) {
        put_text(into, name)
    }

    fn length(name: &Name) -> u64 {
        text_length(name)
    }
}

/// Names of save sets, of at most 255 bytes.
pub struct SetNames;

impl Format for SetNames {
    type Item = Name;

    const LEAST: usize = 2;

    ghost at = { λ before. name_at 255 };

    ghost text = { short_text };

    ghost Is = { IsNameTo 255 };

    ghost LEAST = { 2 };

    fn read<'a>(
        alloc: Global,
        _before: &[Name],
        bytes: &'a [u8],
    ) -> Result<(Name, &'a [u8]), FieldFault> {
        read_name(alloc, 255, bytes)
    }

    fn put(name: &Name, into: &mut Vec<u8>) {
        put_text(into, name)
    }

    fn length(name: &Name) -> u64 {
        text_length(name)
    }
}

/// How many bytes a text has behind one byte of length.
pub fn text_length(text: &Name) -> u64
    requires { length text.now < 2 ^ 16 }
    ensures { result ≡ length (short_text text.now) }
{
    1 + text.as_bytes().len() as u64
}
