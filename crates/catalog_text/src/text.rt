//! Reads texts behind their lengths.

ghost use Rattle.std.specs.Prelude.{◌≡◌};
ghost use Rattle.catalog_spelling.specs.Reading.{Gives};
ghost use Rattle.catalog_spelling.specs.Fields.{text_at, name_at, path_at};

use crate::FieldFault;
use crate::field::{read_bytes, read_u8_within, read_u16_within};
use room_base::{MAX_PATH, Name, name_text, path_text};
use std::alloc::Global;
use std::cmp::Ordering;

/// A name of `least` to `most` bytes, behind one byte of length.
#[tactic(auto, using(save_stream::proofs::Names::name_is, save_stream::proofs::Names::no_name), unfolding(catalog_spelling::specs::Fields::text_at))]
pub fn read_text(least: u8, most: u8, bytes: &[u8]) -> Result<(&str, &[u8]), FieldFault>
    ensures { Gives (λ x. (x.0.now, x.1.now)) result (text_at least most bytes.now) }
{
    let (size, start) = read_u8_within(least, most, bytes)?;
    let (text, rest) = read_bytes(usize::from(size), start)?;
    match name_text(text) {
        Some(text) => Ok((text, rest)),
        None => Err(FieldFault::Bad {
            behind: start.len(),
        }),
    }
}

/// A name of 1 to `most` bytes, behind one byte of length.
pub fn read_name(alloc: Global, most: u8, bytes: &[u8]) -> Result<(Name, &[u8]), FieldFault>
    ensures { Gives (λ x. (x.0, x.1.now)) result (name_at most bytes.now) }
{
    let (text, rest) = read_text(1, most, bytes)?;
    Ok((Name::from_text(alloc, text)?, rest))
}

/// A path that stands above `last` by bytes, behind two bytes of length.
#[tactic(auto, using(save_stream::proofs::Names::path_is, save_stream::proofs::Names::no_path), unfolding(catalog_spelling::specs::Fields::path_at, save_stream::specs::Reading::is_below))]
pub fn read_path<'a>(last: &[u8], bytes: &'a [u8]) -> Result<(&'a str, &'a [u8]), FieldFault>
    ensures { Gives (λ x. (x.0.now, x.1.now)) result (path_at last.now bytes.now) }
{
    let (size, start) = read_u16_within(1, MAX_PATH as u16, bytes)?;
    let (path, rest) = read_bytes(usize::from(size), start)?;
    match path_text(path) {
        Some(text) if last.cmp(path) == Ordering::Less => Ok((text, rest)),
        _ => Err(FieldFault::Bad {
            behind: start.len(),
        }),
    }
}
