//! Sections of copies as bytes.

ghost use Rattle.std.specs.Prelude.{◌≡◌, ◌≤◌, List, ℕ};
ghost use Rattle.catalog_change.specs.Changes.{IsSection};
ghost use Rattle.catalog_spelling.specs.Reading.{Gives};
ghost use Rattle.catalog_spelling.specs.Sections.{end_of, section_at, section_text, FitsSection};
ghost use Rattle.catalog_text.specs.Writing.{HasRoom, Appends};

use crate::field::{expect_u64, read_u64, read_u64_above, read_u64_from};
use crate::put::put_u64;
use crate::{FieldFault, Format};
use media_db::Section;
use room_base::Volid;
use std::alloc::Global;

/// The bytes of a section.
const SECTION_SIZE: usize = 48;

/// Sections that follow each other, the first from the beginning of a stream on.
pub struct Sections;

impl Format for Sections {
    type Item = Section;

    const LEAST: usize = SECTION_SIZE;

    ghost at = { section_at };

    ghost text = { section_text };

    ghost Is = { λ section. Unit {0} };

    ghost LEAST = { 48 };

    ghost Fits = { FitsSection };

    fn read<'a>(
        _alloc: Global,
        before: &[Section],
        bytes: &'a [u8],
    ) -> Result<(Section, &'a [u8]), FieldFault> {
        section_of(before, bytes)
    }

    fn put(section: &Section, into: &mut Vec<u8>) {
        put_section(section, into)
    }

    #[tactic(auto, using(crate::proofs::Lengths::length_section))]
    fn length(_section: &Section) -> u64 {
        SECTION_SIZE as u64
    }
}

#[tactic(auto, unfolding(catalog_spelling::specs::Sections::section_at))]
fn section_of<'a>(before: &[Section], bytes: &'a [u8]) -> Result<(Section, &'a [u8]), FieldFault>
    ensures { Gives (λ x. (x.0, x.1.now)) result (section_at before.now bytes.now) }
{
    let (volid, rest) = read_u64(bytes)?;
    let (mark, rest) = read_u64(rest)?;
    let (first, rest) = read_u64(rest)?;
    let (last, rest) = read_u64_from(first, rest)?;
    let (from, rest) = expect_u64(end_of(before), rest)?;
    let (to, rest) = read_u64_above(from, rest)?;
    let section = Section {
        volid: Volid(volid),
        mark,
        first,
        last,
        from,
        to,
    };
    Ok((section, rest))
}

// Where the last section ends.
fn end_of(before: &[Section]) -> u64
    ensures { result ≡ end_of before.now }
{
    match before.last() {
        Some(section) => section.to,
        None => 0,
    }
}

fn put_section(section: &Section, into: &mut Vec<u8>)
    requires { HasRoom into.old (section_text section.now) }
    ensures text { Appends into.old into.new (section_text section.now) }
    ensures fits { FitsSection section.now }
{
    put_u64(into, section.volid.0);
    put_u64(into, section.mark);
    put_u64(into, section.first);
    put_u64(into, section.last);
    put_u64(into, section.from);
    put_u64(into, section.to);
}
