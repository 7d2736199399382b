//! Copies of save sets as bytes.

ghost use Rattle.std.specs.Prelude.{◌≡◌, ◌≤◌, ℕ, List};
ghost use Rattle.catalog_spelling.specs.Reading.{Gives};
ghost use Rattle.catalog_spelling.specs.Fields.{coded};
ghost use Rattle.catalog_change.specs.Catalogues.{max_copy};
ghost use Rattle.media_db.specs.Edits.{copy_no, has_done, is_done};
ghost use Rattle.catalog_spelling.specs.Media.{copies_at, copy_at, copy_kinds, copy_sections_at};
ghost use Rattle.catalog_spelling.specs.Media.{fits_state, is_first_begun, is_next_drawn};

use crate::item::{ReadItem, read_items};
use catalog_text::{FieldFault, Sections, allow, known, read_list_u32, read_u8, read_u32};
use media_db::{CopyState, RecordState, Section, SetCopy};
use room_base::{CopyNo, Items};
use std::alloc::Global;

/// Copies that ascend, below the next one.
#[derive(Clone, Copy)]
struct CopyReader {
    next_copy: u32,
}

impl ReadItem for CopyReader {
    type Item = SetCopy;

    const LEAST: usize = 9;

    ghost at = { λ reader. copy_at reader.next_copy };

    fn read<'a>(
        &self,
        alloc: Global,
        before: &[SetCopy],
        bytes: &'a [u8],
    ) -> Result<(SetCopy, &'a [u8]), FieldFault> {
        read_copy(alloc, self.next_copy, before, bytes)
    }
}

/// The copies of a record of this state.
#[tactic(auto, unfolding(catalog_spelling::specs::Lists::list_at, catalog_spelling::specs::Media::copies_at, catalog_spelling::specs::Fields::byte_within_at))]
pub(crate) fn read_copies(
    alloc: Global,
    state: RecordState,
    next_copy: u32,
    bytes: &[u8],
) -> Result<(Items<SetCopy>, &[u8]), FieldFault>
    ensures { Gives (λ x. (x.0, x.1.now)) result (copies_at state next_copy bytes.now) }
{
    let (count, rest) = read_u8(bytes)?;
    let (copies, rest) = read_items(&CopyReader { next_copy }, alloc, usize::from(count), rest)?;
    allow(fits_state(state, copies.as_slice()), bytes)?;
    Ok((copies, rest))
}

fn fits_state(state: RecordState, copies: &[SetCopy]) -> bool
    ensures { result ≡ fits_state state copies.now }
{
    match state {
        RecordState::Begun => is_first_begun(copies),
        RecordState::Complete => has_done(copies),
        RecordState::Aborted => true,
    }
}

fn has_done(copies: &[SetCopy]) -> bool
    ensures { result ≡ has_done copies.now }
{
    copies.iter().any(|copy| is_done(copy))
}

// Copy 1 alone, which is begun.
fn is_first_begun(copies: &[SetCopy]) -> bool
    ensures { result ≡ is_first_begun copies.now }
{
    match copies {
        [copy] => copy.no.0 == 1 && !is_done(copy),
        _ => false,
    }
}

fn is_done(copy: &SetCopy) -> bool
    ensures { result ≡ is_done copy.now.state }
{
    match copy.state {
        CopyState::Begun => false,
        CopyState::Done => true,
    }
}

#[tactic(auto, unfolding(catalog_spelling::specs::Media::copy_at, catalog_spelling::specs::Fields::code_at))]
fn read_copy<'a>(
    alloc: Global,
    next_copy: u32,
    before: &[SetCopy],
    bytes: &'a [u8],
) -> Result<(SetCopy, &'a [u8]), FieldFault>
    ensures { Gives (λ x. (x.0, x.1.now)) result (copy_at next_copy before.now bytes.now) }
{
    let (number, rest) = read_u32(bytes)?;
    allow(is_next_copy(next_copy, before, number), bytes)?;
    let (byte, after) = read_u8(rest)?;
    let state = known(state_of(byte), rest)?;
    let (sections, rest) = read_sections(alloc, state, after)?;
    let copy = SetCopy {
        no: CopyNo(number),
        state,
        sections,
    };
    Ok((copy, rest))
}

fn is_next_copy(next_copy: u32, before: &[SetCopy], number: u32) -> bool
    ensures { result ≡ is_next_drawn max_copy next_copy copy_no before.now number }
{
    1 <= number
        && (number < next_copy || next_copy == u32::MAX)
        && match before.last() {
            Some(last) => last.no.0 < number,
            None => true,
        }
}

fn state_of(byte: u8) -> Option<CopyState>
    ensures { result ≡ coded copy_kinds byte }
{
    match byte {
        0 => Some(CopyState::Begun),
        1 => Some(CopyState::Done),
        _ => None,
    }
}

// A copy that is begun has none.
#[tactic(auto, unfolding(catalog_spelling::specs::Media::copy_sections_at))]
fn read_sections(
    alloc: Global,
    state: CopyState,
    bytes: &[u8],
) -> Result<(Items<Section>, &[u8]), FieldFault>
    ensures { Gives (λ x. (x.0, x.1.now)) result (copy_sections_at state bytes.now) }
{
    match state {
        CopyState::Begun => read_list_u32::<Sections>(alloc, 0, 0, bytes),
        CopyState::Done => read_list_u32::<Sections>(alloc, 1, u32::MAX, bytes),
    }
}
