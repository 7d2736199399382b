//! The units of a volume's data blocks, as a block's form tells them.

ghost use Rattle.std.specs.Prelude.{◌≡◌, ◌≤◌, ◌↔◌, IsTrue, length};
ghost use Rattle.volume_block.specs.Layout.{IsUnits, IsSizeOf, form_of, units_told};
ghost use Rattle.volume_block.specs.Why.{HasForm, TellsSize, units_in};

use crate::block::BLOCK_SIZE;
use crate::layout::{DATA_KIND, FORM_PLACE, LARGE_FORM, ONE_UNIT_FORM, UNITS_PLACE};
use byteorder::{BigEndian, ByteOrder};

/// Whether a data block may have so many units.
pub fn is_units(units: u32) -> bool
    ensures { IsTrue result ↔ IsUnits units }
{
    matches!(units, 1 | 2 | 4 | 8 | 16)
}

/// The bytes of the block that begins with these: 4,096 for a label and a mark, and also where the
/// form is none that there is.
pub fn size_told(front: &[u8]) -> usize
    requires { 4 ≤ length front.now }
    ensures told { TellsSize front.now result }
    ensures range { (4096 ≤ result) × (result ≤ 65536) }
{
    if has_form(front) {
        block_size(front[0], units_in(front))
    } else {
        BLOCK_SIZE
    }
}

/// The bytes of a block of this kind.
pub(crate) fn block_size(kind: u8, units: u32) -> usize
    requires { IsUnits units }
    ensures size { IsSizeOf kind units result }
    ensures range { (4096 ≤ result) × (result ≤ 65536) }
{
    if kind == DATA_KIND {
        BLOCK_SIZE * units as usize
    } else {
        BLOCK_SIZE
    }
}

/// Whether the form and what stands behind it are those of a number of units.
pub(crate) fn has_form(bytes: &[u8]) -> bool
    requires { 4 ≤ length bytes.now }
    ensures { IsTrue result ↔ HasForm bytes.now }
{
    let units = units_in(bytes);
    is_units(units)
        && bytes[FORM_PLACE] == form_byte(units)
        && BigEndian::read_u16(&bytes[UNITS_PLACE..]) == units_field(units)
}

/// The units that a block's form tells.
pub(crate) fn units_in(bytes: &[u8]) -> u32
    requires { 4 ≤ length bytes.now }
    ensures { result ≡ units_in bytes.now }
{
    if bytes[FORM_PLACE] == ONE_UNIT_FORM {
        1
    } else {
        u32::from(BigEndian::read_u16(&bytes[UNITS_PLACE..]))
    }
}

/// The form of a block of so many units.
pub(crate) fn form_byte(units: u32) -> u8
    ensures { result ≡ form_of units }
{
    if units == 1 {
        ONE_UNIT_FORM
    } else {
        LARGE_FORM
    }
}

/// What stands behind the form of a block of so many units.
pub(crate) fn units_field(units: u32) -> u16
    requires { units ≤ 16 }
    ensures { result ≡ units_told units }
{
    if units == 1 { 0 } else { units as u16 }
}
