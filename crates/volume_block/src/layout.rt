//! Where the parts of a block stand, and the bytes that name its kind.

ghost use Rattle.std.specs.Prelude.{◌≡◌, ◌≤◌, length};
ghost use Rattle.volume_block.specs.Why.{used_in};

use byteorder::{BigEndian, ByteOrder};

/// The kind byte of a label.
pub(crate) const LABEL_KIND: u8 = b'L';

/// The kind byte of a mark.
pub(crate) const MARK_KIND: u8 = b'F';

/// The kind byte of a data block.
pub(crate) const DATA_KIND: u8 = b'D';

/// The form of blocks of volumes whose data blocks have one unit.
pub(crate) const ONE_UNIT_FORM: u8 = 1;

/// The form of blocks of volumes whose data blocks have more units.
pub(crate) const LARGE_FORM: u8 = 2;

/// The bytes of a block before its digest: kind, form, used length, volid and number.
pub(crate) const HEAD_SIZE: usize = 24;

/// Where a block's form stands.
pub(crate) const FORM_PLACE: usize = 1;

/// Where the units stand in the form of more than one.
pub(crate) const UNITS_PLACE: usize = 2;

/// Where a block's used length stands.
pub(crate) const USED_PLACE: usize = 4;

/// Where a block's volid stands.
pub(crate) const VOLID_PLACE: usize = 8;

/// Where a block's number stands.
pub(crate) const NUMBER_PLACE: usize = 16;

/// Where a block's payload begins, behind the head and the digest.
pub const PAYLOAD_START: usize = 56;

/// The bytes of a label's payload before those of its pool.
pub(crate) const LABEL_FIELDS_SIZE: u8 = 17;

/// The bytes of a mark's payload.
pub(crate) const MARK_USED: u32 = 4;

/// The bytes of a chunk before those of its stream.
pub const CHUNK_HEAD_SIZE: usize = 24;

/// How many bytes of the payload are used, as the block's head says.
pub(crate) fn used_length(bytes: &[u8]) -> u32
    requires { 8 ≤ length bytes.now }
    ensures { result ≡ used_in bytes.now }
{
    BigEndian::read_u32(&bytes[USED_PLACE..])
}
