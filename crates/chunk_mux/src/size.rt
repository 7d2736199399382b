//! The sizes of data blocks.

ghost use Rattle.std.specs.Prelude.{◌≡◌};
ghost use Rattle.volume_block.specs.Layout.{IsUnits, data_size};
ghost use Rattle.chunk_mux.specs.Packing.{payload_size};

use volume_block::{BLOCK_SIZE, PAYLOAD_START};

/// The bytes of a data block of so many units.
pub(crate) fn data_size(units: u32) -> usize
    requires { IsUnits units }
    ensures { result ≡ data_size units }
{
    BLOCK_SIZE * units as usize
}

/// The bytes of the payload of a data block of so many units.
pub(crate) fn payload_size(units: u32) -> usize
    requires { IsUnits units }
    ensures { result ≡ payload_size units }
{
    data_size(units) - PAYLOAD_START
}
