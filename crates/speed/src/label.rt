ghost use Rattle.std.specs.Prelude.{◌≡◌, ◌≤◌};
ghost use Rattle.volume_block.specs.Layout.{IsUnits};
ghost use Rattle.volume_block.specs.Valid.{IsLabel};

use room_base::{Cart, Moment, Volid};
use volume_block::Label;

// The name `Raw` with the zeros behind it.
const POOL: [u8; 64] = [
    b'R', b'a', b'w', 0, 0, 0, 0, 0, 0, 0, 0, 0, 0, 0, 0, 0, 0, 0, 0, 0, 0, 0, 0, 0, 0, 0, 0, 0, 0,
    0, 0, 0, 0, 0, 0, 0, 0, 0, 0, 0, 0, 0, 0, 0, 0, 0, 0, 0, 0, 0, 0, 0, 0, 0, 0, 0, 0, 0, 0, 0, 0,
    0, 0, 0,
];

/// The label of cartridge 1 for data blocks of so many units.
pub fn label_of(units: u32) -> Label
    requires units { IsUnits units }
    requires range { units ≤ 16 }
    ensures label { IsLabel result }
    ensures units { result.units ≡ units }
{
    Label {
        volid: Volid(1 << 63),
        cart: Cart(1),
        capacity: 1_000_000,
        made: Moment(0),
        pool_length: 3,
        pool: POOL,
        units,
    }
}
