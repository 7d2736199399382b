//! The drive that a piece goes to.

ghost use Rattle.std.specs.Prelude.{◌≡◌, IfSome, IsTrue};
ghost use Rattle.slot_changer.specs.Drives.{IsDrive};
ghost use Rattle.slot_changer.specs.Taking.{takes};
ghost use Rattle.room_effects.specs.View.{held_in};
ghost use Rattle.room_placing.specs.Placing.{IsDriveFor, busy_of, stays};

use room_state::RoomState;

/// The drive that takes a piece of so many bytes of a session, which is on a drive or on none: this
/// one while it takes the piece, else the one that is picked among those with a volume of the pool.
pub fn drive_for(room: &RoomState, held: Option<u8>, pool: &[u8], length: u64) -> Option<u8>
    requires { IfSome held IsDrive }
    ensures drive { IsDriveFor held pool.now length room.now.room result }
    ensures takes { IfSome result
        (λ drive. IsDrive drive × IsTrue (takes (held_in room.now.room drive) length)) }
{
    if stays(room, held, length) {
        return held;
    }
    let busy = busy(room);
    room.drives().pick(pool, length, &busy, &[])
}

// Whether a session stays on its drive, which takes the piece.
fn stays(room: &RoomState, held: Option<u8>, length: u64) -> bool
    requires { IfSome held IsDrive }
    ensures { result ≡ stays held length room.now.room }
{
    match held {
        Some(drive) => room.drives().takes(drive, length),
        None => false,
    }
}

// How many sessions each drive has.
fn busy(room: &RoomState) -> [u32; 4]
    ensures { result ≡ busy_of room.now.room }
{
    room.busy()
}
