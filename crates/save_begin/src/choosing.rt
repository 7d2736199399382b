//! The head of a save, and the drive that its bytes go to.

ghost use Rattle.std.specs.Prelude.{◌≡◌, ◌⊎◌, ℕ, length, IfOk, None, Option, Some};
ghost use Rattle.room_base.specs.declared.refusal.Refusal.TheVariants.{NeedVolume, NoMemory};
ghost use Rattle.save_stream.specs.Heads.{head_of_parts};
ghost use Rattle.save_stream.specs.Spelling.{head_text};
ghost use Rattle.save_stream.specs.declared.head.SetHead.{SetHead};
ghost use Rattle.room_effects.specs.Checked.{ComesTo};
ghost use Rattle.room_placing.specs.Placing.{IsDriveFor};
ghost use Rattle.save_begin.specs.Beginning.{drive_check};
ghost use Rattle.save_begin.specs.Fitting.{GoesTo, MayBegin};
ghost use Rattle.save_begin.specs.Heading.{IsHeadFor};

use crate::asked::Asked;
use crate::heading::{group_or, head_for, head_of, head_size};
use room_base::{Memory, Moment, Name, Refusal};
use room_placing::drive_for;
use room_state::RoomState;
use save_stream::{HeadParts, Level, SetHead};

/// The head of a save, and the drive that its bytes go to.
#[derive(Drop)]
pub struct Chosen {
    pub head: SetHead,
    pub drive: u8,
}

/// The head of a save for which this level is wanted, and the drive that takes it.
pub(crate) fn choose(
    room: &RoomState,
    m: Moment,
    asked: &Asked,
    wanted: Level,
) -> Result<Chosen, Refusal>
    requires { MayBegin asked.now room.now.room }
    ensures head { (head : SetHead) × IsHeadFor m asked.now wanted room.now.room head
        × (drive : Option ℕ)
        × IsDriveFor None head.pool (length (head_text head)) room.now.room drive
        × ComesTo (drive_check head drive) result }
    ensures drive { IfOk result (λ chosen. GoesTo chosen.head room.now.room chosen.drive) }
{
    let _held = room.catalogue().number();
    let none = Name::empty(room.allocator());
    let group = group_or(asked, &none);
    let parts = head_for(room, m, asked, group, wanted);
    match drive_for(room, None, parts.pool.as_bytes(), head_size(&parts)) {
        Some(drive) => made_choice(&parts, drive),
        None => Err(need_volume(parts.pool)),
    }
}

fn made_choice(parts: &HeadParts, drive: u8) -> Result<Chosen, Refusal>
    ensures made { ComesTo (drive_check (head_of_parts parts.now) (Some drive)) result }
    ensures parts { IfOk result
        (λ chosen. (chosen.head ≡ head_of_parts parts.now) × (chosen.drive ≡ drive)) }
{
    match head_of(parts) {
        Ok(head) => Ok(Chosen { head, drive }),
        Err(Memory) => Err(Refusal::NoMemory),
    }
}

fn need_volume(pool: &Name) -> Refusal
    ensures { (result ≡ NeedVolume pool.now) ⊎ (result ≡ NoMemory) }
{
    match pool.copy() {
        Ok(pool) => Refusal::NeedVolume { pool },
        Err(Memory) => Refusal::NoMemory,
    }
}
