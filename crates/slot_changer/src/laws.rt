//! Laws of drives: each function has an empty body, and its contract is the law.

ghost use Rattle.std.specs.Prelude.{◌≡◌, ◌≢◌, ◌≤◌, ℕ, List, Option, Some, false, length};
ghost use Rattle.std.specs.Prelude.{IsTrue, IsSomeAnd, IfSome};
ghost use Rattle.std.specs.Option.{option_map};
ghost use Rattle.room_base.specs.declared.numbers.Volid.{Volid};
ghost use Rattle.chunk_mux.specs.Packing.{empty, Fits};
ghost use Rattle.slot_changer.specs.Drives.{DriveView, IsDrive, in_drive, set_drive, change_drive};
ghost use Rattle.slot_changer.specs.Drives.{blocks_in, holds_set, has_failed, IsMounted};
ghost use Rattle.slot_changer.specs.Drives.{after_push, after_commit};
ghost use Rattle.slot_changer.specs.Taking.{fits, takes, CanPush, CanCommit};
ghost use Rattle.slot_changer.specs.Picking.{IsPick};

/// A change of one drive is a change of that drive alone, and the last one stands.
#[tactic(auto, using(crate::proofs::Changing::one_change))]
pub fn drives_are_apart()
    ensures this { (drives : List (Option DriveView)) (drive : ℕ) (held : Option DriveView)
        → length drives ≡ 4 → IsDrive drive → in_drive (set_drive drives drive held) drive ≡ held }
    ensures others { (drives : List (Option DriveView)) (drive other : ℕ)
        (held : Option DriveView) → IsDrive drive → IsDrive other → other ≢ drive
        → in_drive (set_drive drives drive held) other ≡ in_drive drives other }
    ensures changed { (drives : List (Option DriveView)) (drive : ℕ) (one : DriveView)
        (change : DriveView → DriveView) → in_drive drives drive ≡ Some one
        → change_drive drives drive change ≡ set_drive drives drive (Some (change one)) }
    ensures last { (drives : List (Option DriveView)) (drive : ℕ) (one other : Option DriveView)
        → set_drive (set_drive drives drive one) drive other ≡ set_drive drives drive other }
    ensures four { (drives : List (Option DriveView)) (drive : ℕ) (held : Option DriveView)
        → length (set_drive drives drive held) ≡ length drives }
{}

/// A piece that a drive takes can be pushed: at once where it fits the buffer. Where it doesn't,
/// but would fit an empty one, the buffer can be committed, and then the drive takes the piece and
/// it can be pushed. A piece of up to 257,024 bytes fits each empty buffer.
#[tactic(auto, using(crate::proofs::Taking::taken))]
pub fn taken_can_be_pushed()
    ensures now { (held : Option DriveView) (count : ℕ) → has_failed held ≡ false
        → IsTrue (takes held count) → IsTrue (fits held count) → IsSomeAnd held (CanPush count) }
    ensures commits { (held : Option DriveView) (count : ℕ) → has_failed held ≡ false
        → IsTrue (takes held count) → fits held count ≡ false
        → IfSome held (λ one. Fits (empty one.buffer.units) count) → IsSomeAnd held CanCommit }
    ensures behind { (held : Option DriveView) (count : ℕ) → has_failed held ≡ false
        → IsTrue (takes held count) → fits held count ≡ false
        → IfSome held (λ one. Fits (empty one.buffer.units) count)
        → IsTrue (takes (option_map after_commit held) count)
        × IsSomeAnd (option_map after_commit held) (CanPush count) }
    ensures most { (one : DriveView) (count : ℕ) → IsMounted one → count ≤ 257024
        → Fits (empty one.buffer.units) count }
{}

/// A buffer that has a block, holds a save set, or had bytes pushed into it, can be committed,
/// unless a commit has failed.
pub fn pushed_can_be_committed()
    ensures some { (held : Option DriveView) → has_failed held ≡ false → 1 ≤ blocks_in held
        → IsSomeAnd held CanCommit }
    ensures holds { (held : Option DriveView) (ssid : ℕ) → has_failed held ≡ false
        → IsTrue (holds_set held ssid) → IsSomeAnd held CanCommit }
    ensures pushed { (one : DriveView) (ssid copy offset : ℕ) (piece : List ℕ)
        → one.failed ≡ false → 1 ≤ length piece
        → CanCommit (after_push ssid copy offset piece one) }
{}

/// There is one pick: which drive it is follows from the drives and what is asked of them.
pub fn one_pick()
    ensures { (drives : List (Option DriveView)) (pool : List ℕ) (count : ℕ) (busy : List ℕ)
        (barred : List Volid) (one other : Option ℕ) → IsPick drives pool count busy barred one
        → IsPick drives pool count busy barred other → one ≡ other }
{}
