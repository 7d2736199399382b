//! Each call below that writes or reads a file is one deed of its effect: each function has an empty
//! body, and its contract is the law of two moments of a disk.

ghost use Rattle.std.specs.Prelude.{◌≡◌, ◌≤◌, ℕ, List, [], ◌∷◌, Option, Some, IfSome, length};
ghost use Rattle.std.specs.Prelude.{Ok, Err, IsTrue, true, false};
ghost use Rattle.room_base.specs.Faults.{Rose};
ghost use Rattle.room_base.specs.Outside.{Told};
ghost use Rattle.room_base.specs.declared.fault.Failed.{Failed};
ghost use Rattle.room_base.specs.declared.numbers.Moment.{Moment};
ghost use Rattle.room_base.specs.declared.numbers.Ssid.{Ssid};
ghost use Rattle.room_base.specs.declared.refusal.Refusal.{Refusal};
ghost use Rattle.room_base.specs.declared.refusal.Refusal.TheVariants.{DeviceFault, JournalFault};
ghost use Rattle.room_disk.specs.Crash.{IsAnew, AnewTorn};
ghost use Rattle.room_disk.specs.Disk.{Quiet, Settled};
ghost use Rattle.room_disk.specs.Writing.{WritesFile};
ghost use Rattle.save_stream.specs.declared.entry.IndexEntry.{IndexEntry};
ghost use Rattle.volume_block.specs.declared.label.Label.{Label};
ghost use Rattle.save_stream.specs.declared.head.SetHead.{SetHead};
ghost use Rattle.volume_store.specs.declared.commit.Volume.{Volume};
ghost use Rattle.volume_store.specs.Writes.{IsBeingLabelled, Relabels, cart_file};
ghost use Rattle.cat_journal.specs.Contents.{IsFront};
ghost use Rattle.cat_journal.specs.Journal.{JournalView, AddsEntry, MayAddEntry, file_of, new_text};
ghost use Rattle.cat_journal.specs.Journal.{next_file, next_head};
ghost use Rattle.catalog_change.specs.declared.change.Change.{Change};
ghost use Rattle.catalog_change.specs.declared.change.Change.TheVariants.{IndexPart};
ghost use Rattle.catalog_spelling.specs.Decoding.{IsStamped};
ghost use Rattle.slot_changer.specs.Committing.{AddsBuffer, MayAddBuffer, cart_file_of};
ghost use Rattle.room_effects.specs.View.{RoomView, IsRoom, held_in};
ghost use Rattle.room_effects.specs.Effects.{Effect, after_broken, after_done, entry_bytes};
ghost use Rattle.room_effects.specs.Effects.{is_at_last, part_bytes, Seen};
ghost use Rattle.room_effects.specs.Effects.{Enter, EnterPart, TurnOver, Commit, Look, WriteLabel};
ghost use Rattle.room_effects.specs.Effects.{Push, PutIn, TakeOut, Open, Take, Close};
ghost use Rattle.room_effects.specs.Faults.{fault_of};
ghost use Rattle.room_effects.specs.Files.{IsSeen, device_of};
ghost use Rattle.room_effects.specs.Needs.{CanDo};
ghost use Rattle.room_effects.specs.Running.{Does};

use room_disk::Store;

/// An entry that a journal's call writes for a change, with memory of its own, is the effect of the
/// change; where the call fails the room is closed.
pub fn an_entry_is_an_effect<D: Store>(before: &D, now: &D)
    ensures done { (m : Moment) (change : Change) (journal : JournalView) (bytes : List ℕ)
        (number : ℕ) (room new : RoomView) → IsRoom room → CanDo (Enter m change) room
        → room.journal ≡ record journal { spare = 0 } → bytes ≡ entry_bytes m change → IsStamped m.0 change
        → new ≡ after_done (Enter m change) room
        → WritesFile {T = ℕ} {E = Failed} (file_of journal.current) (AddsEntry journal bytes)
        (MayAddEntry journal bytes) (D.view before.now) (D.view now.now) (Ok number)
        → Does {T = Unit {0}} (Enter m change ∷ []) (Ok tt) room new
        (D.view before.now) (D.view now.now) }
    ensures broken { (m : Moment) (change : Change) (journal : JournalView) (bytes : List ℕ)
        (failed : Failed) (room new : RoomView) → IsRoom room → CanDo (Enter m change) room
        → room.journal ≡ record journal { spare = 0 } → bytes ≡ entry_bytes m change → IsStamped m.0 change
        → new ≡ after_broken (Enter m change) room
        → WritesFile {T = ℕ} {E = Failed} (file_of journal.current) (AddsEntry journal bytes)
        (MayAddEntry journal bytes) (D.view before.now) (D.view now.now) (Err failed)
        → Does {T = Unit {0}} (Enter m change ∷ []) (Err JournalFault) room new
        (D.view before.now) (D.view now.now) }
{}

/// The same of a part of an index.
pub fn an_entry_of_a_part_is_an_effect<D: Store>(before: &D, now: &D)
    ensures done { (m : Moment) (ssid : Ssid) (part : ℕ) (index : List IndexEntry)
        (journal : JournalView) (bytes : List ℕ) (room new : RoomView) → IsRoom room
        → CanDo (EnterPart m ssid part index) room → room.journal ≡ record journal { spare = 0 }
        → bytes ≡ part_bytes m ssid part index → IsStamped m.0 (IndexPart ssid part index)
        → new ≡ after_done (EnterPart m ssid part index) room
        → WritesFile {T = Unit {0}} {E = Failed} (file_of journal.current)
        (AddsEntry journal bytes) (MayAddEntry journal bytes)
        (D.view before.now) (D.view now.now) (Ok tt)
        → Does {T = Unit {0}} (EnterPart m ssid part index ∷ []) (Ok tt) room new
        (D.view before.now) (D.view now.now) }
    ensures broken { (m : Moment) (ssid : Ssid) (part : ℕ) (index : List IndexEntry)
        (journal : JournalView) (bytes : List ℕ) (failed : Failed) (room new : RoomView)
        → IsRoom room → CanDo (EnterPart m ssid part index) room
        → room.journal ≡ record journal { spare = 0 } → bytes ≡ part_bytes m ssid part index
        → IsStamped m.0 (IndexPart ssid part index)
        → new ≡ after_broken (EnterPart m ssid part index) room
        → WritesFile {T = Unit {0}} {E = Failed} (file_of journal.current)
        (AddsEntry journal bytes) (MayAddEntry journal bytes)
        (D.view before.now) (D.view now.now) (Err failed)
        → Does {T = Unit {0}} (EnterPart m ssid part index ∷ []) (Err JournalFault) room new
        (D.view before.now) (D.view now.now) }
{}

/// A turn-over that a journal's call writes is one of the room. Behind the last generation nothing
/// is written.
pub fn a_turn_over_is_an_effect<D: Store>(before: &D, now: &D)
    ensures last { (snapshot : List ℕ) (room : RoomView) → CanDo (TurnOver snapshot) room
        → is_at_last room.journal ≡ true → Does {T = Unit {0}} (TurnOver snapshot ∷ []) (Ok tt)
        room room (D.view before.now) (D.view before.now) }
    ensures done { (snapshot : List ℕ) (journal : JournalView) (room new : RoomView)
        → IsRoom room → CanDo (TurnOver snapshot) room
        → room.journal ≡ record journal { spare = 0 } → is_at_last room.journal ≡ false
        → IsFront (next_head journal) snapshot → new ≡ after_done (TurnOver snapshot) room
        → WritesFile {T = Unit {0}} {E = Failed} (next_file journal.current)
        (IsAnew 0x4A (new_text (next_head journal) snapshot))
        (AnewTorn 0x4A (new_text (next_head journal) snapshot))
        (D.view before.now) (D.view now.now) (Ok tt)
        → Does {T = Unit {0}} (TurnOver snapshot ∷ []) (Ok tt) room new
        (D.view before.now) (D.view now.now) }
    ensures broken { (snapshot : List ℕ) (journal : JournalView) (failed : Failed)
        (room new : RoomView) → IsRoom room → CanDo (TurnOver snapshot) room
        → room.journal ≡ record journal { spare = 0 } → is_at_last room.journal ≡ false
        → new ≡ after_broken (TurnOver snapshot) room
        → WritesFile {T = Unit {0}} {E = Failed} (next_file journal.current)
        (IsAnew 0x4A (new_text (next_head journal) snapshot))
        (AnewTorn 0x4A (new_text (next_head journal) snapshot))
        (D.view before.now) (D.view now.now) (Err failed)
        → Does {T = Unit {0}} (TurnOver snapshot ∷ []) (Err JournalFault) room new
        (D.view before.now) (D.view now.now) }
{}

/// A commit of a drive's buffer is one of the room, which answers the fault of the room before it.
pub fn a_commit_is_an_effect<D: Store>(before: &D, now: &D)
    ensures done { (drive : ℕ) (asking : Option ℕ) (room new : RoomView) → IsRoom room
        → CanDo (Commit drive asking) room → new ≡ after_done (Commit drive asking) room
        → IfSome (held_in room drive) (λ one. WritesFile {T = Unit {0}} {E = Failed}
        (cart_file_of one) (AddsBuffer one) (MayAddBuffer one)
        (D.view before.now) (D.view now.now) (Ok tt))
        → Does {T = Unit {0}} (Commit drive asking ∷ []) (Ok tt) room new
        (D.view before.now) (D.view now.now) }
    ensures broken { (drive : ℕ) (asking : Option ℕ) (fault : Refusal) (failed : Failed)
        (room new : RoomView) → IsRoom room → CanDo (Commit drive asking) room
        → new ≡ after_broken (Commit drive asking) room
        → fault_of (Commit drive asking) room ≡ Some fault
        → IfSome (held_in room drive) (λ one. WritesFile {T = Unit {0}} {E = Failed}
        (cart_file_of one) (AddsBuffer one) (MayAddBuffer one)
        (D.view before.now) (D.view now.now) (Err failed))
        → Does {T = Unit {0}} (Commit drive asking ∷ []) (Err fault) room new
        (D.view before.now) (D.view now.now) }
{}

/// A label that is written on its cartridge is an effect that leaves the room as it is.
pub fn a_label_is_an_effect<D: Store>(before: &D, now: &D)
    ensures done { (label : Label) (room : RoomView) → CanDo (WriteLabel label) room
        → WritesFile {T = Unit {0}} {E = Failed} (cart_file label.cart.0) (Relabels label)
        (IsBeingLabelled label) (D.view before.now) (D.view now.now) (Ok tt)
        → Does {T = Unit {0}} (WriteLabel label ∷ []) (Ok tt) room room
        (D.view before.now) (D.view now.now) }
    ensures broken { (label : Label) (failed : Failed) (room : RoomView)
        → CanDo (WriteLabel label) room
        → WritesFile {T = Unit {0}} {E = Failed} (cart_file label.cart.0) (Relabels label)
        (IsBeingLabelled label) (D.view before.now) (D.view now.now) (Err failed)
        → Does {T = Unit {0}} (WriteLabel label ∷ [])
        (Err (DeviceFault (cart_file label.cart.0) [])) room room
        (D.view before.now) (D.view now.now) }
{}

/// A read of a cartridge that changes nothing, after which nothing is pending on it, and on whose
/// bytes this was found, is the effect of having seen this; where it fails, that of any sight.
pub fn a_read_is_an_effect<D: Store>(before: &D, now: &D)
    ensures done { (cart : ℕ) (seen : Seen) (room : RoomView) → CanDo (Look cart seen) room
        → ((file : ℕ) → (D.view before.now).faults file ≤ (D.view now.now).faults file)
        → (D.view now.now).tells ≡ (D.view before.now).tells
        → Told (D.view before.now).tells (Quiet (D.view before.now) (D.view now.now))
        → Told (D.view before.now).tells (Settled (D.view now.now) (cart_file cart))
        → Told (D.view before.now).tells
        (IsSeen cart seen ((D.view before.now).reads (cart_file cart)))
        → Does {T = Unit {0}} (Look cart seen ∷ []) (Ok tt) room room
        (D.view before.now) (D.view now.now) }
    ensures broken { (cart : ℕ) (seen : Seen) (room : RoomView) → CanDo (Look cart seen) room
        → ((file : ℕ) → (D.view before.now).faults file ≤ (D.view now.now).faults file)
        → (D.view now.now).tells ≡ (D.view before.now).tells
        → Told (D.view before.now).tells (Quiet (D.view before.now) (D.view now.now))
        → Rose ((D.view before.now).faults (cart_file cart))
        ((D.view now.now).faults (cart_file cart))
        → Does {T = Unit {0}} (Look cart seen ∷ []) (Err (DeviceFault (cart_file cart) []))
        room room (D.view before.now) (D.view now.now) }
{}

/// An effect in memory is one that leaves the disk as it is.
pub fn effects_in_memory<D: Store>(disk: &D)
    ensures push { (drive ssid copy offset : ℕ) (bytes : List ℕ) (room : RoomView) → IsRoom room
        → CanDo (Push drive ssid copy offset bytes) room
        → Does {T = Unit {0}} (Push drive ssid copy offset bytes ∷ []) (Ok tt) room
        (after_done (Push drive ssid copy offset bytes) room) (D.view disk.now) (D.view disk.now) }
    ensures put_in { (drive : ℕ) (volume : Volume) (room : RoomView) → IsRoom room
        → CanDo (PutIn drive volume) room
        → Does {T = Unit {0}} (PutIn drive volume ∷ []) (Ok tt) room
        (after_done (PutIn drive volume) room) (D.view disk.now) (D.view disk.now) }
    ensures take_out { (drive : ℕ) (room : RoomView) → IsRoom room → CanDo (TakeOut drive) room
        → Does {T = Unit {0}} (TakeOut drive ∷ []) (Ok tt) room
        (after_done (TakeOut drive) room) (D.view disk.now) (D.view disk.now) }
    ensures begins { (head : SetHead) (room : RoomView) → CanDo (Open head) room
        → Does {T = Unit {0}} (Open head ∷ []) (Ok tt) room
        (after_done (Open head) room) (D.view disk.now) (D.view disk.now) }
    ensures take { (ssid : ℕ) (piece : List ℕ) (room : RoomView) → CanDo (Take ssid piece) room
        → Does {T = Unit {0}} (Take ssid piece ∷ []) (Ok tt) room
        (after_done (Take ssid piece) room) (D.view disk.now) (D.view disk.now) }
    ensures close { (ssid : ℕ) (room : RoomView) → CanDo (Close ssid) room
        → Does {T = Unit {0}} (Close ssid ∷ []) (Ok tt) room
        (after_done (Close ssid) room) (D.view disk.now) (D.view disk.now) }
{}
