//! Laws of what files replay to: each function has an empty body, and its contract is the law.

ghost use Rattle.std.specs.Prelude.{◌≡◌, ℕ, List, IsTrue};
ghost use Rattle.room_disk.specs.Disk.{Image, Images, Leaves};
ghost use Rattle.cat_journal.specs.Journal.{KnowsFiles};
ghost use Rattle.room_catalog.specs.Held.{CatalogueLists};
ghost use Rattle.room_effects.specs.View.{RoomView, IsRoom};
ghost use Rattle.room_effects.specs.Effects.{Deed, after_all};
ghost use Rattle.room_effects.specs.Running.{AllCan, AreFounded, AreWritten, Crashed, Known, Led};
ghost use Rattle.room_effects.specs.Running.{Performed, Ready, trail};
ghost use Rattle.room_effects.specs.Reopening.{AreAlike, ReopensAfterSome};
ghost use Rattle.journal_files.specs.Files.{IsDamaged, IsSnapshot, ReplaysTo};

use room_disk::Store;

/// Files replay to one catalogue, or are damaged at one place: never both, and never neither.
pub fn files_replay_as_one()
    ensures catalogue { (files : Image) (one other : CatalogueLists) → ReplaysTo files one
        → ReplaysTo files other → AreAlike one other }
    ensures damage { (files : Image) (file other place at : ℕ) → IsDamaged files file place
        → IsDamaged files other at → (file ≡ other) × (place ≡ at) }
    ensures apart { (files : Image) (lists : CatalogueLists) (file place : ℕ)
        → ReplaysTo files lists → ¬ IsDamaged files file place }
    ensures every { (files : Image) → ((lists : CatalogueLists) → ¬ ReplaysTo files lists)
        → ((file place : ℕ) → ¬ IsDamaged files file place) → ⊥ }
{}

/// Where files replay to the catalogue of a room, and deeds are done in it, then a crash at any
/// moment leaves files that replay to the catalogue after the first so many changes that were
/// entered, and aren't damaged; and behind deeds that leave the room open they replay to its
/// catalogue.
pub fn files_replay_as_the_catalogue()
    ensures crashed { (deeds : List Deed) (room : RoomView) (before image : Image) → IsRoom room
        → AllCan deeds room → AreWritten deeds → KnowsFiles room.journal before
        → ReplaysTo before room.catalogue
        → Crashed deeds room before image
        → ReopensAfterSome IsSnapshot (trail deeds room) room.catalogue image }
    ensures sound { (deeds : List Deed) (room : RoomView) (before image : Image)
        (file place : ℕ) → IsRoom room
        → AllCan deeds room → AreWritten deeds → KnowsFiles room.journal before
        → ReplaysTo before room.catalogue
        → Crashed deeds room before image → ¬ IsDamaged image file place }
    ensures ended { (deeds : List Deed) (room : RoomView) (before image : Image) → IsRoom room
        → AllCan deeds room → AreWritten deeds → KnowsFiles room.journal before
        → ReplaysTo before room.catalogue
        → IsTrue (after_all deeds room).is_open → Led deeds room before image
        → KnowsFiles (after_all deeds room).journal image
        × ReplaysTo image (after_all deeds room).catalogue }
{}

/// The same of a disk on which deeds were done from a room on that was ready for it: each image of
/// a crash meanwhile replays so, and each image afterwards.
pub fn images_replay_as_the_catalogue<D: Store>(before: &D, now: &D)
    ensures crashed { (known : Known) (deeds : List Deed) (old new : RoomView) → IsRoom old
        → IsTrue old.is_open → IsTrue (D.view before.now).tells → AreFounded known deeds old
        → Ready known old (D.view before.now)
        → ReplaysTo (D.view before.now).reads old.catalogue
        → Performed deeds old new (D.view before.now) (D.view now.now)
        → Leaves (D.view before.now) (D.view now.now)
        (ReopensAfterSome IsSnapshot (trail deeds old) old.catalogue) }
    ensures ended { (known : Known) (deeds : List Deed) (old new : RoomView) → IsRoom old
        → IsTrue old.is_open → IsTrue new.is_open → IsTrue (D.view before.now).tells
        → AreFounded known deeds old → Ready known old (D.view before.now)
        → ReplaysTo (D.view before.now).reads old.catalogue
        → Performed deeds old new (D.view before.now) (D.view now.now)
        → (image : Image) → Images (D.view now.now) image → ReplaysTo image new.catalogue }
{}
