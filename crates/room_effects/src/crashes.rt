//! Laws of the catalogue that a journal's files reopen as, whatever function spells a snapshot: each
//! function has an empty body, and its contract is the law.

ghost use Rattle.std.specs.Prelude.{◌≡◌, ℕ, List, IsTrue};
ghost use Rattle.room_disk.specs.Disk.{Image, Images, Leaves};
ghost use Rattle.cat_journal.specs.Journal.{KnowsFiles};
ghost use Rattle.room_catalog.specs.Held.{CatalogueLists};
ghost use Rattle.room_effects.specs.View.{RoomView, IsRoom};
ghost use Rattle.room_effects.specs.Effects.{Deed, after_all};
ghost use Rattle.room_effects.specs.Running.{AllCan, AreFounded, AreWritten, Crashed, Known, Led};
ghost use Rattle.room_effects.specs.Running.{Performed, Ready, trail};
ghost use Rattle.room_effects.specs.Reopening.{AreAlike, HaveSnapshots, IsSpelled, Reopens};
ghost use Rattle.room_effects.specs.Reopening.{ReopensAfterSome};

use room_disk::Store;

/// Where the journal's files reopen as the catalogue of a room, and deeds are done in it, then a
/// crash at any moment leaves files that reopen as the catalogue after the first so many changes
/// that were entered; and behind deeds that leave the room open they reopen as its catalogue.
pub fn files_reopen_as_the_catalogue()
    ensures crashed { (spelling : CatalogueLists → List ℕ) (deeds : List Deed) (room : RoomView)
        (before image : Image) → IsRoom room → AllCan deeds room → AreWritten deeds
        → HaveSnapshots (IsSpelled spelling) deeds room → KnowsFiles room.journal before
        → Reopens (IsSpelled spelling) before room.catalogue → Crashed deeds room before image
        → ReopensAfterSome (IsSpelled spelling) (trail deeds room) room.catalogue image }
    ensures ended { (spelling : CatalogueLists → List ℕ) (deeds : List Deed) (room : RoomView)
        (before image : Image) → IsRoom room → AllCan deeds room → AreWritten deeds
        → HaveSnapshots (IsSpelled spelling) deeds room → KnowsFiles room.journal before
        → Reopens (IsSpelled spelling) before room.catalogue
        → IsTrue (after_all deeds room).is_open → Led deeds room before image
        → KnowsFiles (after_all deeds room).journal image
        × Reopens (IsSpelled spelling) image (after_all deeds room).catalogue }
{}

/// The same of a disk on which deeds were done from a room on that was ready for it: each image of
/// a crash meanwhile reopens so, and each image afterwards.
pub fn images_reopen_as_the_catalogue<D: Store>(before: &D, now: &D)
    ensures crashed { (spelling : CatalogueLists → List ℕ) (known : Known) (deeds : List Deed)
        (old new : RoomView) → IsRoom old → IsTrue old.is_open
        → IsTrue (D.view before.now).tells → AreFounded known deeds old
        → Ready known old (D.view before.now) → HaveSnapshots (IsSpelled spelling) deeds old
        → Reopens (IsSpelled spelling) (D.view before.now).reads old.catalogue
        → Performed deeds old new (D.view before.now) (D.view now.now)
        → Leaves (D.view before.now) (D.view now.now)
        (ReopensAfterSome (IsSpelled spelling) (trail deeds old) old.catalogue) }
    ensures ended { (spelling : CatalogueLists → List ℕ) (known : Known) (deeds : List Deed)
        (old new : RoomView) → IsRoom old → IsTrue old.is_open → IsTrue new.is_open
        → IsTrue (D.view before.now).tells → AreFounded known deeds old
        → Ready known old (D.view before.now) → HaveSnapshots (IsSpelled spelling) deeds old
        → Reopens (IsSpelled spelling) (D.view before.now).reads old.catalogue
        → Performed deeds old new (D.view before.now) (D.view now.now)
        → (image : Image) → Images (D.view now.now) image
        → Reopens (IsSpelled spelling) image new.catalogue }
{}

/// Files reopen as one catalogue, where no two catalogues have one spelling.
pub fn files_reopen_as_one_catalogue()
    ensures { (spelling : CatalogueLists → List ℕ)
        → ((one other : CatalogueLists) → spelling one ≡ spelling other → one ≡ other)
        → (files : Image) (one other : CatalogueLists) → Reopens (IsSpelled spelling) files one
        → Reopens (IsSpelled spelling) files other → AreAlike one other }
{}
