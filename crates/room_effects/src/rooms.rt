//! Laws of rooms: each function has an empty body, and its contract is the law.

ghost use Rattle.std.specs.Prelude.{◌≡◌, ℕ, List, Option, None, IfSome, length};
ghost use Rattle.room_base.specs.declared.numbers.Moment.{Moment};
ghost use Rattle.room_base.specs.declared.numbers.Ssid.{Ssid};
ghost use Rattle.room_disk.specs.Blank.{IsBlank};
ghost use Rattle.save_stream.specs.Spelling.{PathsAscend};
ghost use Rattle.save_stream.specs.Standing.{AreBytes};
ghost use Rattle.save_stream.specs.declared.entry.IndexEntry.{IndexEntry};
ghost use Rattle.save_stream.specs.declared.head.SetHead.{SetHead};
ghost use Rattle.cat_journal.specs.Images.{IsJournal};
ghost use Rattle.cat_journal.specs.Journal.{JournalView, IsKnown};
ghost use Rattle.volume_store.specs.declared.commit.Volume.{Volume};
ghost use Rattle.catalog_change.specs.declared.change.Change.{Change};
ghost use Rattle.catalog_spelling.specs.Decoding.{IsStamped};
ghost use Rattle.room_catalog.specs.Fits.{Fits, FitsParts};
ghost use Rattle.room_catalog.specs.Held.{CatalogueLists, CatalogueRoom, catalogue_of, no_parts};
ghost use Rattle.room_catalog.specs.Held.{opening_catalogue};
ghost use Rattle.room_catalog.specs.Invariant.{IsHeld};
ghost use Rattle.room_catalog.specs.Ready.{IsReady};
ghost use Rattle.save_session.specs.Sessions.{find_session};
ghost use Rattle.room_effects.specs.View.{RoomView, IsJournalOf, IsRoom, opened_room};
ghost use Rattle.room_effects.specs.Effects.{Effect, after_broken, after_done};
ghost use Rattle.room_catalog.specs.Changing.{catalogue_after};
ghost use Rattle.room_effects.specs.Effects.{Enter, EnterPart, TurnOver, Commit, Push, PutIn};
ghost use Rattle.room_effects.specs.Effects.{TakeOut, Open, Take, Close};
ghost use Rattle.room_effects.specs.Needs.{CanDo, IsTaken, IsWholeChange};
ghost use Rattle.room_effects.specs.Reopening.{IsSpelled, Reopens};
ghost use Rattle.room_effects.specs.Running.{Ready, nothing_known};

use room_disk::Store;

/// A room stays one behind each effect that it can do. Of an entry it is known besides that the
/// journal's next gate has a place, as it is where the entry was written; of a change that the
/// catalogue behind it is one that there can be; of a piece that the session's reader takes it.
pub fn rooms_stay()
    ensures enter { (m : Moment) (change : Change) (room : RoomView) → IsRoom room
        → CanDo (Enter m change) room → IsHeld (catalogue_after m change room.catalogue)
        → IsKnown (after_done (Enter m change) room).journal.current
        → IsRoom (after_done (Enter m change) room) }
    ensures part { (m : Moment) (ssid : Ssid) (part : ℕ) (index : List IndexEntry)
        (room : RoomView) → IsRoom room → CanDo (EnterPart m ssid part index) room
        → IsKnown (after_done (EnterPart m ssid part index) room).journal.current
        → IsRoom (after_done (EnterPart m ssid part index) room) }
    ensures turn_over { (snapshot : List ℕ) (room : RoomView) → IsRoom room
        → CanDo (TurnOver snapshot) room → IsRoom (after_done (TurnOver snapshot) room) }
    ensures commit { (drive : ℕ) (asking : Option ℕ) (room : RoomView) → IsRoom room
        → CanDo (Commit drive asking) room → IsRoom (after_done (Commit drive asking) room) }
    ensures push { (drive ssid copy offset : ℕ) (bytes : List ℕ) (room : RoomView) → IsRoom room
        → CanDo (Push drive ssid copy offset bytes) room
        → IsRoom (after_done (Push drive ssid copy offset bytes) room) }
    ensures put_in { (drive : ℕ) (volume : Volume) (room : RoomView) → IsRoom room
        → CanDo (PutIn drive volume) room → IsRoom (after_done (PutIn drive volume) room) }
    ensures take_out { (drive : ℕ) (room : RoomView) → IsRoom room
        → CanDo (TakeOut drive) room → IsRoom (after_done (TakeOut drive) room) }
    ensures begins { (head : SetHead) (room : RoomView) → IsRoom room
        → CanDo (Open head) room → IsRoom (after_done (Open head) room) }
    ensures take { (ssid : ℕ) (piece : List ℕ) (room : RoomView) → IsRoom room
        → CanDo (Take ssid piece) room → AreBytes piece
        → IfSome (find_session ssid room.sessions) (IsTaken piece)
        → IsRoom (after_done (Take ssid piece) room) }
    ensures close { (ssid : ℕ) (room : RoomView) → IsRoom room
        → CanDo (Close ssid) room → IsRoom (after_done (Close ssid) room) }
{}

/// A room stays one where an effect that it can do fails.
pub fn rooms_stay_behind_a_fault()
    ensures { (effect : Effect) (room : RoomView) → IsRoom room → CanDo effect room
        → IsRoom (after_broken effect room) }
{}

/// The catalogue behind a change stays one that there can be, where the change is allowed, fits, and
/// can be applied. The paths of the parts that wait ascend, as they do in memory.
pub fn catalogues_stay()
    ensures { (m : Moment) (change : Change) (lists : CatalogueLists) (memory : CatalogueRoom)
        → IsHeld lists → PathsAscend lists.parts.entries → IsWholeChange change
        → IsStamped m.0 change → Fits (catalogue_of lists) change → FitsParts lists.parts change
        → IsReady (record { lists = lists; room = memory }) change
        → IsHeld (catalogue_after m change lists) }
{}

/// The room that is opened on a disk is one, and is ready for it. On a blank disk it is so with the
/// opening catalogue, and the journal's files reopen as that.
pub fn an_opened_room_is_ready<D: Store>(disk: &D)
    ensures is { (catalogue : CatalogueLists) (journal : JournalView) → IsHeld catalogue
        → IsJournalOf catalogue (record journal { spare = 0 })
        → IsRoom (opened_room catalogue journal) }
    ensures ready { (catalogue : CatalogueLists) (journal : JournalView)
        → IsJournal journal (D.view disk.now)
        → Ready nothing_known (opened_room catalogue journal) (D.view disk.now) }
    ensures blank { (spelling : CatalogueLists → List ℕ) (catalogue : CatalogueLists)
        → IsBlank (D.view disk.now) → IsHeld catalogue
        → catalogue_of catalogue ≡ opening_catalogue → catalogue.parts ≡ no_parts
        → IsRoom (opened_room catalogue (record { current = None; last = 0; spare = 0 }))
        × Ready nothing_known
        (opened_room catalogue (record { current = None; last = 0; spare = 0 })) (D.view disk.now)
        × Reopens (IsSpelled spelling) (D.view disk.now).reads catalogue }
{}
