//! Laws of the two files: each function has an empty body, and its contract is the law.

ghost use Rattle.std.specs.Prelude.{◌≡◌, ◌⊎◌, ◌-◌, ◌∷◌, ℕ, List, [], length};
ghost use Rattle.room_disk.specs.Crash.{AnewTorn};
ghost use Rattle.room_disk.specs.Disk.{Image};
ghost use Rattle.cat_journal.specs.Contents.{Contents, contents_of, with_payload, IsFront};
ghost use Rattle.cat_journal.specs.Journal.{JournalView, KnowsContents, KnowsFiles, file_of};
ghost use Rattle.cat_journal.specs.Journal.{behind_payload, AddsEntry, MayAddEntry, next_file};
ghost use Rattle.cat_journal.specs.Journal.{next_head, new_text, turned_over, first_head, IsShut};
ghost use Rattle.cat_journal.specs.Meaning.{Meaning, Means, Stands};

/// Two files have one meaning: the same bytes are no other journal.
pub fn one_meaning()
    ensures { (files : Image) (one other : Meaning) → Means files one → Means files other
        → one ≡ other }
{}

/// Two files have a meaning, whatever their bytes are.
pub fn every_meaning()
    ensures { (files : Image) → (meaning : Meaning) × Means files meaning }
{}

/// Where a call may have added an entry to the current file, and the other is as it was, the two
/// files are the old entries, or these and the new one; where it did, they are the latter, and the
/// journal stands behind it.
pub fn an_entry_is_whole_or_absent()
    ensures torn { (files image : Image) (journal : JournalView) (contents : Contents)
        (payload : List ℕ) → Means files (Stands (file_of journal.current) contents)
        → KnowsContents journal contents
        → image (1 - file_of journal.current) ≡ files (1 - file_of journal.current)
        → MayAddEntry journal payload (files (file_of journal.current))
        (image (file_of journal.current))
        → Means image (Stands (file_of journal.current) contents)
        ⊎ Means image (Stands (file_of journal.current) (with_payload contents payload)) }
    ensures whole { (files image : Image) (journal : JournalView) (contents : Contents)
        (payload : List ℕ) → Means files (Stands (file_of journal.current) contents)
        → KnowsContents journal contents
        → image (1 - file_of journal.current) ≡ files (1 - file_of journal.current)
        → AddsEntry journal payload (files (file_of journal.current))
        (image (file_of journal.current))
        → Means image (Stands (file_of journal.current) (with_payload contents payload)) }
    ensures journal { (journal : JournalView) (contents : Contents) (payload : List ℕ)
        → KnowsContents journal contents
        → KnowsContents (behind_payload journal payload) (with_payload contents payload) }
{}

/// Where a file may have been written anew beside the current one, the two files are the old
/// journal or the new snapshot alone.
pub fn a_turn_over_is_whole_or_absent()
    ensures torn { (files image : Image) (journal : JournalView) (snapshot : List ℕ)
        → KnowsFiles journal files → IsFront (next_head journal) snapshot
        → image (1 - next_file journal.current) ≡ files (1 - next_file journal.current)
        → AnewTorn 0x4A (new_text (next_head journal) snapshot) (files (next_file journal.current))
        (image (next_file journal.current))
        → KnowsFiles journal image ⊎ Means image (Stands (next_file journal.current)
        (contents_of (next_head journal) snapshot [])) }
    ensures whole { (files image : Image) (journal : JournalView) (snapshot : List ℕ)
        → KnowsFiles journal files → IsFront (next_head journal) snapshot
        → image (1 - next_file journal.current) ≡ files (1 - next_file journal.current)
        → image (next_file journal.current) ≡ 0x4A ∷ new_text (next_head journal) snapshot
        → Means image (Stands (next_file journal.current)
        (contents_of (next_head journal) snapshot [])) }
    ensures journal { (journal : JournalView) (snapshot : List ℕ)
        → KnowsContents (turned_over journal (length snapshot))
        (contents_of (next_head journal) snapshot []) }
{}

/// A file that was written behind no other is its snapshot alone.
pub fn a_fresh_journal_is_its_snapshot()
    ensures { (image : Image) (number : ℕ) (snapshot : List ℕ)
        → IsFront (first_head number) snapshot
        → image 0 ≡ 0x4A ∷ new_text (first_head number) snapshot → IsShut (image 1)
        → Means image (Stands 0 (contents_of (first_head number) snapshot [])) }
{}
