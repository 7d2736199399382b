//! Laws of indexes and views: each function has an empty body, and its contract is the law.

ghost use Rattle.std.specs.Prelude.{◌≡◌, ◌≢◌, ◌↔◌, ◌==◌, ℕ, List, [], ◌∷◌, Contains, Some, None};
ghost use Rattle.std.specs.Prelude.{if◌then◌else◌};
ghost use Rattle.std.specs.List.{AllByRecursion};
ghost use Rattle.room_base.specs.declared.numbers.Ssid.{Ssid};
ghost use Rattle.save_stream.specs.declared.entry.EntryKind.TheVariants as kinds;
ghost use Rattle.save_stream.specs.declared.entry.IndexEntry.{IndexEntry};
ghost use Rattle.save_stream.specs.Spelling.{Saved, Ascend, index_from};
ghost use Rattle.save_stream.specs.Reading.{Reading};
ghost use Rattle.save_stream.specs.Standing.{Stands};
ghost use Rattle.client_index.specs.declared.index.SetIndex.{SetIndex};
ghost use Rattle.client_index.specs.declared.seen.Seen.{Seen};
ghost use Rattle.save_stream.specs.Spelling.{PathsAscend, PathsAscendFrom};
ghost use Rattle.client_index.specs.Sets.{AreOrdered, entries_of, entries_or_none, forget, put};
ghost use Rattle.client_index.specs.View.{chain_of, seen_of, view, view_of};

/// What is put is the index of its set, which decides before the sets behind it in a chain; every
/// other set has what it had.
pub fn put_is_seen()
    ensures entries { (sets : List SetIndex) (new : SetIndex) (ssid : Ssid)
        → entries_of (put sets new) ssid
        ≡ (if new.ssid.0 == ssid.0 then Some new.entries else entries_of sets ssid) }
    ensures first { (sets : List SetIndex) (new : SetIndex) (chain : List Ssid) (path : List ℕ)
        → view (put sets new) (new.ssid ∷ chain) path
        ≡ view_of (new ∷ chain_of (put sets new) chain) path }
    ensures others { (sets : List SetIndex) (new : SetIndex) (chain : List Ssid) (path : List ℕ)
        → AllByRecursion (λ ssid. ssid.0 ≢ new.ssid.0) chain
        → view (put sets new) chain path ≡ view sets chain path }
{}

/// A set that is forgotten has no index and shows nothing; every other set has what it had.
pub fn forgotten_is_not_seen()
    ensures entries { (sets : List SetIndex) (ssid other : Ssid)
        → entries_of (forget sets ssid) other
        ≡ (if ssid.0 == other.0 then None else entries_of sets other) }
    ensures first { (sets : List SetIndex) (ssid : Ssid) (chain : List Ssid) (path : List ℕ)
        → view (forget sets ssid) (ssid ∷ chain) path ≡ view (forget sets ssid) chain path }
    ensures others { (sets : List SetIndex) (ssid : Ssid) (chain : List Ssid) (path : List ℕ)
        → AllByRecursion (λ other. other.0 ≢ ssid.0) chain
        → view (forget sets ssid) chain path ≡ view sets chain path }
{}

/// Indexes in which the same is found are equal.
pub fn indexes_are_what_is_found()
    ensures { (sets others : List SetIndex) → AreOrdered sets → AreOrdered others
        → ((ssid : Ssid) → entries_of sets ssid ≡ entries_of others ssid) → sets ≡ others }
{}

/// A set without an index has no entries, as one whose index has none; and where each set has the
/// same entries, chains show the same.
pub fn no_index_is_as_an_empty_one()
    ensures none { (sets : List SetIndex) (ssid : Ssid) → entries_of sets ssid ≡ None
        → entries_or_none sets ssid ≡ [] }
    ensures empty { (sets : List SetIndex) (ssid : Ssid) → entries_of sets ssid ≡ Some []
        → entries_or_none sets ssid ≡ [] }
    ensures views { (sets others : List SetIndex)
        → ((ssid : Ssid) → entries_or_none sets ssid ≡ entries_or_none others ssid)
        → (chain : List Ssid) (path : List ℕ) → view sets chain path ≡ view others chain path }
{}

/// The view of one set shows each of its entries as it is, but for those that are gone.
pub fn one_set_hides_what_is_gone()
    ensures shown { (sets : List SetIndex) (ssid : Ssid) (entries : List IndexEntry)
        (entry : IndexEntry)
        → entries_of sets ssid ≡ Some entries → PathsAscend entries → Contains entries entry
        → view sets (ssid ∷ []) entry.path ≡ seen_of ssid entry }
    ensures hidden { (sets : List SetIndex) (ssid : Ssid) (entries : List IndexEntry)
        (entry : IndexEntry)
        → entries_of sets ssid ≡ Some entries → PathsAscend entries → Contains entries entry
        → (view sets (ssid ∷ []) entry.path ≡ None) ↔ (entry.kind ≡ kinds.Gone) }
{}

/// What is seen at a path is an entry of it, in a set of the chain: its owner.
pub fn seen_is_of_its_owner()
    ensures { (sets : List SetIndex) (chain : List Ssid) (path : List ℕ) (seen : Seen)
        → view sets chain path ≡ Some seen
        → Contains chain seen.owner
        × ((entry : IndexEntry) × Contains (entries_or_none sets seen.owner) entry
        × (entry.path ≡ path) × (seen_of seen.owner entry ≡ Some seen)) }
{}

/// The entries of a stream can be put, and so can those that were read so far: their paths ascend.
pub fn entries_of_streams_ascend()
    ensures index { (last : List ℕ) (at : ℕ) (entries : List Saved) → Ascend last entries
        → PathsAscendFrom last (index_from at entries) }
    ensures read { (text : List ℕ) (reading : Reading) → Stands text reading
        → PathsAscend reading.entries }
{}
