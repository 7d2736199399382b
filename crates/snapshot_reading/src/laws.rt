//! Laws of snapshots as bytes: each function has an empty body, and its contract is the law.

ghost use Rattle.std.specs.Prelude.{◌≡◌, ◌⊎◌, ℕ, Bool, List, Result, Ok, Err};
ghost use Rattle.save_stream.specs.Standing.{AreBytes};
ghost use Rattle.catalog_change.specs.Catalogues.{Catalogue, IsCatalogue};
ghost use Rattle.catalog_spelling.specs.declared.fault.DecodeFault.{DecodeFault};
ghost use Rattle.catalog_spelling.specs.declared.fault.DecodeFault.TheVariants as faults;
ghost use Rattle.catalog_spelling.specs.Decoding.{HasBad};
ghost use Rattle.catalog_spelling.specs.declared.parts.Snapshot.{Snapshot};
ghost use Rattle.catalog_spelling.specs.SnapshotDecoding.{Decodes};
ghost use Rattle.catalog_spelling.specs.Snapshots.{catalogue_read, kept_in, snapshot_at, snapshot_text};
ghost use Rattle.catalog_spelling.specs.Fits.{FitsCatalogue};
ghost use Rattle.catalog_spelling.specs.SpelledSnapshots.{IsReadBack, IsText};

/// The spelling of an allowed catalogue, with its indexes or without, is read to that catalogue,
/// unless memory runs out.
pub fn written_snapshots_are_read()
    ensures { (indexed : Bool) (catalogue : Catalogue) (answer : Result Snapshot DecodeFault)
        → IsCatalogue catalogue → FitsCatalogue (kept_in indexed catalogue)
        → Decodes indexed (snapshot_text indexed catalogue) answer
        → IsReadBack indexed catalogue answer }
{}

/// Texts that are read to one catalogue are one, and catalogues with one text are one, as far as
/// the text keeps them.
pub fn one_spelling()
    ensures texts { (indexed : Bool) (bytes other : List ℕ) (snapshot copy : Snapshot)
        → AreBytes bytes → AreBytes other
        → Decodes indexed bytes (Ok snapshot) → Decodes indexed other (Ok copy)
        → catalogue_read snapshot ≡ catalogue_read copy → bytes ≡ other }
    ensures catalogues { (indexed : Bool) (bytes : List ℕ) (catalogue other : Catalogue)
        → IsText indexed bytes catalogue → IsText indexed bytes other
        → kept_in indexed catalogue ≡ kept_in indexed other }
{}

/// Bytes are the text of an allowed catalogue, or have a first field that isn't allowed, and never
/// both. A fault is at the place of that field.
pub fn bytes_are_a_snapshot_or_bad()
    ensures each { (indexed : Bool) (bytes : List ℕ) → AreBytes bytes
        → ((catalogue : Catalogue) × IsText indexed bytes catalogue)
        ⊎ ((place : ℕ) × HasBad (snapshot_at indexed) bytes place) }
    ensures either { (indexed : Bool) (bytes : List ℕ) (place : ℕ) (catalogue : Catalogue)
        → IsText indexed bytes catalogue → ¬ (HasBad (snapshot_at indexed) bytes place) }
    ensures fault { (indexed : Bool) (bytes : List ℕ) (place : ℕ) → AreBytes bytes
        → Decodes indexed bytes (Err (faults.Bad place))
        → HasBad (snapshot_at indexed) bytes place }
    ensures one { (indexed : Bool) (bytes : List ℕ) (place other : ℕ)
        → HasBad (snapshot_at indexed) bytes place → HasBad (snapshot_at indexed) bytes other
        → place ≡ other }
{}
