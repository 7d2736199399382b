//! Laws of the chunks that stand on a cartridge: each function has an empty body, and its contract
//! is the law.

ghost use Rattle.std.specs.Prelude.{◌≡◌, ◌↔◌, ◌⊎◌, ℕ, List};
ghost use Rattle.volume_block.specs.Chunks.{ChunkText};
ghost use Rattle.volume_block.specs.Standing.{Standing, InBlocks};
ghost use Rattle.volume_block.specs.declared.label.Label.{Label};
ghost use Rattle.volume_store.specs.Committed.{CommittedFile, End, Closed, Unlabelled, BadLabel};
ghost use Rattle.volume_store.specs.Committed.{Labelled, Committed};
ghost use Rattle.volume_store.specs.Standing.{StandsIn, InFiles};
ghost use Rattle.volume_store.specs.Writes.{with_file};

/// The chunks that stand on a cartridge are those of its committed files. On one without a valid
/// label none stands.
pub fn chunks_stand_in_files()
    ensures files { (bytes : List ℕ) (label : Label) (files : List CommittedFile) (end : End)
        (one : Standing) → Committed bytes (Labelled label files end)
        → StandsIn bytes one ↔ InFiles label.volid.0 label.units files one }
    ensures unlabelled { (bytes : List ℕ) (one : Standing) → Committed bytes Unlabelled
        → ¬ StandsIn bytes one }
    ensures bad { (bytes : List ℕ) (one : Standing) → Committed bytes BadLabel
        → ¬ StandsIn bytes one }
{}

/// With a file added, as by a commit, there stand the chunks that stood before, and those of the
/// file.
pub fn a_file_adds_its_chunks()
    ensures { (old new : List ℕ) (label : Label) (files : List CommittedFile) (mark : ℕ)
        (blocks : List (List ChunkText)) (one : Standing)
        → Committed old (Labelled label files (Closed mark))
        → Committed new (with_file label files mark blocks)
        → StandsIn new one
        ↔ (StandsIn old one ⊎ InBlocks label.volid.0 mark label.units blocks one) }
{}

/// One chunk stands in one place of a cartridge, which a block and a byte in it are.
pub fn one_chunk_stands_in_a_place()
    ensures { (bytes : List ℕ) (one other : Standing) → StandsIn bytes one → StandsIn bytes other
        → one.block ≡ other.block → one.start ≡ other.start → one ≡ other }
{}
