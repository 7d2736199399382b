//! Laws of streams: each function has an empty body, and its contract is the law.

ghost use Rattle.std.specs.Prelude.{◌≡◌, ◌↔◌, ◌≤◌, ◌⊎◌, ℕ, ◌+◌, ◌++◌, ◌∷◌, List, length, None};
ghost use Rattle.std.specs.Prelude.{Result, Ok, Err, true};
ghost use Rattle.std.specs.List.{flat_map};
ghost use Rattle.save_stream.specs.declared.head.SetHead.{SetHead};
ghost use Rattle.save_stream.specs.declared.fault.StreamFault.{StreamFault};
ghost use Rattle.save_stream.specs.declared.fault.StreamFault.TheVariants.{Bad, TooMany};
ghost use Rattle.save_stream.specs.BadField.{HasBadField, HasEntryTooMany};
ghost use Rattle.save_stream.specs.declared.entry.IndexEntry.{IndexEntry};
ghost use Rattle.save_stream.specs.declared.fault.HeadFault.{HeadFault};
ghost use Rattle.save_stream.specs.declared.fault.HeadFault.TheVariants as head_faults;
ghost use Rattle.save_stream.specs.Heads.{EndsInHead, HasBadHead, ReadsHead};
ghost use Rattle.save_stream.specs.Fields.{Fields, StreamFields, StreamIndex, fields_read};
ghost use Rattle.save_stream.specs.Fields.{fields_of, HasRead};
ghost use Rattle.save_stream.specs.Spelling.{IsHead, IsStream, Saved, PathsAscend, StreamText};
ghost use Rattle.save_stream.specs.Spelling.{max_entries, max_size, head_text, entry_text};
ghost use Rattle.save_stream.specs.Spelling.{index_of, index_from, index_entry, stream_text};
ghost use Rattle.save_stream.specs.Spelling.{file_bytes};
ghost use Rattle.save_stream.specs.Reading.{Reading, at_end, behind_head, start, reads, reads_all};
ghost use Rattle.save_stream.specs.Standing.{AreBytes, IsAllowed, IsWhole, Stands};

/// A head and entries have one spelling, and no spelling begins another.
pub fn one_spelling()
    ensures { (head other : SetHead) (entries others : List Saved) (more rest : List ℕ)
        → IsStream head entries → IsStream other others
        → stream_text head entries ++ more ≡ stream_text other others ++ rest → (head ≡ other)
        × (entries ≡ others) × (more ≡ rest) }
{}

/// The index lists the entries in their order, and has the place of each file's bytes.
pub fn index_has_the_files()
    ensures { (head : SetHead) (before after : List Saved) (entry : Saved)
        → IsStream head (before ++ entry ∷ after)
        → let at = length (head_text head) + length (flat_map entry_text before) in
        (index_of head (before ++ entry ∷ after)
        ≡ index_of head before
        ++ index_entry at entry ∷ index_from (at + length (entry_text entry)) after)
        × (file_bytes (stream_text head (before ++ entry ∷ after)) (index_entry at entry)
        ≡ entry.bytes) }
{}

/// What is read doesn't depend on how a stream is cut into pieces.
pub fn same_in_any_pieces()
    ensures { (reading : Reading) (pieces : List (List ℕ))
        → reads_all reading pieces ≡ reads reading (flat_map (λ piece. piece) pieces) }
{}

/// What is spelled as the grammar says is read to its end, with its head, its index and its length,
/// also by a reader that was given the head.
pub fn streams_are_read()
    ensures whole { (text : List ℕ) (head : SetHead) (entries : List Saved)
        → StreamText text head entries
        → reads start text ≡ Ok (at_end head (length text) (index_of head entries)) }
    ensures after { (head : SetHead) (rest : List ℕ) → IsHead head
        → reads start (head_text head ++ rest)
        ≡ reads (behind_head (length (head_text head)) head) rest }
{}

/// What is read so far is spelled by its head, its entries and what isn't complete yet, and all of
/// that is allowed.
pub fn what_is_read_is_spelled()
    ensures from_start { (text : List ℕ) (reading : Reading) → AreBytes text
        → reads start text ≡ Ok reading → Stands text reading }
    ensures from_head { (head : SetHead) (body : List ℕ) (reading : Reading) → IsHead head
        → AreBytes body
        → reads (behind_head (length (head_text head)) head) body ≡ Ok reading
        → Stands (head_text head ++ body) reading }
{}

/// A text is allowed as far as it goes, or has a first field that isn't, or one entry too many.
/// What is allowed is read, and so is each front of it, also of a whole stream.
pub fn texts_are_allowed_or_bad()
    ensures each { (text : List ℕ)
        → IsAllowed text
        ⊎ ((offset : ℕ) × (HasBadField text offset ⊎ HasEntryTooMany text offset)) }
    ensures bad { (text : List ℕ) (offset : ℕ) → HasBadField text offset → ¬ (IsAllowed text) }
    ensures many { (text : List ℕ) (offset : ℕ) → HasEntryTooMany text offset → ¬ (IsAllowed text) }
    ensures front { (text more : List ℕ) → IsAllowed (text ++ more) → IsAllowed text }
    ensures stream { (text more : List ℕ) → IsWhole (text ++ more) → IsAllowed text }
    ensures read { (text : List ℕ) → AreBytes text → IsAllowed text
        → (reading : Reading) × (reads start text ≡ Ok reading) × Stands text reading }
{}

/// The paths of what is read so far ascend.
pub fn paths_that_are_read_ascend()
    ensures { (text : List ℕ) (reading : Reading) → Stands text reading
        → PathsAscend reading.entries }
{}

/// Where bytes begin with the text of a head, nothing but that head is read, unless memory runs
/// out. What else is answered is what the reader of a stream finds in them.
pub fn heads_are_read()
    ensures alone { (head : SetHead) (rest : List ℕ) (answer : Result (SetHead × List ℕ) HeadFault)
        → IsHead head → ReadsHead (λ x. x.0) (λ x. x.1) (head_text head ++ rest) answer
        → (answer ≡ Ok (head, rest)) ⊎ (answer ≡ Err head_faults.Memory) }
    ensures incomplete { (bytes : List ℕ) → AreBytes bytes → EndsInHead bytes
        → (reading : Reading) × (reads start bytes ≡ Ok reading) × (reading.head ≡ None) }
    ensures bad { (bytes : List ℕ) (offset : ℕ) → HasBadHead bytes offset
        → HasBadField bytes offset }
{}

/// What is read to an end is a whole stream.
pub fn ended_streams_are_whole()
    ensures { (text : List ℕ) (reading : Reading) → Stands text reading → reading.ended ≡ true
        → length text ≤ max_size → IsWhole text }
{}

/// Bytes with a fault are the beginning of no stream.
pub fn faults_begin_no_stream()
    ensures { (text more : List ℕ) (fault : StreamFault) → reads start text ≡ Err fault
        → ¬ (IsWhole (text ++ more)) }
{}

/// A text has at most one index, and one head, number of files, length and digest.
pub fn fields_are_one()
    ensures fields { (text : List ℕ) (one other : Fields) → StreamFields text one
        → StreamFields text other → one ≡ other }
    ensures index { (text : List ℕ) (one other : List IndexEntry) → StreamIndex text one
        → StreamIndex text other → one ≡ other }
{}

/// A reader at the end of a stream has read its fields and its index, and has each file's bytes at
/// the place that the index says. One that was given the head needs the bytes behind it alone.
pub fn ends_have_the_fields()
    ensures from_start { (text : List ℕ) (reading : Reading) → AreBytes text
        → reads start text ≡ Ok reading
        → reading.ended ≡ true → length text ≤ max_size → (head : SetHead)
        × ((entries : List Saved) × HasRead text head entries reading) }
    ensures from_head { (head : SetHead) (body : List ℕ) (reading : Reading) → IsHead head
        → AreBytes body
        → reads (behind_head (length (head_text head)) head) body ≡ Ok reading
        → reading.ended ≡ true → length (head_text head ++ body) ≤ max_size
        → ((entries : List Saved) × HasRead (head_text head ++ body) head entries reading)
        × StreamFields (head_text head ++ body) (fields_read head body reading) }
{}

/// `Bad` is answered exactly where a field isn't allowed in its place, with the offset of the first
/// one, and `TooMany` exactly where one more entry begins than there may be.
pub fn faults_have_their_causes()
    ensures bad { (stream : List ℕ) (offset : ℕ)
        → (reads start stream ≡ Err (Bad offset)) ↔ HasBadField stream offset }
    ensures many { (stream : List ℕ) (limit : ℕ) → (reads start stream ≡ Err (TooMany limit))
        ↔ ((limit ≡ max_entries) × ((offset : ℕ) × HasEntryTooMany stream offset)) }
{}
