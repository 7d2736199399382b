//! Laws of packing and of tiling: each function has an empty body, and its contract is the law.

ghost use Rattle.std.specs.Prelude.{◌≡◌, ◌+◌, ◌≤◌, ◌<◌, ◌^◌, ◌==◌, ◌||◌, ◌↔◌, ◌⊎◌, ◌++◌, ℕ, List};
ghost use Rattle.std.specs.Prelude.{◌-◌, ◌*◌, [], length, take, get_or, count_by, All};
ghost use Rattle.std.specs.Int.{div_ceil};
ghost use Rattle.volume_block.specs.Chunks.{ChunkText, all_chunks, JoinFrom, joined};
ghost use Rattle.volume_block.specs.Standing.{Standing, InBlocks, chunks_of};
ghost use Rattle.volume_block.specs.Region.{AreBlocks};
ghost use Rattle.chunk_mux.specs.Packing.{BufferView, empty, payload_size, chunk_size, pack};
ghost use Rattle.chunk_mux.specs.Packing.{packed, room_in, first_in, fits_in, fits_behind, Fits};
ghost use Rattle.chunk_mux.specs.Pushes.{Push, AddsChunks, pushed, bytes_of, pieces_of, has_set};
ghost use Rattle.chunk_mux.specs.Spans.{IsPartOf, HasOneMore, begun_by, room_after};
ghost use Rattle.chunk_mux.specs.Placing.{AreOfCopy, places_of};
ghost use Rattle.std.specs.List.Sorted.{IsSorted};
ghost use Rattle.chunk_mux.specs.Sections.{SplitInto, JoinSections, sections_of};
ghost use Rattle.chunk_mux.specs.Tiles.{IsInStream, place_order, tiling_from, has_place};
ghost use Rattle.chunk_mux.specs.declared.tiling.Placed.{Placed};
ghost use Rattle.chunk_mux.specs.declared.tiling.Tiling.TheVariants.{Whole, Hole, Overlap};

/// An empty buffer has room for 64 chunks in blocks of their own. One piece in empty blocks is in
/// as few data blocks as hold it, and its chunks join to it.
pub fn one_push_is_kept()
    ensures room { (units : ℕ) → fits_in (empty units) ≡ (4096 * units - 80) * 64 }
    ensures joined { (size ssid copy offset : ℕ) (piece : List ℕ) → 25 ≤ size
        → JoinFrom ssid copy offset (all_chunks (packed size [] ssid copy offset piece)) piece }
    ensures count { (size ssid copy offset : ℕ) (piece : List ℕ) → 25 ≤ size
        → length (packed size [] ssid copy offset piece)
        ≡ div_ceil (length piece) (chunk_size size) }
{}

/// Whatever is pushed in whichever order, the chunks of each copy have the bytes that they had and
/// those that were pushed for it, in their order. Each push leaves the chunks that are there, and
/// its own ones, behind them, begin at its offset, follow each other, join to its piece, and are
/// slices of it, so that a save set has a chunk where it had one or pushed bytes. A piece without
/// bytes changes nothing. Payloads of any size are filled so.
pub fn all_pushes_are_kept()
    ensures empty { (size : ℕ) (blocks : List (List ChunkText)) (ssid copy offset : ℕ)
        → packed size blocks ssid copy offset [] ≡ blocks }
    ensures each { (size : ℕ) (blocks : List (List ChunkText)) (ssid copy offset : ℕ)
        (piece : List ℕ) → 25 ≤ size
        → AddsChunks blocks (packed size blocks ssid copy offset piece) ssid copy offset piece }
    ensures joined { (size : ℕ) (blocks : List (List ChunkText)) (pushes : List Push)
        (ssid copy : ℕ) → 25 ≤ size
        → bytes_of ssid copy (all_chunks (pushed size blocks pushes))
        ≡ bytes_of ssid copy (all_chunks blocks) ++ pieces_of ssid copy pushes }
    ensures sets { (size : ℕ) (blocks : List (List ChunkText)) (ssid copy offset other : ℕ)
        (piece : List ℕ) → 25 ≤ size → 1 ≤ length piece
        → has_set other (all_chunks (packed size blocks ssid copy offset piece))
        ≡ (has_set other (all_chunks blocks) || (ssid == other)) }
{}

/// The blocks before the first one that a piece goes into stay as they were. Each block from there
/// up to the last has one chunk more than it had, which is a part of the piece, where the piece has
/// bytes.
pub fn a_push_fills_its_span()
    ensures before { (size : ℕ) (blocks : List (List ChunkText)) (ssid copy offset : ℕ)
        (piece : List ℕ) → 25 ≤ size
        → take (first_in size blocks piece) (packed size blocks ssid copy offset piece)
        ≡ take (first_in size blocks piece) blocks }
    ensures span { (size : ℕ) (blocks : List (List ChunkText)) (ssid copy offset : ℕ)
        (piece : List ℕ) (i : ℕ) → 25 ≤ size → 1 ≤ length piece
        → first_in size blocks piece ≤ i → i < length (packed size blocks ssid copy offset piece)
        → HasOneMore ssid copy offset piece (get_or blocks i [])
        (get_or (packed size blocks ssid copy offset piece) i []) }
{}

/// How many blocks there are after a push, how much room the last one has, and whether the piece
/// fits follow from numbers alone: how many blocks there were, the room in the last of them, and
/// the length of the piece.
pub fn pushes_are_counted()
    ensures count { (size : ℕ) (blocks : List (List ChunkText)) (ssid copy offset : ℕ)
        (piece : List ℕ) → 25 ≤ size
        → length (packed size blocks ssid copy offset piece)
        ≡ length blocks + begun_by size (room_in size blocks) (length piece) }
    ensures room { (size : ℕ) (blocks : List (List ChunkText)) (ssid copy offset : ℕ)
        (piece : List ℕ) → 25 ≤ size
        → room_in size (packed size blocks ssid copy offset piece)
        ≡ room_after size (room_in size blocks) (length piece) }
    ensures fits { (size most : ℕ) (blocks : List (List ChunkText)) (ssid copy offset : ℕ)
        (piece : List ℕ) → 25 ≤ size → length blocks ≤ most
        → (length piece ≤ fits_behind size most blocks)
        ↔ (length (packed size blocks ssid copy offset piece) ≤ most) }
    ensures buffer { (buffer : BufferView) (ssid copy offset : ℕ) (piece : List ℕ)
        → 1 ≤ buffer.units → length buffer.blocks ≤ 64 → Fits buffer (length piece)
        ↔ (length (pack buffer ssid copy offset piece).blocks ≤ 64) }
{}

/// A push keeps blocks that are allowed allowed.
pub fn pushed_blocks_are_allowed()
    ensures { (units : ℕ) (blocks : List (List ChunkText)) (ssid copy offset : ℕ) (piece : List ℕ)
        → 1 ≤ units → (1 ≤ ssid) × (ssid < 2 ^ 64) → (1 ≤ copy) × (copy < 2 ^ 32)
        → offset + length piece ≤ 2 ^ 36 → AreBlocks units blocks
        → AreBlocks units (packed (payload_size units) blocks ssid copy offset piece) }
{}

/// A push leaves each chunk where it stands in the file that the blocks will be. The chunks that
/// stand there after it stood there before, or are parts of the piece.
pub fn a_push_adds_its_chunks()
    ensures kept { (size volid mark units : ℕ) (blocks : List (List ChunkText))
        (ssid copy offset : ℕ) (piece : List ℕ) (one : Standing) → 25 ≤ size
        → InBlocks volid mark units blocks one
        → InBlocks volid mark units (packed size blocks ssid copy offset piece) one }
    ensures added { (size volid mark units : ℕ) (blocks : List (List ChunkText))
        (ssid copy offset : ℕ) (piece : List ℕ) (one : Standing) → 25 ≤ size
        → InBlocks volid mark units (packed size blocks ssid copy offset piece) one
        → InBlocks volid mark units blocks one ⊎ IsPartOf ssid copy offset piece one.chunk }
{}

/// The chunks of one copy that are found to be whole join from 0 on, and have as many bytes as
/// that. Those that join are found whole.
pub fn whole_chunks_join()
    ensures joined { (run : List Standing) (ssid copy size : ℕ) → AreOfCopy ssid copy run
        → tiling_from 0 (places_of run) ≡ Whole size
        → JoinFrom ssid copy 0 (chunks_of run) (joined (chunks_of run)) }
    ensures size { (run : List Standing) (ssid copy size : ℕ) → AreOfCopy ssid copy run
        → tiling_from 0 (places_of run) ≡ Whole size → length (joined (chunks_of run)) ≡ size }
    ensures whole { (run : List Standing) (ssid copy : ℕ) (bytes : List ℕ)
        → JoinFrom ssid copy 0 (chunks_of run) bytes
        → tiling_from 0 (places_of run) ≡ Whole (length bytes) }
{}

/// Of chunks that are whole each place below the length is in exactly one, and no other is in any.
pub fn whole_covers_once()
    ensures within { (chunks : List Placed) (size place : ℕ)
        → tiling_from 0 chunks ≡ Whole size → place < size
        → count_by (has_place place) chunks ≡ 1 }
    ensures behind { (chunks : List Placed) (size place : ℕ)
        → tiling_from 0 chunks ≡ Whole size → size ≤ place
        → count_by (has_place place) chunks ≡ 0 }
{}

/// Of sorted chunks with a hole each place below it is in exactly one, and its own in none.
pub fn a_hole_is_the_first()
    ensures below { (chunks : List Placed) (at place : ℕ) → IsSorted place_order chunks
        → tiling_from 0 chunks ≡ Hole at → place < at
        → count_by (has_place place) chunks ≡ 1 }
    ensures here { (chunks : List Placed) (at : ℕ) → IsSorted place_order chunks
        → tiling_from 0 chunks ≡ Hole at
        → count_by (has_place at) chunks ≡ 0 }
{}

/// Of sorted chunks with an overlap each place below it is in exactly one, and its own in two or
/// more.
pub fn an_overlap_is_the_first()
    ensures below { (chunks : List Placed) (at place : ℕ) → IsSorted place_order chunks
        → All IsInStream chunks → tiling_from 0 chunks ≡ Overlap at → place < at
        → count_by (has_place place) chunks ≡ 1 }
    ensures here { (chunks : List Placed) (at : ℕ) → IsSorted place_order chunks
        → All IsInStream chunks → tiling_from 0 chunks ≡ Overlap at
        → 2 ≤ count_by (has_place at) chunks }
{}

/// The sections of a copy split its chunks, in their order, into the longest runs that lie in one
/// file of one volume. Those of a whole copy join from 0 to its length.
pub fn sections_are_longest_runs()
    ensures split { (run : List Placed) → SplitInto run (sections_of run) }
    ensures joined { (run : List Placed) (size : ℕ) → All IsInStream run
        → tiling_from 0 run ≡ Whole size → JoinSections 0 (sections_of run) size }
{}
