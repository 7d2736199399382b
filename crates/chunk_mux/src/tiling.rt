//! Whether the chunks of a copy make a whole stream.

ghost use Rattle.std.specs.Prelude.{◌≡◌, ◌+◌, ◌<◌, All, length};
ghost use Rattle.std.specs.List.Sorted.{IsPermutation, IsSorted};
ghost use Rattle.chunk_mux.specs.Tiles.{IsInStream, StandApart, AreInOrder, place_order};
ghost use Rattle.chunk_mux.specs.Tiles.{tiling_from};

use room_base::Volid;

/// Where a chunk of a copy stands: `length` bytes of its stream from `offset` on, in a block of a
/// volume, from the block's byte `start` on. `mark` is the mark place of the block's file.
#[derive(Clone, Copy)]
pub struct Placed {
    pub volid: Volid,
    pub block: u64,
    pub mark: u64,
    pub offset: u64,
    pub length: u32,
    pub start: u32,
}

/// What the chunks of a copy make of its stream.
#[derive(Clone, Copy)]
pub enum Tiling {
    /// They follow each other from 0 on, up to this length.
    Whole { length: u64 },
    /// No chunk has the byte at this place, and chunks have those before it and bytes behind it.
    Hole { at: u64 },
    /// The chunk that begins at this place begins before the one before it ends.
    Overlap { at: u64 },
}

/// Sorts the chunks of a copy by offset, volid, block and start, and answers the first hole or
/// overlap of a walk from place 0 on. It takes no memory.
pub fn tile(chunks: &mut Vec<Placed>) -> Tiling
    requires { All IsInStream chunks.old.items }
    ensures same { IsPermutation chunks.old.items chunks.new.items }
    ensures sorted { IsSorted place_order chunks.new.items }
    // Of chunks that each stand in a place of their own, each is before all those behind it.
    ensures strict { StandApart chunks.old.items → AreInOrder chunks.new.items }
    ensures tiling { result ≡ tiling_from 0 chunks.new.items }
{
    chunks.sort_unstable_by_key(|chunk| (chunk.offset, chunk.volid, chunk.block, chunk.start));
    walk(chunks)
}

// Walks over chunks in order.
fn walk(chunks: &[Placed]) -> Tiling
    requires { All IsInStream chunks.now }
    ensures { result ≡ tiling_from 0 chunks.now }
{
    let mut place = 0;
    for chunk in chunks {
        if chunk.offset > place {
            return Tiling::Hole { at: place };
        }
        if chunk.offset < place {
            return Tiling::Overlap { at: chunk.offset };
        }
        place += u64::from(chunk.length);
    }
    Tiling::Whole { length: place }
}
