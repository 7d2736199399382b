//! Laws of blocks: each function has an empty body, and its contract is the law.

ghost use Rattle.std.specs.Prelude.{◌≡◌, ℕ, List};
ghost use Rattle.volume_block.specs.Chunks.{ChunkText, JoinFrom, joined};
ghost use Rattle.volume_block.specs.Valid.{HoldsChunks, ValidBlock};
ghost use Rattle.volume_block.specs.declared.block.Block.{Block};

/// Bytes are a valid block of one volume and one number at most, and one block alone. So what was
/// written is read with the same fields, and nowhere else.
#[tactic(auto, using(crate::proofs::OneBlock::one_block))]
pub fn one_block()
    ensures { (bytes : List ℕ) (volid number volume place : ℕ) (block other : Block)
        → ValidBlock bytes volid number block
        → ValidBlock bytes volume place other → (volid ≡ volume) × (number ≡ place)
        × (block ≡ other) }
{}

/// A data block holds one list of chunks.
#[tactic(auto, using(crate::proofs::OneBlock::one_list_of_chunks))]
pub fn one_list_of_chunks()
    ensures { (bytes : List ℕ) (volid number units volume place others_units : ℕ)
        (chunks others : List ChunkText) → HoldsChunks bytes volid number units chunks
        → HoldsChunks bytes volume place others_units others → chunks ≡ others }
{}

/// Chunks that join to bytes have these bytes, in their order.
#[tactic(auto, using(crate::proofs::Appending::joined_bytes))]
pub fn joined_chunks()
    ensures { (ssid copy offset : ℕ) (chunks : List ChunkText) (bytes : List ℕ)
        → JoinFrom ssid copy offset chunks bytes → joined chunks ≡ bytes }
{}
