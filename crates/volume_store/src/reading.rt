//! Reads single blocks of a cartridge.

ghost use Rattle.std.specs.Prelude.{◌≡◌, ◌≤◌, ◌<◌, ◌*◌, Ok, Err, length, take, drop, IfOk, OnOk};
ghost use Rattle.room_base.specs.Outside.{Told};
ghost use Rattle.room_disk.specs.Disk.{Quiet, FileCause, FaultCause};
ghost use Rattle.volume_block.specs.Valid.{ValidBlock, size_of};
ghost use Rattle.volume_block.specs.declared.block.Block.{Block};
ghost use Rattle.volume_store.specs.declared.reading.ReadFault.TheVariants as faults;
ghost use Rattle.volume_store.specs.Committed.{block_at, part_at};
ghost use Rattle.volume_store.specs.Writes.{cart_file, IsCart};
ghost use Rattle.volume_store.specs.Reads.{HoldsBlocks, JudgesBlock, IsJudged};
ghost use Rattle.volume_store.specs.Reads.{BeginsSize};

use room_base::{Cart, Failed, Volid};
use room_disk::Store;
use volume_block::{BLOCK_SIZE, BadBlock, Block, Reason, decode_block, size_told};

/// Why a block wasn't read.
#[derive(Clone, Copy)]
pub enum ReadFault {
    /// The disk failed.
    Failed,
    /// The block isn't a valid one of its volume and number, and which part of it is the first
    /// wrong one. Where the file ends inside the block that is its length.
    Bad(BadBlock),
}

impl From<Failed> for ReadFault {
    ghost use Rattle.std.specs.Prelude.{◌≡◌};
    ghost use Rattle.volume_store.specs.declared.reading.ReadFault.TheVariants as faults;

    ghost from_gives = { λ _ fault. fault ≡ faults.Failed };

    fn from(_: Failed) -> ReadFault {
        ReadFault::Failed
    }
}

/// Reads the block with this number of this volume from a cartridge. It reads 4,096 bytes, and then
/// as many as these tell that the block has. `into` begins with the block after an `Ok`.
pub fn read_block<D: Store>(
    store: &mut D,
    cart: Cart,
    volid: Volid,
    number: u64,
    into: &mut [u8],
) -> Result<Block, ReadFault>
    requires cart { IsCart cart.0 }
    requires whole { length into.old ≡ 65536 }
    ensures cause { FaultCause (cart_file cart.0) (D.view store.old) (D.view store.new)
        (result ≡ Err faults.Failed) }
    ensures tells { (D.view store.new).tells ≡ (D.view store.old).tells }
    ensures quiet { Told (D.view store.old).tells (Quiet (D.view store.old) (D.view store.new)) }
    ensures valid { IfOk result (λ block.
        ValidBlock (take (size_of block) into.new) volid.0 number block) }
    ensures read { Told (D.view store.old).tells (IfOk result (λ block.
        take (size_of block) into.new
        ≡ part_at (size_of block) ((D.view store.old).reads (cart_file cart.0)) number)) }
    ensures judged { Told (D.view store.old).tells
        (JudgesBlock ((D.view store.old).reads (cart_file cart.0)) volid.0 number result) }
{
    let read = read_told(store, cart.0 + 1, number, into)?;
    match judge_block(&into[..read.count], read.size, volid, number) {
        Ok(block) => Ok(block),
        Err(bad) => Err(ReadFault::Bad(bad)),
    }
}

// How many bytes a block has, and how many of them are there.
#[derive(Clone, Copy)]
struct ReadSize {
    size: usize,
    count: usize,
}

// Reads the front of a block, and then the block, where it has more bytes.
fn read_told<D: Store>(
    store: &mut D,
    file: u32,
    number: u64,
    into: &mut [u8],
) -> Result<ReadSize, Failed>
    requires { length into.old ≡ 65536 }
    ensures within { IfOk result (λ read.
        (read.count ≤ read.size) × (4096 ≤ read.size) × (read.size ≤ 65536)) }
    ensures cause { FileCause file (D.view store.old) (D.view store.new) result }
    ensures tells { (D.view store.new).tells ≡ (D.view store.old).tells }
    ensures quiet { Told (D.view store.old).tells (Quiet (D.view store.old) (D.view store.new)) }
    ensures told { Told (D.view store.old).tells (IfOk result (λ read.
        BeginsSize (block_at ((D.view store.old).reads file) number) read.size)) }
    ensures read { Told (D.view store.old).tells (IfOk result (λ read.
        take read.count into.new ≡ part_at read.size ((D.view store.old).reads file) number)) }
{
    let count = read_part(store, file, number, BLOCK_SIZE, into)?;
    let size = size_begun(&into[..count]);
    if size == BLOCK_SIZE {
        return Ok(ReadSize { size, count });
    }
    let count = read_part(store, file, number, size, into)?;
    Ok(ReadSize { size, count })
}

// Reads so many bytes from the block with this number on, and answers how many of them are there.
fn read_part<D: Store>(
    store: &mut D,
    file: u32,
    number: u64,
    size: usize,
    into: &mut [u8],
) -> Result<usize, Failed>
    requires { size ≤ length into.old }
    ensures room { length into.new ≡ length into.old }
    ensures within { IfOk result (λ count. count ≤ size) }
    ensures cause { FileCause file (D.view store.old) (D.view store.new) result }
    ensures tells { (D.view store.new).tells ≡ (D.view store.old).tells }
    ensures quiet { Told (D.view store.old).tells (Quiet (D.view store.old) (D.view store.new)) }
    ensures read { Told (D.view store.old).tells (IfOk result (λ count.
        take count into.new ≡ part_at size ((D.view store.old).reads file) number)) }
{
    read_from(store, file, number, &mut into[..size])
}

// The size of the block that begins with these bytes.
fn size_begun(front: &[u8]) -> usize
    ensures size { BeginsSize front.now result }
    ensures range { (4096 ≤ result) × (result ≤ 65536) }
{
    if front.len() < BLOCK_SIZE {
        BLOCK_SIZE
    } else {
        size_told(front)
    }
}

/// Reads the blocks of a cartridge from this number on, as many as there is room for, in one read
/// of the disk. Answers how many bytes of them are there: fewer than there is room for where the
/// file ends. `judge_block` judges each.
pub fn read_blocks<D: Store>(
    store: &mut D,
    cart: Cart,
    first: u64,
    into: &mut [u8],
) -> Result<usize, Failed>
    requires { IsCart cart.0 }
    ensures within { IfOk result (λ count. count ≤ length into.old) }
    ensures cause { FileCause (cart_file cart.0) (D.view store.old) (D.view store.new) result }
    ensures tells { (D.view store.new).tells ≡ (D.view store.old).tells }
    ensures quiet { Told (D.view store.old).tells (Quiet (D.view store.old) (D.view store.new)) }
    ensures read { Told (D.view store.old).tells (IfOk result (λ count.
        HoldsBlocks ((D.view store.old).reads (cart_file cart.0)) first (length into.old)
        (take count into.new))) }
{
    read_from(store, cart.0 + 1, first, into)
}

#[tactic(auto, using(crate::proofs::Finding::wrong_block))]
/// Judges the bytes of the block of `size` bytes with this number of this volume, of which some may
/// be missing where the file ends inside it.
pub fn judge_block(bytes: &[u8], size: usize, volid: Volid, number: u64) -> Result<Block, BadBlock>
    requires size { 4096 ≤ size }
    requires within { length bytes.now ≤ size }
    ensures judged { IsJudged size bytes.now volid.0 number result }
    ensures whole { OnOk result (length bytes.now ≡ size) }
    ensures only { (block : Block) → size_of block ≡ size
        → ValidBlock bytes.now volid.0 number block → result ≡ Ok block }
{
    if bytes.len() < size {
        return Err(BadBlock {
            why: Reason::Length,
        });
    }
    decode_block(bytes, volid, number)
}

/// Reads a block, and answers how many of its bytes are there: fewer than all where the file ends
/// inside it.
pub(crate) fn read_front<D: Store>(
    store: &mut D,
    file: u32,
    number: u64,
    block: &mut [u8],
) -> Result<usize, Failed>
    requires { length block.old ≡ 4096 }
    ensures within { IfOk result (λ count. count ≤ 4096) }
    ensures cause { FileCause file (D.view store.old) (D.view store.new) result }
    ensures tells { (D.view store.new).tells ≡ (D.view store.old).tells }
    ensures quiet { Told (D.view store.old).tells (Quiet (D.view store.old) (D.view store.new)) }
    ensures read { Told (D.view store.old).tells (IfOk result (λ count.
        take count block.new ≡ block_at ((D.view store.old).reads file) number)) }
{
    read_from(store, file, number, block)
}

#[tactic(auto, using(crate::proofs::Finding::front_of, crate::proofs::Finding::past_all))]
// Reads from the block with this number on, and answers how many bytes are there.
fn read_from<D: Store>(
    store: &mut D,
    file: u32,
    first: u64,
    into: &mut [u8],
) -> Result<usize, Failed>
    ensures within { IfOk result (λ count. count ≤ length into.old) }
    ensures cause { FileCause file (D.view store.old) (D.view store.new) result }
    ensures tells { (D.view store.new).tells ≡ (D.view store.old).tells }
    ensures quiet { Told (D.view store.old).tells (Quiet (D.view store.old) (D.view store.new)) }
    ensures read { Told (D.view store.old).tells (IfOk result (λ count. take count into.new
        ≡ take (length into.old) (drop (4096 * first) ((D.view store.old).reads file)))) }
{
    let Some(at) = first.checked_mul(BLOCK_SIZE as u64) else {
        // The file's length, which fits a `u64`, is below such a place.
        let _len = store.len(file)?;
        return Ok(0);
    };
    let count = store.read_at(file, at, into)?;
    Ok(count as usize)
}
