//! Reads single blocks of a cartridge, and judges no more of them than is asked.

ghost use Rattle.std.specs.Prelude.{◌≡◌, ◌+◌, ◌≤◌, ◌<◌, ℕ, List, length, take, IfOk};
ghost use Rattle.room_base.specs.Outside.{Told};
ghost use Rattle.room_disk.specs.Disk.{Quiet, FileCause};
ghost use Rattle.volume_store.specs.Committed.{block_at, part_at};
ghost use Rattle.volume_store.specs.Writes.{cart_file, IsCart};
ghost use Rattle.volume_store.specs.Reads.{BeginsSize};
ghost use Rattle.recover_files.specs.Sections.{BlockGives, BlockLacks};
ghost use Rattle.recover_files.specs.Stages.{IsRun, HasBounds, JudgesData, TellsValid};
ghost use Rattle.recover_files.specs.Stages.{IsFoundAt};

use crate::chunks::take_run;
use crate::run::{Run, Wanted};
use room_base::{Cart, Failed, Volid};
use room_disk::Store;
use volume_block::{BLOCK_SIZE, Block, size_told};
use volume_store::{ReadFault, judge_block, read_block, read_blocks};

/// Takes what the data block with this number gives of the wanted bytes. A block that doesn't say
/// that it covers the first of them isn't judged, since valid or not it gives none.
pub(crate) fn read_in_block<D: Store>(
    store: &mut D,
    cart: Cart,
    volid: Volid,
    number: u64,
    wanted: &Wanted,
    into: &mut [u8],
    block: &mut [u8],
) -> Result<Run, Failed>
    requires cart { IsCart cart.0 }
    requires whole { length block.old ≡ 65536 }
    requires some { 1 ≤ wanted.now.most }
    requires room { wanted.now.most ≤ length into.old }
    ensures cause { FileCause (cart_file cart.0) (D.view store.old) (D.view store.new) result }
    ensures tells { (D.view store.new).tells ≡ (D.view store.old).tells }
    ensures quiet { Told (D.view store.old).tells (Quiet (D.view store.old) (D.view store.new)) }
    ensures bounds { IfOk result (HasBounds wanted.now.most) }
    ensures run { Told (D.view store.old).tells (IfOk result (λ run. IsRun
        (BlockGives ((D.view store.old).reads (cart_file cart.0)) volid.0 number
        wanted.now.ssid.0 wanted.now.copy.0)
        (BlockLacks ((D.view store.old).reads (cart_file cart.0)) volid.0 number
        wanted.now.ssid.0 wanted.now.copy.0)
        wanted.now.place into.new run)) }
{
    let read = load(store, cart, number, block)?;
    let bytes = &block[..read.count];
    let run = take_run(bytes, wanted, into);
    if run.count > 0 && !is_data(bytes, read.size, volid, number) {
        return Ok(Run {
            count: 0,
            clear: wanted.most,
        });
    }
    Ok(run)
}

// How many bytes a block tells that it has, and how many of them are there.
#[derive(Clone, Copy)]
struct Loaded {
    size: usize,
    count: usize,
}

// Reads the front of a block, and then the block, where it has more bytes.
fn load<D: Store>(
    store: &mut D,
    cart: Cart,
    number: u64,
    block: &mut [u8],
) -> Result<Loaded, Failed>
    requires cart { IsCart cart.0 }
    requires whole { length block.old ≡ 65536 }
    ensures within { IfOk result (λ read.
        (read.count ≤ read.size) × (4096 ≤ read.size) × (read.size ≤ 65536)) }
    ensures cause { FileCause (cart_file cart.0) (D.view store.old) (D.view store.new) result }
    ensures tells { (D.view store.new).tells ≡ (D.view store.old).tells }
    ensures quiet { Told (D.view store.old).tells (Quiet (D.view store.old) (D.view store.new)) }
    ensures told { Told (D.view store.old).tells (IfOk result (λ read.
        BeginsSize (block_at ((D.view store.old).reads (cart_file cart.0)) number) read.size)) }
    ensures read { Told (D.view store.old).tells (IfOk result (λ read. take read.count block.new
        ≡ part_at read.size ((D.view store.old).reads (cart_file cart.0)) number)) }
{
    let count = load_part(store, cart, number, BLOCK_SIZE, block)?;
    let size = size_begun(&block[..count]);
    if size == BLOCK_SIZE {
        return Ok(Loaded { size, count });
    }
    let count = load_part(store, cart, number, size, block)?;
    Ok(Loaded { size, count })
}

// Reads so many bytes of a block, and answers how many of them are there.
fn load_part<D: Store>(
    store: &mut D,
    cart: Cart,
    number: u64,
    size: usize,
    block: &mut [u8],
) -> Result<usize, Failed>
    requires cart { IsCart cart.0 }
    requires room { size ≤ length block.old }
    ensures within { IfOk result (λ count. count ≤ size) }
    ensures cause { FileCause (cart_file cart.0) (D.view store.old) (D.view store.new) result }
    ensures tells { (D.view store.new).tells ≡ (D.view store.old).tells }
    ensures quiet { Told (D.view store.old).tells (Quiet (D.view store.old) (D.view store.new)) }
    ensures read { Told (D.view store.old).tells (IfOk result (λ count. take count block.new
        ≡ part_at size ((D.view store.old).reads (cart_file cart.0)) number)) }
{
    read_blocks(store, cart, number, &mut block[..size])
}

// The size of the block that begins with these bytes.
fn size_begun(front: &[u8]) -> usize
    ensures size { BeginsSize front.now result }
    ensures range { (4096 ≤ result) × (result ≤ 65536) }
{
    if front.len() < BLOCK_SIZE {
        BLOCK_SIZE
    } else {
        size_told(front)
    }
}

// Whether bytes that were read are a valid data block.
fn is_data(bytes: &[u8], size: usize, volid: Volid, number: u64) -> bool
    requires size { 4096 ≤ size }
    requires within { length bytes.now ≤ size }
    ensures judged { (file : List ℕ) → BeginsSize (block_at file number) size
        → bytes.now ≡ part_at size file number
        → JudgesData file volid.0 number bytes.now result }
{
    match judge_block(bytes, size, volid, number) {
        Ok(Block::Data { .. }) => true,
        Ok(Block::Label(_)) => false,
        Ok(Block::Mark { .. }) => false,
        Err(_) => false,
    }
}

/// Whether the block with this number is a valid data block.
pub(crate) fn is_valid<D: Store>(
    store: &mut D,
    cart: Cart,
    volid: Volid,
    number: u64,
    block: &mut [u8],
) -> Result<bool, Failed>
    requires cart { IsCart cart.0 }
    requires whole { length block.old ≡ 65536 }
    ensures cause { FileCause (cart_file cart.0) (D.view store.old) (D.view store.new) result }
    ensures tells { (D.view store.new).tells ≡ (D.view store.old).tells }
    ensures quiet { Told (D.view store.old).tells (Quiet (D.view store.old) (D.view store.new)) }
    ensures valid { Told (D.view store.old).tells (IfOk result
        (TellsValid ((D.view store.old).reads (cart_file cart.0)) volid.0 number)) }
{
    match find_block(store, cart, volid, number, block)? {
        Some(Block::Data { .. }) => Ok(true),
        Some(Block::Label(_)) => Ok(false),
        Some(Block::Mark { .. }) => Ok(false),
        None => Ok(false),
    }
}

/// The valid block with this number, if there is one.
pub(crate) fn find_block<D: Store>(
    store: &mut D,
    cart: Cart,
    volid: Volid,
    number: u64,
    block: &mut [u8],
) -> Result<Option<Block>, Failed>
    requires cart { IsCart cart.0 }
    requires whole { length block.old ≡ 65536 }
    ensures cause { FileCause (cart_file cart.0) (D.view store.old) (D.view store.new) result }
    ensures tells { (D.view store.new).tells ≡ (D.view store.old).tells }
    ensures quiet { Told (D.view store.old).tells (Quiet (D.view store.old) (D.view store.new)) }
    ensures found { Told (D.view store.old).tells (IfOk result
        (IsFoundAt ((D.view store.old).reads (cart_file cart.0)) volid.0 number)) }
{
    match read_block(store, cart, volid, number, block) {
        Ok(found) => Ok(Some(found)),
        Err(ReadFault::Bad(_)) => Ok(None),
        Err(ReadFault::Failed) => Err(Failed),
    }
}
