ghost use Rattle.std.specs.Prelude.{◌≡◌, ◌+◌, ◌≤◌, ◌<◌, ◌^◌, ℕ, List, length, take, Err, IfOk, OnOk};
ghost use Rattle.std.specs.Prelude.{MatchResult, vec_len};
ghost use Rattle.room_base.specs.Outside.{SourceView, ClockView, Told};
ghost use Rattle.room_disk.specs.Disk.{Quiet, FaultCause};
ghost use Rattle.volume_block.specs.Chunks.{ChunkText};
ghost use Rattle.volume_block.specs.Layout.{IsUnits, data_size};
ghost use Rattle.volume_block.specs.Valid.{HoldsChunks, IsRaw};
ghost use Rattle.volume_store.specs.Committed.{CommittedFile, HasLabel, AreDataPlaces};
ghost use Rattle.volume_store.specs.Writes.{cart_file, IsCart};
ghost use Rattle.room_run.specs.Raw.{HasBytes, GivesFile};
ghost use Rattle.room_run.specs.Run.{world, Later, GetEnds};
ghost use Rattle.room_run.specs.Stages.{JudgesFile, IsPlaceOf, IsPlaceWithin, IsDataRead};
ghost use Rattle.room_run.specs.Stages.{JudgesPlaces};
ghost use Rattle.room_run.specs.declared.get.DataFault.TheVariants as data_faults;
ghost use Rattle.room_run.specs.declared.get.FileFault.TheVariants as file_faults;

use crate::Status;
use crate::fault_status::file_status_of;
use crate::raw::chunk_size;
use room_base::{Cart, Sink, Volid, write_all};
use room_disk::Store;
use std::alloc::{AllocError, Global};
use volume_block::{BLOCK_SIZE, Block, Label, MAX_BLOCK_SIZE, append_chunks};
use volume_store::{FilePlace, Found, ReadFault, WalkFault, read_block, read_label, walk_marks};

/// Why a file isn't read.
#[derive(Clone, Copy)]
pub enum FileFault {
    Memory,
    /// The disk failed.
    Failed,
    /// The cartridge has no label.
    Unlabelled,
    /// The label isn't valid.
    BadLabel,
    /// A mark, or a data block of the file, isn't valid, or isn't there.
    Damaged { volid: Volid, block: u64 },
    /// The label isn't raw.
    Strange { volid: Volid },
    /// There is no file with this number.
    NoFile,
}

/// Why the data blocks of a file weren't read.
#[derive(Clone, Copy)]
enum DataFault {
    Memory,
    /// The disk failed.
    Failed,
    /// The block with this number isn't a valid data block.
    Damaged { block: u64 },
}

/// Reads the file of the cartridge with this number, counted from 1. Nothing is written.
pub fn read_file<D: Store>(
    alloc: Global,
    cart: Cart,
    number: u64,
    disk: &mut D,
) -> Result<Vec<u8>, FileFault>
    requires cart { IsCart cart.0 }
    requires number { 1 ≤ number }
    ensures cause { FaultCause (cart_file cart.0) (D.view disk.old) (D.view disk.new)
        (result ≡ Err file_faults.Failed) }
    ensures tells { (D.view disk.new).tells ≡ (D.view disk.old).tells }
    ensures quiet { Told (D.view disk.old).tells (Quiet (D.view disk.old) (D.view disk.new)) }
    ensures read { Told (D.view disk.old).tells (MatchResult result
        (λ bytes. GivesFile ((D.view disk.old).reads (cart_file cart.0)) number bytes.items)
        (JudgesFile number ((D.view disk.old).reads (cart_file cart.0)))) }
{
    let label = find_raw_label(cart, disk)?;
    let place = find_place(cart, &label, number, disk)?;
    match read_places(alloc, cart, &label, place, disk) {
        Ok(bytes) => Ok(bytes),
        Err(DataFault::Memory) => Err(FileFault::Memory),
        Err(DataFault::Failed) => Err(FileFault::Failed),
        Err(DataFault::Damaged { block }) => Err(FileFault::Damaged {
            volid: label.volid,
            block,
        }),
    }
}

// The label of a raw cartridge.
fn find_raw_label<D: Store>(cart: Cart, disk: &mut D) -> Result<Label, FileFault>
    requires { IsCart cart.0 }
    ensures cause { FaultCause (cart_file cart.0) (D.view disk.old) (D.view disk.new)
        (result ≡ Err file_faults.Failed) }
    ensures tells { (D.view disk.new).tells ≡ (D.view disk.old).tells }
    ensures quiet { Told (D.view disk.old).tells (Quiet (D.view disk.old) (D.view disk.new)) }
    ensures raw { IfOk result IsRaw }
    ensures units { IfOk result (λ label. IsUnits label.units) }
    ensures found { Told (D.view disk.old).tells ((number : ℕ) → MatchResult result
        (HasLabel ((D.view disk.old).reads (cart_file cart.0)))
        (JudgesFile number ((D.view disk.old).reads (cart_file cart.0)))) }
{
    let Ok(found) = read_label(disk, cart) else {
        return Err(FileFault::Failed);
    };
    match found {
        Found::Blank | Found::Closed => Err(FileFault::Unlabelled),
        Found::Damaged(_) => Err(FileFault::BadLabel),
        Found::Labelled(label) if label.is_raw() => Ok(label),
        Found::Labelled(label) => Err(FileFault::Strange { volid: label.volid }),
    }
}

// The place of the file with this number.
fn find_place<D: Store>(
    cart: Cart,
    label: &Label,
    number: u64,
    disk: &mut D,
) -> Result<FilePlace, FileFault>
    requires cart { IsCart cart.0 }
    requires number { 1 ≤ number }
    requires raw { IsRaw label.now }
    requires units { IsUnits label.now.units }
    ensures cause { FaultCause (cart_file cart.0) (D.view disk.old) (D.view disk.new)
        (result ≡ Err file_faults.Failed) }
    ensures tells { (D.view disk.new).tells ≡ (D.view disk.old).tells }
    ensures within { IfOk result (IsPlaceWithin label.now.units) }
    ensures quiet { Told (D.view disk.old).tells (Quiet (D.view disk.old) (D.view disk.new)) }
    ensures found { Told (D.view disk.old).tells
        (HasLabel ((D.view disk.old).reads (cart_file cart.0)) label.now → MatchResult result
        (IsPlaceOf ((D.view disk.old).reads (cart_file cart.0)) number label.now)
        (JudgesFile number ((D.view disk.old).reads (cart_file cart.0)))) }
{
    match walk_marks(disk, cart, label.volid, label.units, Some(number)) {
        Ok(walk) => match walk.wanted {
            Some(place) => Ok(place),
            None => Err(FileFault::NoFile),
        },
        Err(WalkFault::BadMark { number }) => Err(FileFault::Damaged {
            volid: label.volid,
            block: number,
        }),
        Err(WalkFault::Failed) => Err(FileFault::Failed),
    }
}

// The bytes of a file's data blocks.
fn read_places<D: Store>(
    alloc: Global,
    cart: Cart,
    label: &Label,
    place: FilePlace,
    disk: &mut D,
) -> Result<Vec<u8>, DataFault>
    requires cart { IsCart cart.0 }
    requires units { IsUnits label.now.units }
    requires place { IsPlaceWithin label.now.units place }
    ensures cause { FaultCause (cart_file cart.0) (D.view disk.old) (D.view disk.new)
        (result ≡ Err data_faults.Failed) }
    ensures tells { (D.view disk.new).tells ≡ (D.view disk.old).tells }
    ensures quiet { Told (D.view disk.old).tells (Quiet (D.view disk.old) (D.view disk.new)) }
    ensures given { Told (D.view disk.old).tells
        ((file : CommittedFile) → (place.mark ≡ file.mark) → (place.count ≡ length file.places)
        → AreDataPlaces ((D.view disk.old).reads (cart_file cart.0)) label.now.volid.0
        label.now.units (file.mark + 1) file.places
        → MatchResult result (λ bytes. HasBytes file bytes.items)
        (JudgesPlaces label.now.units file)) }
{
    let count = place.count as usize;
    let Ok(mut bytes) = Vec::with_capacity(alloc, count * chunk_size(label.units)) else {
        return Err(DataFault::Memory);
    };
    let Ok(mut block) = block_buffer(alloc) else {
        return Err(DataFault::Memory);
    };
    let size = BLOCK_SIZE * label.units as usize;
    for index in 0..count {
        let number = place.mark + 1 + u64::from(label.units) * index as u64;
        read_data(cart, label, number, disk, &mut block)?;
        let Ok(()) = append_chunks(&block[..size], &mut bytes) else {
            return Err(DataFault::Memory);
        };
    }
    Ok(bytes)
}

// Room for the largest block.
fn block_buffer(alloc: Global) -> Result<Vec<u8>, AllocError>
    ensures { IfOk result (λ buffer. vec_len buffer ≡ 65536) }
{
    vec![in alloc; 0; MAX_BLOCK_SIZE]
}

// Reads a block that is to be a data block of the volume.
fn read_data<D: Store>(
    cart: Cart,
    label: &Label,
    number: u64,
    disk: &mut D,
    block: &mut [u8],
) -> Result<(), DataFault>
    requires cart { IsCart cart.0 }
    requires whole { length block.old ≡ 65536 }
    ensures cause { FaultCause (cart_file cart.0) (D.view disk.old) (D.view disk.new)
        (result ≡ Err data_faults.Failed) }
    ensures tells { (D.view disk.new).tells ≡ (D.view disk.old).tells }
    ensures quiet { Told (D.view disk.old).tells (Quiet (D.view disk.old) (D.view disk.new)) }
    ensures holds { OnOk result
        ((chunks : List ChunkText) × HoldsChunks (take (data_size label.now.units) block.new)
        label.now.volid.0 number label.now.units chunks) }
    ensures read { Told (D.view disk.old).tells
        (IsDataRead ((D.view disk.old).reads (cart_file cart.0)) label.now.volid.0
        label.now.units number (take (data_size label.now.units) block.new) result) }
{
    match read_block(disk, cart, label.volid, number, block) {
        Ok(Block::Data { units, .. }) if units == label.units => Ok(()),
        Ok(Block::Data { .. }) => Err(DataFault::Damaged { block: number }),
        Ok(Block::Label(_)) => Err(DataFault::Damaged { block: number }),
        Ok(Block::Mark { .. }) => Err(DataFault::Damaged { block: number }),
        Err(ReadFault::Bad(_)) => Err(DataFault::Damaged { block: number }),
        Err(ReadFault::Failed) => Err(DataFault::Failed),
    }
}

/// Writes the file of the cartridge with this number, counted from 1, once all of it was read.
pub fn get<W: Sink, D: Store>(
    alloc: Global,
    cart: Cart,
    number: u64,
    out: &mut W,
    disk: &mut D,
) -> Status
    requires cart { IsCart cart.0 }
    requires number { 1 ≤ number }
    // Whatever input and clock stand beside.
    ensures later { (input : SourceView) (clock : ClockView) → Later
        (world input (W.view out.old) (D.view disk.old) clock)
        (world input (W.view out.new) (D.view disk.new) clock) }
    ensures ends { (input : SourceView) (clock : ClockView) → GetEnds cart.0 number
        (world input (W.view out.old) (D.view disk.old) clock)
        (world input (W.view out.new) (D.view disk.new) clock) result }
{
    let bytes = match read_file(alloc, cart, number, disk) {
        Ok(bytes) => bytes,
        Err(fault) => return file_status_of(alloc, cart, number, fault),
    };
    match write_all(out, &bytes) {
        Ok(()) => Status::Done,
        Err(_) => Status::WriteFault,
    }
}
