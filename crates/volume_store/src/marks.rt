//! Goes over the marks of a cartridge, and mounts it.

ghost use Rattle.std.specs.Prelude.{◌≡◌, ◌≢◌, ◌+◌, ◌*◌, ◌-◌, ◌≤◌, ◌<◌, ◌^◌, Some, None, Err};
ghost use Rattle.std.specs.Prelude.{length, slice_index, IfOk};
ghost use Rattle.room_base.specs.Outside.{Told};
ghost use Rattle.room_disk.specs.Disk.{Quiet, FileCause, FaultCause};
ghost use Rattle.volume_block.specs.Layout.{IsUnits};
ghost use Rattle.volume_block.specs.Valid.{IsLabel};
ghost use Rattle.volume_store.specs.Committed.{block_at};
ghost use Rattle.volume_store.specs.Writes.{cart_file, IsCart};
ghost use Rattle.volume_store.specs.Reads.{FindsMark, HasCount, Walks, HasRange, Mounts};
ghost use Rattle.volume_store.specs.Reads.{asked_number};
ghost use Rattle.volume_store.specs.Reads.{SettlesUnlessFailed};
ghost use Rattle.volume_store.specs.declared.marks.MountFault.TheVariants as mounts;
ghost use Rattle.volume_store.specs.declared.marks.WalkFault.TheVariants as walks;

use crate::commit::Volume;
use crate::label::{Found, read_label};
use crate::reading::{judge_block, read_front};
use room_base::{Cart, Failed, Volid};
use room_disk::Store;
use volume_block::{BLOCK_SIZE, Block};

/// Why a cartridge isn't mounted.
#[derive(Clone, Copy)]
pub enum MountFault {
    /// It is blank, or has no label.
    Unlabelled,
    /// Its label, number 0, or the mark with this number isn't valid, has other units than the
    /// label, or isn't there.
    BadBlock { number: u64 },
    /// The disk failed.
    Failed,
}

impl From<Failed> for MountFault {
    ghost use Rattle.std.specs.Prelude.{◌≡◌};
    ghost use Rattle.volume_store.specs.declared.marks.MountFault.TheVariants as mounts;

    ghost from_gives = { λ _ fault. fault ≡ mounts.Failed };

    fn from(_: Failed) -> MountFault {
        MountFault::Failed
    }
}

/// Why a walk over marks doesn't come to their end.
#[derive(Clone, Copy)]
pub enum WalkFault {
    /// The mark with this number isn't valid, has other units, or isn't there.
    BadMark { number: u64 },
    /// The disk failed.
    Failed,
}

impl From<Failed> for WalkFault {
    ghost use Rattle.std.specs.Prelude.{◌≡◌};
    ghost use Rattle.volume_store.specs.declared.marks.WalkFault.TheVariants as walks;

    ghost from_gives = { λ _ fault. fault ≡ walks.Failed };

    fn from(_: Failed) -> WalkFault {
        WalkFault::Failed
    }
}

/// Where a committed file stands: its mark, behind which `count` data blocks are.
#[derive(Clone, Copy)]
pub struct FilePlace {
    pub mark: u64,
    pub count: u32,
}

/// What a walk over the marks of a cartridge has found.
#[derive(Clone, Copy)]
pub struct MarkWalk {
    /// How many files there are.
    pub files: u64,
    /// The mark place behind the last of them.
    pub end: u64,
    /// The file that was asked for.
    pub wanted: Option<FilePlace>,
}

/// What stands at a mark place.
#[derive(Clone, Copy)]
pub enum MarkPlace {
    /// The files end here.
    Closed,
    /// A file of so many data blocks.
    Open { count: u32 },
    /// A mark that isn't valid, has other units, or isn't there.
    Bad,
}

/// The byte that opens a mark.
pub(crate) const MARK_GATE: u8 = b'F';

/// The first mark place of a volume, behind its label.
pub const FIRST_MARK: u64 = 1;

/// Mounts a cartridge: reads its label and each of its marks once, and none of its data blocks. It
/// syncs the cartridge first, so that what it finds stays.
pub fn mount<D: Store>(store: &mut D, cart: Cart) -> Result<Volume, MountFault>
    requires { IsCart cart.0 }
    ensures cause { FaultCause (cart_file cart.0) (D.view store.old) (D.view store.new)
        (result ≡ Err mounts.Failed) }
    ensures tells { (D.view store.new).tells ≡ (D.view store.old).tells }
    ensures quiet { Told (D.view store.old).tells (Quiet (D.view store.old) (D.view store.new)) }
    ensures settled { Told (D.view store.old).tells
        (SettlesUnlessFailed result (D.view store.new) (cart_file cart.0)) }
    ensures cart { IfOk result (λ volume. volume.cart ≡ cart) }
    ensures label { IfOk result (λ volume. IsLabel volume.label) }
    ensures mark { IfOk result (λ volume. (1 ≤ volume.mark) × (volume.mark < 2 ^ 52)) }
    ensures mounted { Told (D.view store.old).tells
        (Mounts ((D.view store.old).reads (cart_file cart.0)) cart.0 result) }
{
    let label = match read_label(store, cart)? {
        Found::Blank | Found::Closed => return Err(MountFault::Unlabelled),
        Found::Damaged(_) => return Err(MountFault::BadBlock { number: 0 }),
        Found::Labelled(label) => label,
    };
    match walk_marks(store, cart, label.volid, label.units, None) {
        Ok(walk) => Ok(Volume {
            label,
            cart,
            mark: walk.end,
        }),
        Err(WalkFault::BadMark { number }) => Err(MountFault::BadBlock { number }),
        Err(WalkFault::Failed) => Err(MountFault::Failed),
    }
}

/// Goes over the marks of a labelled cartridge of so many units, each of which it reads once, and
/// looks for the file with this number, counted from 1, if one is asked for. A mark that isn't
/// valid, has other units, or isn't there, is `BadMark`.
pub fn walk_marks<D: Store>(
    store: &mut D,
    cart: Cart,
    volid: Volid,
    units: u32,
    wanted: Option<u64>,
) -> Result<MarkWalk, WalkFault>
    requires cart { IsCart cart.0 }
    requires units { IsUnits units }
    ensures cause { FaultCause (cart_file cart.0) (D.view store.old) (D.view store.new)
        (result ≡ Err walks.Failed) }
    ensures tells { (D.view store.new).tells ≡ (D.view store.old).tells }
    ensures quiet { Told (D.view store.old).tells (Quiet (D.view store.old) (D.view store.new)) }
    ensures range { IfOk result (λ walk. HasRange (2 ^ 52) units walk) }
    ensures walked { Told (D.view store.old).tells
        (Walks ((D.view store.old).reads (cart_file cart.0)) volid.0 units (asked_number wanted)
        result) }
{
    walk_for(store, cart, volid, units, wanted.unwrap_or(0))
}

// The same with the number as it is counted, which is 0 for no file.
fn walk_for<D: Store>(
    store: &mut D,
    cart: Cart,
    volid: Volid,
    units: u32,
    wanted: u64,
) -> Result<MarkWalk, WalkFault>
    requires cart { IsCart cart.0 }
    requires units { IsUnits units }
    ensures cause { FaultCause (cart_file cart.0) (D.view store.old) (D.view store.new)
        (result ≡ Err walks.Failed) }
    ensures tells { (D.view store.new).tells ≡ (D.view store.old).tells }
    ensures quiet { Told (D.view store.old).tells (Quiet (D.view store.old) (D.view store.new)) }
    ensures range { IfOk result (λ walk. HasRange (2 ^ 52) units walk) }
    ensures walked { Told (D.view store.old).tells
        (Walks ((D.view store.old).reads (cart_file cart.0)) volid.0 units wanted result) }
{
    let file = cart.0 + 1;
    let blocks = block_count(store.len(file)?);
    let mut block = [0; BLOCK_SIZE];
    let mut walk = MarkWalk::first();
    while walk.end < blocks {
        match read_mark_into(store, cart, volid, units, walk.end, &mut block)? {
            MarkPlace::Closed => return Ok(walk),
            MarkPlace::Bad => return Err(WalkFault::BadMark { number: walk.end }),
            MarkPlace::Open { count } => walk = walk.past(count, units, wanted),
        }
    }
    Err(WalkFault::BadMark { number: walk.end })
}

impl MarkWalk {
    // A walk that stands at the first mark place.
    fn first() -> MarkWalk
        ensures { result ≡ record { files = 0; end = 1; wanted = None } }
    {
        MarkWalk {
            files: 0,
            end: FIRST_MARK,
            wanted: None,
        }
    }

    // The walk behind a file of so many data blocks of so many units.
    fn past(self, count: u32, units: u32, wanted: u64) -> MarkWalk
        requires end { self.end < 2 ^ 52 }
        requires files { self.files < self.end }
        requires count { count ≤ 64 }
        requires units { units ≤ 16 }
        ensures files { result.files ≡ self.files + 1 }
        ensures end { result.end ≡ self.end + units * count + 1 }
        ensures this { self.files + 1 ≡ wanted
            → result.wanted ≡ Some (record { mark = self.end; count = count }) }
        ensures other { self.files + 1 ≢ wanted → result.wanted ≡ self.wanted }
    {
        let files = self.files + 1;
        let place = FilePlace {
            mark: self.end,
            count,
        };
        MarkWalk {
            files,
            end: self.end + u64::from(units * count) + 1,
            wanted: if files == wanted {
                Some(place)
            } else {
                self.wanted
            },
        }
    }
}

// How many blocks a file of this length has, of which the last may end early.
fn block_count(len: u64) -> u64
    ensures covers { len ≤ 4096 * result }
    ensures no_more { 4096 * result < len + 4096 }
{
    let size = BLOCK_SIZE as u64;
    len / size + u64::from(len % size != 0)
}

/// Reads the mark place with this number of this volume of so many units.
pub fn read_mark<D: Store>(
    store: &mut D,
    cart: Cart,
    volid: Volid,
    units: u32,
    number: u64,
) -> Result<MarkPlace, Failed>
    requires { IsCart cart.0 }
    ensures cause { FileCause (cart_file cart.0) (D.view store.old) (D.view store.new) result }
    ensures tells { (D.view store.new).tells ≡ (D.view store.old).tells }
    ensures quiet { Told (D.view store.old).tells (Quiet (D.view store.old) (D.view store.new)) }
    ensures count { IfOk result HasCount }
    ensures found { Told (D.view store.old).tells (IfOk result (FindsMark
        (block_at ((D.view store.old).reads (cart_file cart.0)) number) volid.0 units number)) }
{
    let mut block = [0; BLOCK_SIZE];
    read_mark_into(store, cart, volid, units, number, &mut block)
}

// The same with a block to read into, which a walk lends to each of its readings.
fn read_mark_into<D: Store>(
    store: &mut D,
    cart: Cart,
    volid: Volid,
    units: u32,
    number: u64,
    block: &mut [u8; BLOCK_SIZE],
) -> Result<MarkPlace, Failed>
    requires { IsCart cart.0 }
    ensures cause { FileCause (cart_file cart.0) (D.view store.old) (D.view store.new) result }
    ensures tells { (D.view store.new).tells ≡ (D.view store.old).tells }
    ensures quiet { Told (D.view store.old).tells (Quiet (D.view store.old) (D.view store.new)) }
    ensures count { IfOk result HasCount }
    ensures found { Told (D.view store.old).tells (IfOk result (FindsMark
        (block_at ((D.view store.old).reads (cart_file cart.0)) number) volid.0 units number)) }
{
    let count = read_front(store, cart.0 + 1, number, block)?;
    Ok(mark_place_of(&block[..count], volid, units, number))
}

fn mark_place_of(bytes: &[u8], volid: Volid, units: u32, number: u64) -> MarkPlace
    requires { length bytes.now ≤ 4096 }
    ensures found { FindsMark bytes.now volid.0 units number result }
    ensures count { HasCount result }
{
    match bytes {
        [] => MarkPlace::Bad,
        [MARK_GATE, ..] => open_mark_of(bytes, volid, units, number),
        _ => MarkPlace::Closed,
    }
}

fn open_mark_of(bytes: &[u8], volid: Volid, units: u32, number: u64) -> MarkPlace
    requires size { length bytes.now ≤ 4096 }
    requires open { slice_index bytes.now 0 ≡ 0x46 }
    ensures found { FindsMark bytes.now volid.0 units number result }
    ensures count { HasCount result }
{
    match judge_block(bytes, BLOCK_SIZE, volid, number) {
        Ok(Block::Mark { count, units: told }) => {
            if told == units {
                MarkPlace::Open { count }
            } else {
                MarkPlace::Bad
            }
        }
        Ok(Block::Label(_)) => MarkPlace::Bad,
        Ok(Block::Data { .. }) => MarkPlace::Bad,
        Err(_) => MarkPlace::Bad,
    }
}
