//! Reads a section of a copy: its data blocks, one after the other.

ghost use Rattle.std.specs.Prelude.{◌≡◌, ◌+◌, ◌≤◌, ◌↔◌, ℕ, List, length, IfOk};
ghost use Rattle.room_base.specs.Outside.{Told};
ghost use Rattle.room_disk.specs.Disk.{Quiet, FileCause};
ghost use Rattle.volume_store.specs.Writes.{cart_file, IsCart};
ghost use Rattle.recover_files.specs.Sections.{HasUnits, HasBlock, number_at, units_of, IsBlamed};
ghost use Rattle.recover_files.specs.Sections.{SectionGives, SectionLacks};
ghost use Rattle.recover_files.specs.Stages.{IsRun, HasBounds, IsFoundAt, TellsMark, TellsLabel};

use crate::blocks::{find_block, is_valid, read_in_block};
use crate::run::{Run, Wanted};
use crate::spots::Spot;
use media_db::Section;
use room_base::Failed;
use room_disk::Store;
use volume_block::Block;

/// Takes what the section gives of the wanted bytes, all of which are in it.
pub(crate) fn read_section<D: Store>(
    store: &mut D,
    spot: &Spot,
    wanted: &Wanted,
    into: &mut [u8],
    block: &mut [u8],
) -> Result<Run, Failed>
    requires cart { IsCart spot.now.cart.0 }
    requires whole { length block.old ≡ 65536 }
    requires some { 1 ≤ wanted.now.most }
    requires room { wanted.now.most ≤ length into.old }
    ensures cause { FileCause (cart_file spot.now.cart.0)
        (D.view store.old) (D.view store.new) result }
    ensures tells { (D.view store.new).tells ≡ (D.view store.old).tells }
    ensures quiet { Told (D.view store.old).tells (Quiet (D.view store.old) (D.view store.new)) }
    ensures bounds { IfOk result (HasBounds wanted.now.most) }
    ensures run { Told (D.view store.old).tells (IfOk result (λ run. IsRun
        (SectionGives ((D.view store.old).reads (cart_file spot.now.cart.0)) spot.now.section
        wanted.now.ssid.0 wanted.now.copy.0)
        (SectionLacks ((D.view store.old).reads (cart_file spot.now.cart.0)) spot.now.section
        wanted.now.ssid.0 wanted.now.copy.0)
        wanted.now.place into.new run)) }
{
    let units = section_units(store, spot, block)?;
    let last = last_index(&spot.section, units);
    let mut clear = wanted.most;
    let mut index = 0;
    'each: loop {
        let number = number_of(&spot.section, units, index);
        let rest = Wanted {
            most: clear,
            ..*wanted
        };
        let volid = spot.section.volid;
        let run = read_in_block(store, spot.cart, volid, number, &rest, into, block)?;
        if run.count > 0 || index == last {
            return Ok(run);
        }
        clear = run.clear;
        index += 1;
    }
}

/// The first data block of the section that isn't valid; its first one where all are.
pub(crate) fn first_invalid<D: Store>(
    store: &mut D,
    spot: &Spot,
    block: &mut [u8],
) -> Result<u64, Failed>
    requires cart { IsCart spot.now.cart.0 }
    requires whole { length block.old ≡ 65536 }
    ensures cause { FileCause (cart_file spot.now.cart.0)
        (D.view store.old) (D.view store.new) result }
    ensures tells { (D.view store.new).tells ≡ (D.view store.old).tells }
    ensures quiet { Told (D.view store.old).tells (Quiet (D.view store.old) (D.view store.new)) }
    ensures blamed { Told (D.view store.old).tells (IfOk result (IsBlamed
        ((D.view store.old).reads (cart_file spot.now.cart.0)) spot.now.section)) }
{
    let units = section_units(store, spot, block)?;
    let last = last_index(&spot.section, units);
    let mut index = 0;
    'each: loop {
        let number = number_of(&spot.section, units, index);
        if !is_valid(store, spot.cart, spot.section.volid, number, block)? {
            return Ok(number);
        }
        if index == last {
            return Ok(spot.section.first);
        }
        index += 1;
    }
}

// How many units lie between the data blocks of a section.
fn section_units<D: Store>(store: &mut D, spot: &Spot, block: &mut [u8]) -> Result<u32, Failed>
    requires cart { IsCart spot.now.cart.0 }
    requires whole { length block.old ≡ 65536 }
    ensures cause { FileCause (cart_file spot.now.cart.0)
        (D.view store.old) (D.view store.new) result }
    ensures tells { (D.view store.new).tells ≡ (D.view store.old).tells }
    ensures quiet { Told (D.view store.old).tells (Quiet (D.view store.old) (D.view store.new)) }
    ensures units { Told (D.view store.old).tells (IfOk result (HasUnits
        ((D.view store.old).reads (cart_file spot.now.cart.0)) spot.now.section)) }
{
    let section = &spot.section;
    if let Some(first) = find_block(store, spot.cart, section.volid, section.first, block)? {
        return Ok(units_of(&first));
    }
    let mark = find_block(store, spot.cart, section.volid, section.mark, block)?;
    if let Some(units) = mark_units(mark) {
        return Ok(units);
    }
    let label = find_block(store, spot.cart, section.volid, 0, block)?;
    if let Some(units) = label_units(label) {
        return Ok(units);
    }
    Ok(0)
}

// The units that a mark tells.
fn mark_units(found: Option<Block>) -> Option<u32>
    ensures { (bytes : List ℕ) (volid number : ℕ) → IsFoundAt bytes volid number found
        → TellsMark bytes volid number result }
{
    match found {
        Some(Block::Mark { units, .. }) => Some(units),
        Some(Block::Label(_)) => None,
        Some(Block::Data { .. }) => None,
        None => None,
    }
}

// The units that a label tells.
fn label_units(found: Option<Block>) -> Option<u32>
    ensures { (bytes : List ℕ) (volid number : ℕ) → IsFoundAt bytes volid number found
        → TellsLabel bytes volid number result }
{
    match found {
        Some(Block::Label(label)) => Some(label.units),
        Some(Block::Mark { .. }) => None,
        Some(Block::Data { .. }) => None,
        None => None,
    }
}

fn units_of(block: &Block) -> u32
    ensures { result ≡ units_of block.now }
{
    match block {
        Block::Label(label) => label.units,
        Block::Mark { units, .. } => *units,
        Block::Data { units, .. } => *units,
    }
}

// The greatest index of a data block of the section.
fn last_index(section: &Section, units: u32) -> u64
    ensures { (index : ℕ) → HasBlock section.now units index ↔ (index ≤ result) }
{
    if units == 0 {
        return 0;
    }
    if section.last < section.first {
        return 0;
    }
    (section.last - section.first) / u64::from(units)
}

// The number of the data block with this index.
fn number_of(section: &Section, units: u32, index: u64) -> u64
    requires { HasBlock section.now units index }
    ensures { result ≡ number_at section.now units index }
{
    let _last = section.last;
    section.first + u64::from(units) * index
}
