//! Reads a range of a save set's stream.

ghost use Rattle.std.specs.Prelude.{◌≡◌, ◌+◌, ◌≤◌, ◌<◌, ◌^◌, Err, length, IfOk, IfErr};
ghost use Rattle.std.specs.List.{AllByRecursion};
ghost use Rattle.room_base.specs.Outside.{Told};
ghost use Rattle.room_disk.specs.Disk.{Quiet};
ghost use Rattle.recover_files.specs.StreamAt.{IsOrderly, HasSections, LiesOnCart, shelf_of};
ghost use Rattle.recover_files.specs.StreamAt.{CopyGives, CopyLacks};
ghost use Rattle.recover_files.specs.StreamAt.{GivesRange, RangeCause};
ghost use Rattle.recover_files.specs.Stages.{CopiesRun, BlamesOrFails, IsFailed, IsRun, HasBounds};

use crate::RangeFault;
use crate::run::{Run, Wanted};
use crate::sections::{first_invalid, read_section};
use crate::spots::{Spot, cart_at_home, first_section, first_spot, section_at};
use media_db::{MediaDb, Record, Section, SetCopy};
use room_base::{Ssid, Volid};
use room_disk::Store;
use volume_block::MAX_BLOCK_SIZE;

/// Reads the bytes of a save set's stream from a place on. Each comes from the done copy of lowest
/// number whose section there is on a volume in a slot and has a valid data block that covers it.
/// `home` lists the volumes in slots. After an error the bytes before the first that can't be had
/// are in `into`. Takes no memory.
pub fn read_range<D: Store>(
    store: &mut D,
    db: &MediaDb,
    home: &[Volid],
    ssid: Ssid,
    from: u64,
    into: &mut [u8],
) -> Result<(), RangeFault>
    requires orderly { IsOrderly db.now }
    requires range { from + length into.old ≤ 2 ^ 64 }
    ensures cause { RangeCause (D.view store.old) (D.view store.new) result }
    ensures tells { (D.view store.new).tells ≡ (D.view store.old).tells }
    ensures quiet { Told (D.view store.old).tells (Quiet (D.view store.old) (D.view store.new)) }
    ensures given { Told (D.view store.old).tells (GivesRange
        (shelf_of db.now home.now (D.view store.old).reads) db.now.records ssid.0 from
        into.new result) }
{
    let mut block = [0; MAX_BLOCK_SIZE];
    let mut done = 0;
    while done < into.len() {
        let Some(row) = db.record(ssid) else {
            return Err(NO_SECTION);
        };
        let place = from + done as u64;
        let (_, rest) = into.split_at_mut(done);
        done += read_run(store, db, home, row, place, rest, &mut block)?;
    }
    Ok(())
}

/// What is answered where no copy has a section.
const NO_SECTION: RangeFault = RangeFault::Damaged {
    volid: Volid(0),
    block: 0,
};

// Reads some bytes from the place on, at least one.
fn read_run<D: Store>(
    store: &mut D,
    db: &MediaDb,
    home: &[Volid],
    row: &Record,
    place: u64,
    into: &mut [u8],
    block: &mut [u8],
) -> Result<usize, RangeFault>
    requires carts { AllByRecursion LiesOnCart db.now.volumes }
    requires sections { AllByRecursion HasSections row.now.copies }
    requires whole { length block.old ≡ 65536 }
    requires some { 1 ≤ length into.old }
    ensures bounds { IfOk result (λ count. (1 ≤ count) × (count ≤ length into.old)) }
    ensures cause { RangeCause (D.view store.old) (D.view store.new) result }
    ensures tells { (D.view store.new).tells ≡ (D.view store.old).tells }
    ensures quiet { Told (D.view store.old).tells (Quiet (D.view store.old) (D.view store.new)) }
    ensures run { Told (D.view store.old).tells (CopiesRun
        (shelf_of db.now home.now (D.view store.old).reads) row.now.ssid.0 row.now.copies place
        into.new result) }
{
    let copies = row.copies.as_slice();
    let mut clear = into.len();
    for copy in copies {
        let wanted = Wanted {
            ssid: row.ssid,
            copy: copy.no,
            place,
            most: clear,
        };
        let run = read_copy(store, db, home, copy, &wanted, into, block)?;
        if run.count > 0 {
            return Ok(run.count);
        }
        clear = run.clear;
    }
    Err(blame(store, db, home, row, place, block))
}

// Takes what the copy gives of the wanted bytes.
fn read_copy<D: Store>(
    store: &mut D,
    db: &MediaDb,
    home: &[Volid],
    copy: &SetCopy,
    wanted: &Wanted,
    into: &mut [u8],
    block: &mut [u8],
) -> Result<Run, RangeFault>
    requires carts { AllByRecursion LiesOnCart db.now.volumes }
    requires sections { HasSections copy.now }
    requires whole { length block.old ≡ 65536 }
    requires copy { wanted.now.copy ≡ copy.now.no }
    requires some { 1 ≤ wanted.now.most }
    requires room { wanted.now.most ≤ length into.old }
    ensures bounds { IfOk result (HasBounds wanted.now.most) }
    ensures cause { RangeCause (D.view store.old) (D.view store.new) result }
    ensures tells { (D.view store.new).tells ≡ (D.view store.old).tells }
    ensures quiet { Told (D.view store.old).tells (Quiet (D.view store.old) (D.view store.new)) }
    ensures run { Told (D.view store.old).tells (IfOk result (IsRun
        (CopyGives (shelf_of db.now home.now (D.view store.old).reads) wanted.now.ssid.0 copy.now)
        (CopyLacks (shelf_of db.now home.now (D.view store.old).reads) wanted.now.ssid.0 copy.now)
        wanted.now.place into.new)) }
    ensures failed { IfErr result IsFailed }
{
    let Some(section) = section_at(copy, wanted.place) else {
        return Ok(Run {
            count: 0,
            clear: wanted.most,
        });
    };
    let most = most_within(&section, wanted.place, wanted.most);
    let Some(cart) = cart_at_home(db, home, section.volid) else {
        return Ok(Run {
            count: 0,
            clear: most,
        });
    };
    let inside = Wanted { most, ..*wanted };
    match read_section(store, &Spot { section, cart }, &inside, into, block) {
        Ok(run) => Ok(run),
        Err(_) => Err(RangeFault::Failed { file: cart.0 + 1 }),
    }
}

// How many bytes from the place on, at most `most`, are in the section.
fn most_within(section: &Section, place: u64, most: usize) -> usize
    requires within { place < section.now.to }
    requires some { 1 ≤ most }
    ensures most { result ≤ most }
    ensures some { 1 ≤ result }
    ensures within { place + result ≤ section.now.to }
{
    let left = section.to - place;
    if left < most as u64 {
        left as usize
    } else {
        most
    }
}

// Why the byte at the place can't be had, which no copy gives.
fn blame<D: Store>(
    store: &mut D,
    db: &MediaDb,
    home: &[Volid],
    row: &Record,
    place: u64,
    block: &mut [u8],
) -> RangeFault
    requires carts { AllByRecursion LiesOnCart db.now.volumes }
    requires sections { AllByRecursion HasSections row.now.copies }
    requires whole { length block.old ≡ 65536 }
    ensures cause { RangeCause {T = Unit} (D.view store.old) (D.view store.new) (Err result) }
    ensures tells { (D.view store.new).tells ≡ (D.view store.old).tells }
    ensures quiet { Told (D.view store.old).tells (Quiet (D.view store.old) (D.view store.new)) }
    ensures blames { Told (D.view store.old).tells (BlamesOrFails
        (shelf_of db.now home.now (D.view store.old).reads) row.now.copies place result) }
{
    let copies = row.copies.as_slice();
    let Some(spot) = first_spot(db, home, copies, place) else {
        return match first_section(copies, place) {
            Some(section) => RangeFault::Offsite {
                volid: section.volid,
            },
            None => NO_SECTION,
        };
    };
    match first_invalid(store, &spot, block) {
        Ok(number) => RangeFault::Damaged {
            volid: spot.section.volid,
            block: number,
        },
        Err(_) => RangeFault::Failed {
            file: spot.cart.0 + 1,
        },
    }
}
