//! Finds where the next file of a cartridge goes.

ghost use Rattle.std.specs.Prelude.{◌≡◌, ◌≢◌, ◌↔◌, ◌+◌, ◌*◌, ◌≤◌, ◌<◌, ◌^◌, Err, IsTrue, IfOk, OnOk};
ghost use Rattle.std.specs.Prelude.{MatchResult};
ghost use Rattle.room_base.specs.Faults.{HasCause, Rose};
ghost use Rattle.room_base.specs.Outside.{ClockView, Told, later_moments};
ghost use Rattle.room_disk.specs.Disk.{Quiet, Settled, FaultCause};
ghost use Rattle.volume_block.specs.Valid.{IsLabel};
ghost use Rattle.volume_store.specs.Committed.{HasLabel};
ghost use Rattle.volume_store.specs.Writes.{cart_file, IsCart};
ghost use Rattle.room_run.specs.Put.{IsSite, IsSiteFor, IsNewLabel, blocks_for};
ghost use Rattle.room_run.specs.Put.{site_number, site_mark, site_volid, site_units};
ghost use Rattle.room_run.specs.Stages.{JudgesSite, IsNext, SiteAsks};
ghost use Rattle.room_run.specs.declared.site.SiteFault.TheVariants as site_faults;

use crate::raw::{blocks_for, raw_label_of};
use room_base::{Cart, Clock, Failed, MAX_MOMENT, Moment, Volid};
use room_disk::Store;
use volume_block::Label;
use volume_store::{FIRST_MARK, Found, Volume, WalkFault, read_label, walk_marks};

/// Where the next file of a cartridge goes.
#[derive(Clone, Copy)]
pub enum Site {
    /// The cartridge has no label, and gets this one first.
    New(Label),
    /// Behind the files of the volume, as the one with this number, counted from 1.
    Next { volume: Volume, number: u64 },
}

/// Why the next file of a cartridge has no place.
#[derive(Clone, Copy)]
pub enum SiteFault {
    DiskFailed,
    ClockFailed,
    /// The label isn't valid.
    BadLabel,
    /// A mark isn't valid, or isn't there.
    Damaged { volid: Volid, block: u64 },
    /// The cartridge has a label that isn't raw.
    Occupied,
    /// There is no room for the file.
    Full,
}

impl Site {
    /// The number that the file gets, counted from 1.
    pub fn number(&self) -> u64
        ensures { result ≡ site_number self.now }
    {
        match self {
            Site::New(_) => 1,
            Site::Next { number, .. } => *number,
        }
    }

    pub fn mark(&self) -> u64
        ensures { result ≡ site_mark self.now }
    {
        match self {
            Site::New(_) => FIRST_MARK,
            Site::Next { volume, .. } => volume.mark,
        }
    }

    /// How many units each data block of the volume has.
    pub fn units(&self) -> u32
        ensures { result ≡ site_units self.now }
    {
        match self {
            Site::New(label) => label.units,
            Site::Next { volume, .. } => volume.label.units,
        }
    }

    pub fn volid(&self) -> Volid
        ensures { result.0 ≡ site_volid self.now }
    {
        match self {
            Site::New(label) => label.volid,
            Site::Next { volume, .. } => volume.label.volid,
        }
    }
}

/// Finds where a file of so many bytes goes. The clock is asked only where a label is to be
/// written, and nothing is written.
pub fn find_site<D: Store, C: Clock>(
    cart: Cart,
    size: usize,
    disk: &mut D,
    clock: &mut C,
) -> Result<Site, SiteFault>
    requires cart { IsCart cart.0 }
    requires size { (1 ≤ size) × (size ≤ 257024) }
    ensures disk_cause { FaultCause (cart_file cart.0) (D.view disk.old) (D.view disk.new)
        (result ≡ Err site_faults.DiskFailed) }
    ensures clock_later { (C.view clock.old).faults ≤ (C.view clock.new).faults }
    ensures clock_cause { result ≡ Err site_faults.ClockFailed
        → Rose (C.view clock.old).faults (C.view clock.new).faults }
    ensures disk_tells { (D.view disk.new).tells ≡ (D.view disk.old).tells }
    ensures clock_tells { (C.view clock.new).tells ≡ (C.view clock.old).tells }
    ensures ready { IfOk result (IsSiteFor cart.0 size) }
    ensures quiet { Told (D.view disk.old).tells (Quiet (D.view disk.old) (D.view disk.new)) }
    ensures settled { Told (D.view disk.old).tells
        (OnOk result (Settled (D.view disk.new) (cart_file cart.0))) }
    ensures judged { Told (D.view disk.old).tells (MatchResult result
        (IsSite (C.view clock.old) cart.0 ((D.view disk.old).reads (cart_file cart.0)))
        (JudgesSite size ((D.view disk.old).reads (cart_file cart.0)))) }
    ensures asked { Told (C.view clock.old).tells
        (SiteAsks (C.view clock.old).moments (C.view clock.new).moments result) }
{
    let Ok(found) = read_label(disk, cart) else {
        return Err(SiteFault::DiskFailed);
    };
    match found {
        Found::Blank | Found::Closed => match new_label(cart, clock) {
            Ok(label) => Ok(Site::New(label)),
            Err(_) => Err(SiteFault::ClockFailed),
        },
        Found::Damaged(_) => Err(SiteFault::BadLabel),
        Found::Labelled(label) => next_site(cart, &label, size, disk),
    }
}

// The label of a cartridge that has none.
fn new_label<C: Clock>(cart: Cart, clock: &mut C) -> Result<Label, Failed>
    requires { IsCart cart.0 }
    ensures cause { HasCause (C.view clock.old).faults (C.view clock.new).faults result }
    ensures tells { (C.view clock.new).tells ≡ (C.view clock.old).tells }
    ensures allowed { IfOk result IsLabel }
    ensures named { IfOk result (IsNewLabel (C.view clock.old) cart.0) }
    ensures asked { Told (C.view clock.old).tells (MatchResult result
        (λ _. (C.view clock.new).moments ≡ later_moments (C.view clock.old).moments)
        (λ _. (C.view clock.new).moments ≡ (C.view clock.old).moments)) }
{
    let now = clock.now()?;
    Ok(raw_label_of(cart, Moment(now.0.min(MAX_MOMENT.0))))
}

// The site behind the files of a cartridge that has this label.
fn next_site<D: Store>(
    cart: Cart,
    label: &Label,
    size: usize,
    disk: &mut D,
) -> Result<Site, SiteFault>
    requires cart { IsCart cart.0 }
    requires size { (1 ≤ size) × (size ≤ 257024) }
    requires label { IsLabel label.now }
    ensures cause { FaultCause (cart_file cart.0) (D.view disk.old) (D.view disk.new)
        (result ≡ Err site_faults.DiskFailed) }
    ensures unasked { result ≢ Err site_faults.ClockFailed }
    ensures tells { (D.view disk.new).tells ≡ (D.view disk.old).tells }
    ensures ready { IfOk result (IsSiteFor cart.0 size) }
    ensures behind { IfOk result IsNext }
    ensures quiet { Told (D.view disk.old).tells (Quiet (D.view disk.old) (D.view disk.new)) }
    ensures judged { Told (D.view disk.old).tells
        (HasLabel ((D.view disk.old).reads (cart_file cart.0)) label.now
        → (clock : ClockView) → MatchResult result
        (IsSite clock cart.0 ((D.view disk.old).reads (cart_file cart.0)))
        (JudgesSite size ((D.view disk.old).reads (cart_file cart.0)))) }
{
    if !label.is_raw() {
        return Err(SiteFault::Occupied);
    }
    let walk = match walk_marks(disk, cart, label.volid, label.units, None) {
        Ok(walk) => walk,
        Err(WalkFault::BadMark { number }) => {
            return Err(SiteFault::Damaged {
                volid: label.volid,
                block: number,
            });
        }
        Err(WalkFault::Failed) => return Err(SiteFault::DiskFailed),
    };
    if !has_room(label, walk.end, size) {
        return Err(SiteFault::Full);
    }
    let volume = Volume {
        label: *label,
        cart,
        mark: walk.end,
    };
    Ok(Site::Next {
        volume,
        number: walk.files + 1,
    })
}

// Whether a file of so many bytes has room at this mark place.
fn has_room(label: &Label, mark: u64, size: usize) -> bool
    requires label { IsLabel label.now }
    requires size { size ≤ 257024 }
    requires mark { mark < 2 ^ 52 }
    ensures { IsTrue result ↔ (mark + label.now.units * blocks_for label.now.units size + 2
        ≤ label.now.capacity) }
{
    let units = u64::from(label.units) * u64::from(blocks_for(label.units, size));
    mark + units + 2 <= u64::from(label.capacity)
}
