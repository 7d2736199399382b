ghost use Rattle.std.specs.Prelude.{◌≡◌, ◌+◌, ◌*◌, ◌≤◌, ℕ, [], List, length, Err, OnOk};
ghost use Rattle.room_base.specs.Outside.{ClockView, Told};
ghost use Rattle.room_disk.specs.Disk.{Quiet, Others, Settled, Leaves, OnFile};
ghost use Rattle.room_disk.specs.Disk.{FileCause, FaultCause};
ghost use Rattle.volume_block.specs.Chunks.{ChunkText};
ghost use Rattle.volume_block.specs.Valid.{IsLabel};
ghost use Rattle.volume_block.specs.Region.{IsSealed};
ghost use Rattle.volume_store.specs.Committed.{Committed};
ghost use Rattle.volume_store.specs.Writes.{cart_file, IsCart, with_file};
ghost use Rattle.room_run.specs.Raw.{JoinTo};
ghost use Rattle.room_run.specs.Put.{HasSize, HasOneFileMore, IsPut, IsFirstFile, IsSite};
ghost use Rattle.room_run.specs.Put.{IsSiteFor, HasRoom, site_number, site_mark, site_volid, site_units};
ghost use Rattle.room_run.specs.declared.store.StoreFault.TheVariants as store_faults;

use crate::site::Site;
use chunk_mux::MuxBuffer;
use room_base::{Cart, CopyNo, Failed, Ssid};
use room_disk::Store;
use std::alloc::Global;
use volume_block::Label;
use volume_store::{FIRST_MARK, Volume, write_label};

/// Why a file isn't stored.
#[derive(Clone, Copy)]
pub enum StoreFault {
    /// Nothing was written.
    Memory,
    /// The disk failed. The file may stand on the cartridge nevertheless.
    Failed,
}

/// Makes the bytes the file of the site. All memory is taken before the first write.
pub fn store_file<D: Store>(
    alloc: Global,
    cart: Cart,
    site: &Site,
    bytes: &[u8],
    disk: &mut D,
) -> Result<(), StoreFault>
    requires cart { IsCart cart.0 }
    requires size { HasSize bytes.now }
    requires ready { IsSiteFor cart.0 (length bytes.now) site.now }
    ensures cause { FaultCause (cart_file cart.0) (D.view disk.old) (D.view disk.new)
        (result ≡ Err store_faults.Failed) }
    ensures tells { (D.view disk.new).tells ≡ (D.view disk.old).tells }
    ensures others { Told (D.view disk.old).tells
        (Others (cart_file cart.0) (D.view disk.old) (D.view disk.new)) }
    ensures unwritten { Told (D.view disk.old).tells
        (result ≡ Err store_faults.Memory → Quiet (D.view disk.old) (D.view disk.new)) }
    ensures stored { Told (D.view disk.old).tells
        ((clock : ClockView)
        → IsSite clock cart.0 ((D.view disk.old).reads (cart_file cart.0)) site.now
        → OnOk result (HasOneFileMore clock cart.0 bytes.now
        ((D.view disk.old).reads (cart_file cart.0)) (site_number site.now)
        ((D.view disk.new).reads (cart_file cart.0)))) }
    ensures settled { Told (D.view disk.old).tells
        (OnOk result (Settled (D.view disk.new) (cart_file cart.0))) }
    ensures moments { Told (D.view disk.old).tells
        ((clock : ClockView)
        → IsSite clock cart.0 ((D.view disk.old).reads (cart_file cart.0)) site.now
        → Settled (D.view disk.old) (cart_file cart.0)
        → Leaves (D.view disk.old) (D.view disk.new) (OnFile (cart_file cart.0)
        (IsPut clock cart.0 bytes.now ((D.view disk.old).reads (cart_file cart.0)))
        (D.view disk.old))) }
{
    let Ok(mut buffer) = MuxBuffer::new(alloc, site.units()) else {
        return Err(StoreFault::Memory);
    };
    let number = site.number();
    buffer.push(Ssid(number), CopyNo(1), 0, bytes);
    let count = buffer.blocks();
    let region = buffer.seal(site.volid(), site.mark());
    match store_region(disk, cart, site, region, count) {
        Ok(()) => Ok(()),
        Err(_) => Err(StoreFault::Failed),
    }
}

// Makes the region the file of the site.
fn store_region<D: Store>(
    disk: &mut D,
    cart: Cart,
    site: &Site,
    region: &[u8],
    count: u32,
) -> Result<(), Failed>
    requires cart { IsCart cart.0 }
    requires sealed { (blocks : List (List ChunkText)) × (length blocks ≡ count)
        × IsSealed (site_volid site.now) (site_mark site.now) (site_units site.now) blocks
        region.now }
    requires ready { HasRoom cart.0 count site.now }
    ensures cause { FileCause (cart_file cart.0) (D.view disk.old) (D.view disk.new) result }
    ensures tells { (D.view disk.new).tells ≡ (D.view disk.old).tells }
    ensures others { Told (D.view disk.old).tells
        (Others (cart_file cart.0) (D.view disk.old) (D.view disk.new)) }
    ensures stored { Told (D.view disk.old).tells
        ((clock : ClockView) (blocks : List (List ChunkText)) (bytes : List ℕ)
        → IsSealed (site_volid site.now) (site_mark site.now) (site_units site.now) blocks
        region.now
        → JoinTo (site_number site.now) blocks bytes
        → IsSite clock cart.0 ((D.view disk.old).reads (cart_file cart.0)) site.now
        → OnOk result
        (HasOneFileMore clock cart.0 bytes ((D.view disk.old).reads (cart_file cart.0))
        (site_number site.now)
        ((D.view disk.new).reads (cart_file cart.0)))) }
    ensures settled { Told (D.view disk.old).tells
        (OnOk result (Settled (D.view disk.new) (cart_file cart.0))) }
    ensures moments { Told (D.view disk.old).tells
        ((clock : ClockView) (blocks : List (List ChunkText)) (bytes : List ℕ)
        → IsSealed (site_volid site.now) (site_mark site.now) (site_units site.now) blocks
        region.now
        → JoinTo (site_number site.now) blocks bytes
        → IsSite clock cart.0 ((D.view disk.old).reads (cart_file cart.0)) site.now
        → Settled (D.view disk.old) (cart_file cart.0)
        → Leaves (D.view disk.old) (D.view disk.new) (OnFile (cart_file cart.0)
        (IsPut clock cart.0 bytes ((D.view disk.old).reads (cart_file cart.0)))
        (D.view disk.old))) }
{
    match site {
        Site::New(label) => store_first_file(disk, label, region, count),
        Site::Next { volume, .. } => {
            let mut volume = *volume;
            volume.commit(disk, region, count)
        }
    }
}

// Labels the cartridge, and makes the region its first file.
fn store_first_file<D: Store>(
    disk: &mut D,
    label: &Label,
    region: &[u8],
    count: u32,
) -> Result<(), Failed>
    requires label { IsLabel label.now }
    requires sealed { (blocks : List (List ChunkText)) × (length blocks ≡ count)
        × IsSealed label.now.volid.0 1 label.now.units blocks region.now }
    requires room { label.now.units * count + 3 ≤ label.now.capacity }
    ensures cause { FileCause (cart_file label.now.cart.0) (D.view disk.old)
        (D.view disk.new) result }
    ensures tells { (D.view disk.new).tells ≡ (D.view disk.old).tells }
    ensures others { Told (D.view disk.old).tells
        (Others (cart_file label.now.cart.0) (D.view disk.old) (D.view disk.new)) }
    ensures stored { Told (D.view disk.old).tells ((blocks : List (List ChunkText))
        → IsSealed label.now.volid.0 1 label.now.units blocks region.now
        → OnOk result (Committed ((D.view disk.new).reads (cart_file label.now.cart.0))
        (with_file label.now [] 1 blocks))) }
    ensures settled { Told (D.view disk.old).tells
        (OnOk result (Settled (D.view disk.new) (cart_file label.now.cart.0))) }
    ensures moments { Told (D.view disk.old).tells ((blocks : List (List ChunkText))
        → IsSealed label.now.volid.0 1 label.now.units blocks region.now
        → Settled (D.view disk.old) (cart_file label.now.cart.0)
        → Leaves (D.view disk.old) (D.view disk.new) (OnFile (cart_file label.now.cart.0)
        (IsFirstFile label.now blocks ((D.view disk.old).reads (cart_file label.now.cart.0)))
        (D.view disk.old))) }
{
    write_label(disk, label)?;
    let mut volume = Volume {
        label: *label,
        cart: label.cart,
        mark: FIRST_MARK,
    };
    volume.commit(disk, region, count)
}
