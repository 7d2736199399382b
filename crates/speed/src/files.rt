ghost use Rattle.std.specs.Prelude.{◌≡◌, ◌+◌, ◌*◌, ◌≤◌, IfOk, IsTrue};
ghost use Rattle.room_disk.specs.Disk.{FileCause};
ghost use Rattle.volume_block.specs.Valid.{IsLabel};
ghost use Rattle.volume_store.specs.Writes.{cart_file};

use chunk_mux::MuxBuffer;
use room_base::{CopyNo, Failed, Ssid};
use room_disk::Store;
use volume_store::Volume;

/// Commits files of the piece, and answers how many: fewer than are asked for where the buffer or
/// the cartridge has no room for one more.
pub fn commit_files<D: Store>(
    disk: &mut D,
    buffer: &mut MuxBuffer,
    mut volume: Volume,
    piece: &[u8],
    files: u32,
) -> Result<u32, Failed>
    requires label { IsLabel volume.label }
    requires cart { volume.cart ≡ volume.label.cart }
    ensures cause { FileCause (cart_file volume.cart.0) (D.view disk.old) (D.view disk.new) result }
    ensures most { IfOk result (λ count. count ≤ files) }
{
    for count in 0..files {
        if !commit_file(disk, buffer, &mut volume, piece)? {
            return Ok(count);
        }
    }
    Ok(files)
}

// Commits one file of the piece, where the buffer and the cartridge have room for it.
fn commit_file<D: Store>(
    disk: &mut D,
    buffer: &mut MuxBuffer,
    volume: &mut Volume,
    piece: &[u8],
) -> Result<bool, Failed>
    requires label { IsLabel volume.old.label }
    requires cart { volume.old.cart ≡ volume.old.label.cart }
    ensures label { volume.new.label ≡ volume.old.label }
    ensures cart { volume.new.cart ≡ volume.old.cart }
    ensures cause { FileCause (cart_file volume.old.cart.0) (D.view disk.old) (D.view disk.new)
        result }
{
    buffer.clear();
    let length = piece.len() as u64;
    if length > 1 << 36 || !buffer.fits(length) {
        return Ok(false);
    }
    buffer.push(Ssid(1), CopyNo(1), 0, piece);
    commit_buffer(disk, buffer, volume)
}

// Commits what the buffer holds, where the cartridge has room for it.
fn commit_buffer<D: Store>(
    disk: &mut D,
    buffer: &mut MuxBuffer,
    volume: &mut Volume,
) -> Result<bool, Failed>
    requires label { IsLabel volume.old.label }
    requires cart { volume.old.cart ≡ volume.old.label.cart }
    ensures label { volume.new.label ≡ volume.old.label }
    ensures cart { volume.new.cart ≡ volume.old.cart }
    ensures cause { FileCause (cart_file volume.old.cart.0) (D.view disk.old) (D.view disk.new)
        result }
{
    let count = buffer.blocks();
    if buffer.units() != volume.label.units || !has_room(volume, count) {
        return Ok(false);
    }
    let region = buffer.seal(volume.label.volid, volume.mark);
    volume.commit(disk, region, count)?;
    Ok(true)
}

// Whether there are blocks, and the cartridge has room for a file of so many.
fn has_room(volume: &Volume, count: u32) -> bool
    requires label { IsLabel volume.now.label }
    requires units { volume.now.label.units ≤ 16 }
    requires count { count ≤ 64 }
    ensures { IsTrue result → (1 ≤ count) × (1 ≤ volume.now.mark)
        × (volume.now.mark + volume.now.label.units * count + 2 ≤ volume.now.label.capacity) }
{
    let capacity = u64::from(volume.label.capacity);
    let size = u64::from(volume.label.units * count) + 2;
    1 <= count && 1 <= volume.mark && size <= capacity && volume.mark <= capacity - size
}
