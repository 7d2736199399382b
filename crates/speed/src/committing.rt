//! Files are committed to a cartridge.

ghost use Rattle.std.specs.Prelude.{◌≤◌};
ghost use Rattle.volume_block.specs.Layout.{IsUnits};

use crate::files::commit_files;
use crate::label::label_of;
use crate::words::{folder_of, number_at};
use chunk_mux::MuxBuffer;
use room_base::Name;
use room_disk::{Access, FolderLock, FolderStore};
use std::alloc::Global;
use volume_store::{FIRST_MARK, Volume, write_label};

/// Labels the cartridge and commits the files.
pub fn commit_in(rt: &HostRuntime) -> Option<()> {
    let folder = folder_of(rt)?;
    let units = number_at(rt, 3)?;
    let files = number_at(rt, 4)?;
    match units {
        1 | 2 | 4 | 8 | 16 => commit_of(rt, folder, units, files),
        _ => None,
    }
}

// The same for a number of units that there is.
fn commit_of(rt: &HostRuntime, folder: Name, units: u32, files: u32) -> Option<()>
    requires units { IsUnits units }
    requires range { units ≤ 16 }
{
    let alloc = rt.alloc();
    let label = label_of(units);
    let mut buffer = MuxBuffer::new(alloc, units).ok()?;
    let piece = full_piece(alloc, units)?;
    let lock = FolderLock::take(rt, folder, Access::Writes).ok()?;
    let mut disk = FolderStore::new(rt, alloc, lock);
    write_label(&mut disk, &label).ok()?;
    let volume = Volume {
        label,
        cart: label.cart,
        mark: FIRST_MARK,
    };
    let count = commit_files(&mut disk, &mut buffer, volume, &piece, files).ok()?;
    if count == files { Some(()) } else { None }
}

// A piece that fills 64 data blocks.
fn full_piece(alloc: Global, units: u32) -> Option<Vec<u8>>
    requires range { (1 ≤ units) × (units ≤ 16) }
{
    vec![in alloc; 7; 64 * (4096 * units as usize - 80)].ok()
}
