ghost use Rattle.std.specs.Prelude.{◌≡◌, ◌+◌, ◌*◌, ◌≤◌, OnOk, OnErr, List, length};
ghost use Rattle.room_disk.specs.Writing.{WritesFile};
ghost use Rattle.volume_block.specs.Chunks.{ChunkText};
ghost use Rattle.volume_block.specs.Region.{IsSealed};
ghost use Rattle.volume_store.specs.Writes.{cart_file, IsCart, AddsFile, MayAddFile};

use crate::marks::MARK_GATE;
use room_base::{Cart, Failed};
use room_disk::{Store, write_gated};
use volume_block::{BLOCK_SIZE, Label};

/// A volume that is mounted: its label, the cartridge that it is on, and its next mark place, which
/// is the number of a block.
#[derive(Clone, Copy)]
pub struct Volume {
    pub label: Label,
    pub cart: Cart,
    pub mark: u64,
}

impl Volume {
    /// Makes the region the volume's next file; `count` is the number of its data blocks. A crash
    /// at any moment leaves the old files, or these and the new one. After `Failed` either may
    /// stand on the cartridge, so the volume is to be mounted again.
    pub fn commit<D: Store>(
        &mut self,
        store: &mut D,
        region: &[u8],
        count: u32,
    ) -> Result<(), Failed>
        requires cart { IsCart self.old.cart.0 }
        requires sealed { (blocks : List (List ChunkText)) × (length blocks ≡ count)
            × IsSealed self.old.label.volid.0 self.old.mark self.old.label.units blocks region.now }
        requires room { self.old.mark + self.old.label.units * count + 2
            ≤ self.old.label.capacity }
        ensures writes { WritesFile (cart_file self.old.cart.0)
            (AddsFile self.old.label self.old.mark region.now)
            (MayAddFile self.old.label self.old.mark region.now)
            (D.view store.old) (D.view store.new) result }
        ensures mark { OnOk result
            (self.new
            ≡ record self.old { mark = self.old.mark + self.old.label.units * count + 1 }) }
        ensures kept { OnErr result (self.new ≡ self.old) }
    {
        let file = self.cart.0 + 1;
        let gate = BLOCK_SIZE as u64 * self.mark;
        let (_, rest) = region.split_at(1);
        write_gated(store, file, gate, MARK_GATE, rest)?;
        self.mark += u64::from(self.label.units * count) + 1;
        Ok(())
    }
}
