ghost use Rattle.std.specs.Prelude.{◌≡◌, ◌≤◌, ◌++◌, length, slice_index, IfOk, OnOk};
ghost use Rattle.room_base.specs.Outside.{Told};
ghost use Rattle.room_disk.specs.Disk.{Quiet, Settled, FileCause};
ghost use Rattle.room_disk.specs.Writing.{WritesFile};
ghost use Rattle.volume_block.specs.Valid.{IsLabel, label_text};
ghost use Rattle.volume_block.specs.Region.{closed_block};
ghost use Rattle.volume_store.specs.Writes.{cart_file, IsCart, Relabels, IsBeingLabelled};
ghost use Rattle.volume_store.specs.Writes.{IsOpening};
ghost use Rattle.volume_store.specs.Reads.{FindsLabel, Finds, HasAllowedLabel};

use crate::reading::read_front;
use room_base::{Cart, Failed};
use room_disk::{Store, write_gated, write_synced};
use volume_block::{BLOCK_SIZE, BadBlock, Label, Reason, decode_label, encode_label};

/// What stands where a cartridge's label is.
#[derive(Clone, Copy)]
pub enum Found {
    /// The cartridge was never written.
    Blank,
    /// It has no label.
    Closed,
    /// Its label isn't valid, and which part of it is the first wrong one.
    Damaged(BadBlock),
    Labelled(Label),
}

/// The byte that opens a label.
const LABEL_GATE: u8 = b'L';

#[tactic(auto, using(crate::proofs::Finding::finds))]
/// Reads the label of a cartridge. It syncs the cartridge first, so that what it finds stays.
pub fn read_label<D: Store>(store: &mut D, cart: Cart) -> Result<Found, Failed>
    requires { IsCart cart.0 }
    ensures cause { FileCause (cart_file cart.0) (D.view store.old) (D.view store.new) result }
    ensures tells { (D.view store.new).tells ≡ (D.view store.old).tells }
    ensures quiet { Told (D.view store.old).tells (Quiet (D.view store.old) (D.view store.new)) }
    ensures settled { Told (D.view store.old).tells
        (OnOk result (Settled (D.view store.new) (cart_file cart.0))) }
    ensures allowed { IfOk result HasAllowedLabel }
    ensures found { Told (D.view store.old).tells
        (IfOk result (Finds ((D.view store.old).reads (cart_file cart.0)))) }
{
    let file = cart.0 + 1;
    store.sync(file)?;
    let mut block = [0; BLOCK_SIZE];
    let count = read_front(store, file, 0, &mut block)?;
    Ok(label_of(&block[..count]))
}

fn label_of(bytes: &[u8]) -> Found
    requires { length bytes.now ≤ 4096 }
    ensures found { FindsLabel bytes.now result }
    ensures allowed { HasAllowedLabel result }
{
    match bytes {
        [] => Found::Blank,
        [LABEL_GATE, ..] => open_label_of(bytes),
        _ => Found::Closed,
    }
}

#[tactic(auto, using(crate::proofs::Finding::wrong_label, crate::proofs::Finding::short_label))]
fn open_label_of(bytes: &[u8]) -> Found
    requires size { length bytes.now ≤ 4096 }
    requires open { slice_index bytes.now 0 ≡ 0x4C }
    ensures found { FindsLabel bytes.now result }
    ensures allowed { HasAllowedLabel result }
{
    if bytes.len() < BLOCK_SIZE {
        return Found::Damaged(BadBlock {
            why: Reason::Length,
        });
    }
    match decode_label(bytes) {
        Ok(label) => Found::Labelled(label),
        Err(bad) => Found::Damaged(bad),
    }
}

/// Writes a label on its cartridge, whose files are then gone. A crash at any moment leaves the
/// cartridge as it was, without a label, or with the new label and no file; so it may be after
/// `Failed`.
pub fn write_label<D: Store>(store: &mut D, label: &Label) -> Result<(), Failed>
    requires { IsLabel label.now }
    ensures { WritesFile (cart_file label.now.cart.0) (Relabels label.now)
        (IsBeingLabelled label.now)
        (D.view store.old) (D.view store.new) result }
{
    let file = label.cart.0 + 1;
    // The cartridge is closed, so that nothing on it counts.
    write_synced(store, file, 0, &[0])?;
    open_label(store, file, label)
}

// Writes the label and a closed block behind it, and then opens the label.
fn open_label<D: Store>(store: &mut D, file: u32, label: &Label) -> Result<(), Failed>
    requires { IsLabel label.now }
    ensures { WritesFile file (Relabels label.now) (IsOpening label.now)
        (D.view store.old) (D.view store.new) result }
{
    let mut blocks = [0; 2 * BLOCK_SIZE];
    fill_label_blocks(label, &mut blocks);
    let (_, rest) = blocks.split_at(1);
    write_gated(store, file, 0, LABEL_GATE, rest)
}

// The first two blocks of a labelled cartridge without files.
fn fill_label_blocks(label: &Label, blocks: &mut [u8])
    requires allowed { IsLabel label.now }
    requires whole { length blocks.old ≡ 8192 }
    ensures { blocks.new ≡ label_text label.now ++ closed_block }
{
    let (first, second) = blocks.split_at_mut(BLOCK_SIZE);
    encode_label(label, first);
    second.fill(0);
}
