//! The effects on a cartridge that leave the room as it is: reads of it, and its label.

ghost use Rattle.std.specs.Prelude.{◌≡◌, ◌≢◌, ◌≤◌, ◌∷◌, [], Err, IfOk, OnErr, IsTrue};
ghost use Rattle.volume_block.specs.Valid.{IsLabel};
ghost use Rattle.volume_store.specs.Reads.{HasAllowedLabel};
ghost use Rattle.room_base.specs.declared.refusal.Refusal.TheVariants.{DeviceFault};
ghost use Rattle.volume_store.specs.Writes.{IsCart, cart_file};
ghost use Rattle.volume_store.specs.declared.marks.MountFault.TheVariants as mounts;
ghost use Rattle.room_effects.specs.Effects.{Look, Seen, SeenLabel, SeenVolume, WriteLabel};
ghost use Rattle.room_effects.specs.Needs.{CanDo};
ghost use Rattle.room_effects.specs.Running.{Does};

use crate::state::RoomState;
use room_base::{Cart, Items, Refusal};
use room_disk::Store;
use std::alloc::Global;
use volume_block::Label;
use volume_store::{Found, MountFault, Volume, mount, read_label, write_label};

impl RoomState {
    /// Brings a cartridge to rest, and reads its label.
    pub fn look_for_label<D: Store>(&self, store: &mut D, cart: Cart) -> Result<Found, Refusal>
        requires opens { IsTrue self.now.room.is_open }
        requires cart { IsCart cart.0 }
        ensures seen { IfOk result (λ found. Does (Look cart.0 (SeenLabel found) ∷ []) result
            self.now.room self.now.room (D.view store.old) (D.view store.new)) }
        ensures failed { OnErr result ((seen : Seen) → Does (Look cart.0 seen ∷ []) result
            self.now.room self.now.room (D.view store.old) (D.view store.new)) }
        ensures allowed { IfOk result HasAllowedLabel }
    {
        match read_label(store, cart) {
            Ok(found) => Ok(found),
            Err(_) => Err(fault_on(self.alloc, cart)),
        }
    }

    /// Brings a cartridge to rest, and reads what mounting it gives. The inner fault is never
    /// `Failed`.
    pub fn look_for_volume<D: Store>(
        &self,
        store: &mut D,
        cart: Cart,
    ) -> Result<Result<Volume, MountFault>, Refusal>
        requires opens { IsTrue self.now.room.is_open }
        requires cart { IsCart cart.0 }
        ensures seen { IfOk result (λ answer. Does (Look cart.0 (SeenVolume answer) ∷ []) result
            self.now.room self.now.room (D.view store.old) (D.view store.new)) }
        ensures failed { OnErr result ((seen : Seen) → Does (Look cart.0 seen ∷ []) result
            self.now.room self.now.room (D.view store.old) (D.view store.new)) }
        ensures reads { IfOk result (λ answer. answer ≢ Err mounts.Failed) }
        ensures cart { IfOk result (λ answer. IfOk answer (λ volume. volume.cart ≡ cart)) }
        ensures label { IfOk result (λ answer. IfOk answer (λ volume. IsLabel volume.label)) }
        ensures mark { IfOk result (λ answer. IfOk answer (λ volume. 1 ≤ volume.mark)) }
    {
        match mount(store, cart) {
            Ok(volume) => Ok(Ok(volume)),
            Err(MountFault::Unlabelled) => Ok(Err(MountFault::Unlabelled)),
            Err(MountFault::BadBlock { number }) => Ok(Err(MountFault::BadBlock { number })),
            Err(MountFault::Failed) => Err(fault_on(self.alloc, cart)),
        }
    }

    /// Writes a label on its cartridge, which was looked at, and has no file then.
    pub fn write_label<D: Store>(&self, store: &mut D, label: &Label) -> Result<(), Refusal>
        requires { CanDo (WriteLabel label.now) self.now.room }
        ensures { Does (WriteLabel label.now ∷ []) result
            self.now.room self.now.room (D.view store.old) (D.view store.new) }
    {
        match write_label(store, label) {
            Ok(()) => Ok(()),
            Err(_) => Err(fault_on(self.alloc, label.cart)),
        }
    }
}

// The fault of a cartridge, with which no session is closed. Takes no memory.
fn fault_on(alloc: Global, cart: Cart) -> Refusal
    requires { IsCart cart.0 }
    ensures { result ≡ DeviceFault (cart_file cart.0) [] }
{
    Refusal::DeviceFault {
        file: cart.0 + 1,
        closed: Items::of(Vec::new(alloc)),
    }
}
