ghost use Rattle.std.specs.Prelude.{◌≡◌, IfOk};

use room_base::{Cart, Memory, Name, Volid};

/// What is known of a volume.
#[derive(Drop)]
pub struct VolumeRec {
    pub volid: Volid,
    /// The cartridge that it lies on.
    pub cart: Cart,
    pub pool: Name,
    /// How many blocks the cartridge has.
    pub capacity: u32,
    /// The volume that lay on the cartridge before; 0 for none.
    pub was: Volid,
}

impl VolumeRec {
    pub fn copy(&self) -> Result<VolumeRec, Memory>
        ensures { IfOk result (λ copy. copy ≡ self.now) }
    {
        Ok(VolumeRec {
            volid: self.volid,
            cart: self.cart,
            pool: self.pool.copy()?,
            capacity: self.capacity,
            was: self.was,
        })
    }
}
