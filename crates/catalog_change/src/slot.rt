use room_base::Cart;

/// A slot of the changer, from 1 to 32, and the cartridge that lies in it.
#[derive(Clone, Copy)]
pub struct FilledSlot {
    pub slot: u8,
    pub cart: Cart,
}
