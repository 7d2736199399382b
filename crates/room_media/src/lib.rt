//! The commands on slots, drives and cartridges: loading and ejecting, the inventory, mounting and
//! unmounting, and labelling. Each follows its plan. docs/definitions.md reads the plans aloud.
#![tactic(auto)]

mod drives;
mod labelling;
mod labels;
mod listing;
mod mounting;
mod replacing;
mod slots;
mod unmounting;

pub use labelling::{NewVolume, label};
pub use listing::inventory;
pub use mounting::mount;
pub use slots::{eject, load};
pub use unmounting::unmount;
