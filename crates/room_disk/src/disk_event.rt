use room_base::Items;

/// A call that changed what a disk reads or what a crash may leave of it.
#[derive(Drop)]
pub enum DiskEvent {
    Written {
        file: u32,
        at: u64,
        bytes: Items<u8>,
    },
    Cut {
        file: u32,
        to: u64,
    },
    Synced {
        file: u32,
    },
}
