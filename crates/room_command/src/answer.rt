use media_db::Record;
use room_base::{Cart, Items, Moment, Name, Ssid, Volid};
use room_rules::Planned;
use save_stream::Level;

/// A slot that is filled. The drive and the volume are 0 where there is none.
#[derive(Clone, Copy)]
pub struct SlotLine {
    pub cart: Cart,
    pub drive: u8,
    pub slot: u8,
    pub volid: Volid,
}

/// What a command answers that was done.
#[derive(Drop)]
pub enum Answer {
    /// So many resources were added.
    Defined {
        count: u32,
    },
    /// It was done, and there is no more to say.
    Empty,
    /// The cartridge has this volume now.
    Labelled {
        cart: Cart,
        volid: Volid,
    },
    /// The drive has this volume now.
    Mounted {
        drive: u8,
        volid: Volid,
    },
    /// The slots that are filled.
    Slots(Items<SlotLine>),
    /// What is done with each member of a group.
    Plan(Items<Planned>),
    /// A save began. `next` is the offset of its first piece.
    Begun {
        base: Ssid,
        level: Level,
        next: u64,
        pool: Name,
        saved: Moment,
        ssid: Ssid,
    },
    /// The piece was taken. `next` is the offset of the next one.
    Next {
        next: u64,
    },
    /// The save set is complete, with this length of its stream, and so many entries.
    Finished {
        bytes: u64,
        files: u32,
        ssid: Ssid,
    },
    /// The indexes of these save sets were given up.
    Purged(Items<Ssid>),
    /// What is known of a save set.
    Shown(Record),
}
