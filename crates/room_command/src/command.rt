use catalog_change::ResourceKind;
use room_base::{Cart, Items, Name, Ssid};
use room_rules::Action;

/// What a room can be asked to do.
#[derive(Drop)]
pub enum Command {
    /// Adds the resources of a text.
    Define {
        text: Items<u8>,
    },
    /// Removes a resource.
    Drop {
        kind: ResourceKind,
        name: Name,
    },
    /// Puts a cartridge into a slot.
    Load {
        slot: u8,
        cart: Cart,
    },
    /// Takes the cartridge of a slot away.
    Eject {
        slot: u8,
    },
    /// Makes a volume of the cartridge in a slot. `block` is the size of its data blocks in bytes;
    /// without it they have 4,096.
    Label {
        slot: u8,
        pool: Name,
        capacity: u32,
        block: Option<u32>,
    },
    /// Puts the volume in a slot into a drive.
    Mount {
        slot: u8,
        drive: u8,
    },
    /// Takes the volume out of a drive.
    Unmount {
        drive: u8,
    },
    /// Lists the slots.
    Inventory,
    /// Says what a group saves today.
    Savegrp {
        group: Name,
    },
    /// Begins a save of a client's set, at this level, or at that of the group's schedule.
    Begin {
        client: Name,
        set: Name,
        group: Option<Name>,
        level: Option<Action>,
    },
    /// Saves a piece of a stream. `offset` counts bytes from the end of the stream's head.
    Append {
        ssid: Ssid,
        offset: u64,
        piece: Items<u8>,
    },
    /// Ends a save whose stream has this length, counted from the end of its head, and this digest.
    Finish {
        ssid: Ssid,
        length: u64,
        sha256: [u8; 32],
    },
    /// Gives a save up.
    Abort {
        ssid: Ssid,
    },
    /// Sets those times of a save set that are given, in seconds, and whether it is held.
    Amend {
        ssid: Ssid,
        browse: Option<u64>,
        retain: Option<u64>,
        hold: Option<bool>,
    },
    /// Takes a save set off the record.
    Delete {
        ssid: Ssid,
    },
    /// Gives up the index of each save set whose files aren't browsed any more.
    Nsrim,
    /// Says what is known of a save set.
    Show {
        ssid: Ssid,
    },
}
