use crate::{Cart, Items, Name, Ssid, Volid};

/// Why the room doesn't do what it was asked. Each has a number, from 1 to 32 in this order, by
/// which scripts know it. docs/definitions.md says when each comes.
#[derive(Drop)]
pub enum Refusal {
    /// A field has the wrong form, or is out of range.
    Malformed { field: Name },
    NoSuch { kind: Name, name: Name },
    Exists { kind: Name, name: Name },
    /// Something else needs it; `kind` and `name` say what.
    InUse { kind: Name, name: Name },
    /// The schedule has no save on that day, counted from 1970-01-01.
    Skipped { day: u32 },
    /// A session of this save set is open.
    SetBusy { ssid: Ssid },
    /// No drive has a volume of the pool with room.
    NeedVolume { pool: Name },
    SessionsFull { limit: u64 },
    NotOpen { ssid: Ssid },
    /// The piece doesn't follow the bytes sent so far, which end at `expected`.
    Gap { expected: u64 },
    PieceTooLong { limit: u64 },
    /// The stream has a field at `offset` that isn't allowed there.
    BadStream { offset: u64 },
    NotEnded { offset: u64 },
    WrongLength { kept: u64 },
    WrongDigest { kept: [u8; 32] },
    SlotEmpty { slot: u8 },
    DriveBusy { drive: u8, volid: Volid },
    /// The cartridge has no label.
    Unlabelled { cart: Cart },
    /// The cartridge's label is another than the one on record.
    Strange { volid: Volid },
    /// The cartridge's labelling stopped in the middle; `found` is the label that it has, or 0.
    LabelPending { volid: Volid, found: Volid },
    Mounted { drive: u8 },
    /// A save set that is still needed would be lost.
    Needed { ssid: Ssid },
    /// The volume that has the bytes is in no slot.
    Offsite { volid: Volid },
    DamagedBlock { volid: Volid, block: u64 },
    Purged { ssid: Ssid },
    BaseGone { ssid: Ssid },
    HasCopy { volid: Volid },
    NoFile { path: Name },
    TooMany { limit: u64 },
    /// A device failed. The sessions in `closed` have lost what they sent.
    DeviceFault { file: u32, closed: Items<Ssid> },
    JournalFault,
    NoMemory,
}
