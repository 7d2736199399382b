/// The number of a save set. Save sets are numbered from 1; 0 stands for no save set.
#[derive(Clone, Copy, PartialEq, Eq, PartialOrd, Ord, Hash)]
pub struct Ssid(pub u64);

/// The number of a copy of a save set, counted from 1.
#[derive(Clone, Copy, PartialEq, Eq, PartialOrd, Ord, Hash)]
pub struct CopyNo(pub u32);

/// The number of a volume. The room labels volumes from 1 on; the numbers from 2^63 on are those of
/// raw volumes, which the room passes over. 0 stands for no volume.
#[derive(Clone, Copy, PartialEq, Eq, PartialOrd, Ord, Hash)]
pub struct Volid(pub u64);

/// The number of a cartridge, from 1 to 256.
#[derive(Clone, Copy, PartialEq, Eq, PartialOrd, Ord, Hash)]
pub struct Cart(pub u32);

/// Seconds since 1970-01-01T00:00:00Z.
#[derive(Clone, Copy, PartialEq, Eq, PartialOrd, Ord, Hash)]
pub struct Moment(pub u64);

/// The last second of the year 9998: the greatest moment that is ever written.
pub const MAX_MOMENT: Moment = Moment(253_370_764_799);
