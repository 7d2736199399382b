//! The fields of a snapshot, as reading gives them.

use catalog_change::{Client, FilledSlot};
use media_db::{Record, VolumeRec};
use room_base::{Items, Moment, Ssid, Volid};
use room_rules::{Group, Policy, Pool, Schedule};
use save_stream::IndexEntry;

/// The resources of a catalogue by their kinds, each in the order of the names.
#[derive(Drop)]
pub struct ResourceLists {
    pub policies: Items<Policy>,
    pub pools: Items<Pool>,
    pub clients: Items<Client>,
    pub schedules: Items<Schedule>,
    pub groups: Items<Group>,
}

/// A record, and the index of its save set.
#[derive(Drop)]
pub struct ListedRecord {
    pub row: Record,
    pub index: Items<IndexEntry>,
}

/// The fields of a snapshot in the order of its bytes.
#[derive(Drop)]
pub struct SnapshotFields {
    /// The number of the last change, and its moment.
    pub number: u64,
    pub last_moment: Moment,
    /// The numbers that the next save set and the next volume get.
    pub next_ssid: Ssid,
    pub next_volid: Volid,
    pub lists: ResourceLists,
    pub slots: Items<FilledSlot>,
    pub volumes: Items<VolumeRec>,
    pub records: Items<ListedRecord>,
}
