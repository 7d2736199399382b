//! What snapshots are written from, and what they are read to.

use catalog_change::{Client, FilledSlot};
use client_index::ClientIndex;
use media_db::MediaDb;
use room_base::{Moment, Ssid, Volid};
use room_rules::{Group, Policy, Pool, Schedule};

/// What a snapshot is written from. The resources stand in the order of their names, and the slots
/// in that of their numbers.
#[derive(Clone, Copy)]
pub struct SnapshotParts<'a> {
    /// The number of the last change, and its moment.
    pub number: u64,
    pub last_moment: Moment,
    /// The numbers that the next save set and the next volume get.
    pub next_ssid: Ssid,
    pub next_volid: Volid,
    pub policies: &'a [Policy],
    pub pools: &'a [Pool],
    pub clients: &'a [Client],
    pub schedules: &'a [Schedule],
    pub groups: &'a [Group],
    pub slots: &'a [FilledSlot],
    pub db: &'a MediaDb,
    pub index: &'a ClientIndex,
}

/// What a snapshot is read to.
#[derive(Drop)]
pub struct Snapshot {
    /// The number of the last change, and its moment.
    pub number: u64,
    pub last_moment: Moment,
    /// The numbers that the next save set and the next volume get.
    pub next_ssid: Ssid,
    pub next_volid: Volid,
    pub policies: Vec<Policy>,
    pub pools: Vec<Pool>,
    pub clients: Vec<Client>,
    pub schedules: Vec<Schedule>,
    pub groups: Vec<Group>,
    pub slots: Vec<FilledSlot>,
    pub db: MediaDb,
    pub index: ClientIndex,
}
