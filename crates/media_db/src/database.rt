ghost use Rattle.std.specs.Prelude.{◌≡◌, ◌+◌, ◌<◌, ◌≤◌, ◌⊎◌, ◌^◌, [], OnOk, IfOk, IfSome, IsSome};
ghost use Rattle.std.specs.Prelude.{length, option_copied, vec_capacity};
ghost use Rattle.std.specs.Option.{ForSome};
ghost use Rattle.media_db.specs.Edits.{aborted, amended, drop_copies_on, finished};
ghost use Rattle.media_db.specs.Edits.{has_copy_if_complete, purged_by, with_begun_copy};
ghost use Rattle.media_db.specs.Edits.{with_copy_removed, with_done_copy, without_copies_on};
ghost use Rattle.media_db.specs.Rows.{AreRecords, AreVolumes, HasLowerBase, find_record};
ghost use Rattle.media_db.specs.Rows.{find_volume, put_row, put_volume, remove_row, remove_volume};
ghost use Rattle.media_db.specs.Rows.{volume_on, with_edit};
ghost use Rattle.media_db.specs.Usable.{IsLastBase};

use crate::place::{find_record_in, record_place, volume_place};
use crate::usable::last_base;
use crate::{Record, Section, SetCopy, VolumeRec};
use room_base::{Cart, CopyNo, Items, Memory, Moment, Name, Ssid, Volid, insert_in_room};
use std::alloc::Global;
use std::marker::Model;

/// The records of save sets and of volumes. Contracts see the two lists, in the order of their
/// numbers, and how many more of each can be put without taking memory.
#[derive(Drop)]
pub struct MediaDb {
    records: Vec<Record>,
    volumes: Vec<VolumeRec>,
}

impl Model for MediaDb {
    ghost use Rattle.std.specs.Prelude.{◌-◌, vec_len, vec_capacity};
    ghost use Rattle.media_db.specs.Rows.{Database, AreRecords, AreVolumes};

    ghost Value = { Database };

    ghost view = { λ db. record {
      records = db.records.items;
      volumes = db.volumes.items;
      record_room = vec_capacity db.records - vec_len db.records;
      volume_room = vec_capacity db.volumes - vec_len db.volumes;
    } };

    ghost invariant = { λ db. AreRecords db.records.items × AreVolumes db.volumes.items };
}

impl MediaDb {
    /// An empty database. Takes no memory.
    pub fn new(alloc: Global) -> MediaDb
        ensures records { result.records ≡ [] }
        ensures volumes { result.volumes ≡ [] }
    {
        MediaDb {
            records: Vec::new(alloc),
            volumes: Vec::new(alloc),
        }
    }

    /// All records, in the order of their ssids.
    pub fn records(&self) -> &[Record]
        ensures value { result.now ≡ self.now.records }
        ensures order { AreRecords self.now.records }
    {
        &self.records
    }

    /// All volumes, in the order of their volids.
    pub fn volumes(&self) -> &[VolumeRec]
        ensures value { result.now ≡ self.now.volumes }
        ensures order { AreVolumes self.now.volumes }
    {
        &self.volumes
    }

    pub fn record(&self, ssid: Ssid) -> Option<&Record>
        ensures found { option_copied result ≡ find_record ssid.0 self.now.records }
        ensures ssid { IfSome result (λ row. row.now.ssid ≡ ssid) }
        ensures base { IfSome result (λ row. HasLowerBase row.now) }
    {
        find_record_in(&self.records, ssid)
    }

    pub fn volume(&self, volid: Volid) -> Option<&VolumeRec>
        ensures found { option_copied result ≡ find_volume volid.0 self.now.volumes }
        ensures volid { IfSome result (λ volume. volume.now.volid ≡ volid) }
    {
        match volume_place(&self.volumes, volid.0) {
            Ok(at) => Some(&self.volumes[at]),
            Err(_) => None,
        }
    }

    /// The volume that lies on a cartridge, of several the one of least volid.
    pub fn volume_at(&self, cart: Cart) -> Option<&VolumeRec>
        ensures { option_copied result ≡ volume_on cart.0 self.now.volumes }
    {
        self.volumes.iter().find(|volume| volume.cart.0 == cart.0)
    }

    /// The greatest ssid of the client's set that a save whose level has the rank `below` can stand
    /// on: its record is usable, and its level has a lesser rank.
    pub fn last_usable(&self, client: &Name, set: &Name, below: u8) -> Option<Ssid>
        ensures { IsLastBase self.now.records client.now set.now below result }
    {
        last_base(&self.records, client, set, below)
    }

    /// Makes room for one more record.
    pub fn reserve_record(&mut self) -> Result<(), Memory>
        ensures room { OnOk result (0 < self.new.record_room) }
        ensures no_less { self.old.record_room ≤ self.new.record_room }
        ensures rest { self.new ≡ record self.old { record_room = self.new.record_room } }
    {
        self.records.reserve(1)?;
        Ok(())
    }

    /// Makes room for one more volume.
    pub fn reserve_volume(&mut self) -> Result<(), Memory>
        ensures room { OnOk result (0 < self.new.volume_room) }
        ensures no_less { self.old.volume_room ≤ self.new.volume_room }
        ensures rest { self.new ≡ record self.old { volume_room = self.new.volume_room } }
    {
        self.volumes.reserve(1)?;
        Ok(())
    }

    /// Makes room for one more record and one more volume.
    pub fn reserve(&mut self) -> Result<(), Memory>
        ensures record_room { OnOk result (0 < self.new.record_room) }
        ensures volume_room { OnOk result (0 < self.new.volume_room) }
        ensures no_less_records { self.old.record_room ≤ self.new.record_room }
        ensures no_less_volumes { self.old.volume_room ≤ self.new.volume_room }
        ensures records { self.new.records ≡ self.old.records }
        ensures volumes { self.new.volumes ≡ self.old.volumes }
    {
        self.reserve_record()?;
        self.reserve_volume()
    }

    /// Puts a record in the place of the one with its ssid, or adds it. Takes no memory.
    pub fn put_record(&mut self, row: Record)
        requires base { HasLowerBase row }
        requires room { (0 < self.old.record_room)
            ⊎ IsSome (find_record row.ssid.0 self.old.records) }
        ensures records { self.new.records ≡ put_row row self.old.records }
        ensures volumes { self.new.volumes ≡ self.old.volumes }
        ensures room { self.old.record_room ≤ self.new.record_room + 1 }
        ensures in_place { IsSome (find_record row.ssid.0 self.old.records)
            → self.new.record_room ≡ self.old.record_room }
        ensures volume_room { self.new.volume_room ≡ self.old.volume_room }
    {
        match record_place(&self.records, row.ssid.0) {
            Ok(at) => self.records[at] = row,
            Err(at) => insert_in_room(&mut self.records, at, row),
        }
    }

    /// Puts a volume in the place of the one with its volid, or adds it. Takes no memory.
    pub fn put_volume(&mut self, volume: VolumeRec)
        requires room { (0 < self.old.volume_room)
            ⊎ IsSome (find_volume volume.volid.0 self.old.volumes) }
        ensures volumes { self.new.volumes ≡ put_volume volume self.old.volumes }
        ensures records { self.new.records ≡ self.old.records }
        ensures room { self.old.volume_room ≤ self.new.volume_room + 1 }
        ensures in_place { IsSome (find_volume volume.volid.0 self.old.volumes)
            → self.new.volume_room ≡ self.old.volume_room }
        ensures record_room { self.new.record_room ≡ self.old.record_room }
    {
        match volume_place(&self.volumes, volume.volid.0) {
            Ok(at) => self.volumes[at] = volume,
            Err(at) => insert_in_room(&mut self.volumes, at, volume),
        }
    }

    /// Removes the record of the ssid, where there is one. Takes no memory.
    pub fn remove_record(&mut self, ssid: Ssid)
        ensures records { self.new.records ≡ remove_row ssid.0 self.old.records }
        ensures volumes { self.new.volumes ≡ self.old.volumes }
        ensures record_room { self.old.record_room ≤ self.new.record_room }
        ensures volume_room { self.new.volume_room ≡ self.old.volume_room }
    {
        if let Ok(at) = record_place(&self.records, ssid.0) {
            self.records.remove(at);
        }
    }

    /// Removes the volume of the volid, where there is one. Takes no memory.
    pub fn drop_volume(&mut self, volid: Volid)
        ensures volumes { self.new.volumes ≡ remove_volume volid.0 self.old.volumes }
        ensures records { self.new.records ≡ self.old.records }
        ensures volume_room { self.old.volume_room ≤ self.new.volume_room }
        ensures record_room { self.new.record_room ≡ self.old.record_room }
    {
        if let Ok(at) = volume_place(&self.volumes, volid.0) {
            self.volumes.remove(at);
        }
    }

    /// Removes each done copy that has a section on the volume, and then each complete record that
    /// has no done copy. One pass, which takes no memory.
    pub fn drop_copies_on(&mut self, volid: Volid)
        ensures records { self.new.records ≡ drop_copies_on volid.0 self.old.records }
        ensures volumes { self.new.volumes ≡ self.old.volumes }
        ensures record_room { self.old.record_room ≤ self.new.record_room }
        ensures volume_room { self.new.volume_room ≡ self.old.volume_room }
    {
        let keep = move |row: &mut Record| -> bool
            ensures { (result ≡ has_copy_if_complete (without_copies_on volid.0 row.entry.now))
                × (row.exit.now ≡ without_copies_on volid.0 row.entry.now) }
        { row.keep_copies_off(volid) };
        self.records.retain_mut(keep);
    }

    /// Makes a save set complete: its record gets these counts and this digest, and its copy 1 is
    /// done, with these sections. Takes no memory.
    pub fn finish(
        &mut self,
        ssid: Ssid,
        files: u32,
        bytes: u64,
        digest: [u8; 32],
        sections: Items<Section>,
    )
        ensures { self.new ≡ with_edit ssid.0 (finished files bytes digest sections) self.old }
    {
        if let Ok(at) = record_place(&self.records, ssid.0) {
            self.records[at].finish(files, bytes, digest, sections);
        }
    }

    /// Its save was given up. Takes no memory.
    pub fn abort(&mut self, ssid: Ssid)
        ensures { self.new ≡ with_edit ssid.0 aborted self.old }
    {
        if let Ok(at) = record_place(&self.records, ssid.0) {
            self.records[at].abort();
        }
    }

    /// Sets a record's times and whether it is held, by the journal's entry `changed`. Takes no
    /// memory.
    pub fn amend(&mut self, ssid: Ssid, browse: Moment, retain: Moment, hold: bool, changed: u64)
        ensures { self.new ≡ with_edit ssid.0 (amended browse retain hold changed) self.old }
    {
        if let Ok(at) = record_place(&self.records, ssid.0) {
            self.records[at].amend(browse, retain, hold, changed);
        }
    }

    /// A record's index was given up, by the journal's entry `changed`. Takes no memory.
    pub fn purge(&mut self, ssid: Ssid, changed: u64)
        ensures { self.new ≡ with_edit ssid.0 (purged_by changed) self.old }
    {
        if let Ok(at) = record_place(&self.records, ssid.0) {
            self.records[at].purge(changed);
        }
    }

    /// A list for `begin_copy`: empty, with room for the record's copies and one more.
    pub fn room_for_copy(&self, ssid: Ssid) -> Result<Vec<SetCopy>, Memory>
        ensures empty { IfOk result (λ room. room.items ≡ []) }
        ensures room { IfOk result (λ room. ForSome (find_record ssid.0 self.now.records)
            (λ row. length row.copies < vec_capacity room)) }
    {
        let count = match self.record(ssid) {
            Some(row) => row.copies.as_slice().len(),
            None => 0,
        };
        Ok(Vec::with_capacity(*self.records.allocator(), count + 1)?)
    }

    /// Adds a begun copy to a record, in the list that has room for it. Takes no memory.
    pub fn begin_copy(&mut self, ssid: Ssid, no: CopyNo, room: Vec<SetCopy>)
        requires number { no.0 + 1 < 2 ^ 32 }
        requires empty { room.items ≡ [] }
        requires room { ForSome (find_record ssid.0 self.old.records)
            (λ row. length row.copies < vec_capacity room) }
        ensures { self.new ≡ with_edit ssid.0 (with_begun_copy no) self.old }
    {
        if let Ok(at) = record_place(&self.records, ssid.0) {
            self.records[at].begin_copy(no, room);
        }
    }

    /// A copy of a record is done, with these sections. Takes no memory.
    pub fn finish_copy(&mut self, ssid: Ssid, no: CopyNo, sections: Items<Section>)
        ensures { self.new ≡ with_edit ssid.0 (with_done_copy no sections) self.old }
    {
        if let Ok(at) = record_place(&self.records, ssid.0) {
            self.records[at].finish_copy(no, sections);
        }
    }

    /// Removes a copy of a record. Takes no memory.
    pub fn remove_copy(&mut self, ssid: Ssid, no: CopyNo)
        ensures { self.new ≡ with_edit ssid.0 (with_copy_removed no) self.old }
    {
        if let Ok(at) = record_place(&self.records, ssid.0) {
            self.records[at].remove_copy(no);
        }
    }
}
