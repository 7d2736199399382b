//! Records of saves that begin, and of those whose indexes are given up.

ghost use Rattle.std.specs.Prelude.{◌≡◌, ◌<◌, ◌≤◌, [], vec_capacity};
ghost use Rattle.room_catalog.specs.Applying.{begun_row};
ghost use Rattle.client_index.specs.Sets.{AreAscending, forget_each};
ghost use Rattle.room_catalog.specs.Changing.{purge_each};

use client_index::ClientIndex;
use media_db::{CopyState, MediaDb, Record, RecordState, SetCopy};
use room_base::{CopyNo, Items, Ssid};
use save_stream::SetHead;

/// The record of a save that begins. Its copy stands in this list, which is empty and has room.
pub(crate) fn begun_record(head: SetHead, copies: Vec<SetCopy>) -> Record
    requires empty { copies.items ≡ [] }
    requires room { 0 < vec_capacity copies }
    ensures { result ≡ begun_row head }
{
    let mut copies = copies;
    let sections = Items::of(Vec::new(*copies.allocator()));
    copies
        .push(SetCopy {
            no: CopyNo(1),
            state: CopyState::Begun,
            sections,
        })
        .unwrap();
    Record {
        ssid: head.ssid,
        client: head.client,
        set: head.set,
        group: head.group,
        pool: head.pool,
        level: head.level,
        base: head.base,
        saved: head.saved,
        browse: head.browse,
        retain: head.retain,
        hold: false,
        state: RecordState::Begun,
        purged: false,
        files: 0,
        bytes: 0,
        digest: [0; 32],
        copies: Items::of(copies),
        next_copy: 2,
        changed: 0,
    }
}

/// The indexes of these sets are given up, by the journal's entry of this number.
pub(crate) fn purge(db: &mut MediaDb, index: &mut ClientIndex, ssids: &[Ssid], number: u64)
    requires { AreAscending ssids.now }
    ensures records { db.new.records ≡ purge_each number ssids.now db.old.records }
    ensures volumes { db.new.volumes ≡ db.old.volumes }
    ensures record_room { db.new.record_room ≡ db.old.record_room }
    ensures volume_room { db.new.volume_room ≡ db.old.volume_room }
    ensures sets { index.new.sets ≡ forget_each ssids.now index.old.sets }
    ensures index_room { index.old.room ≤ index.new.room }
{
    for ssid in ssids {
        db.purge(*ssid, number);
    }
    index.forget_each(ssids);
}
