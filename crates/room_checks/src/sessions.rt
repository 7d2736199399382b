//! The sets of the open sessions.

ghost use Rattle.std.specs.Prelude.{◌≡◌, IfOk, map};
ghost use Rattle.media_db.specs.Rows.{find_record};
ghost use Rattle.dep_chain.specs.Need.{AreSessions};
ghost use Rattle.save_session.specs.Sessions.{find_session};
ghost use Rattle.room_effects.specs.View.{IsBetweenCommands};
ghost use Rattle.room_checks.specs.OpenSets.{base_of, open_set, open_sets, volid_of, volids_of};

use dep_chain::OpenSet;
use media_db::Section;
use room_base::{Items, Memory, Ssid, Volid};
use room_state::RoomState;
use std::alloc::Global;

/// The sets of the open sessions, and on which volumes they lie.
pub fn open_sets(room: &RoomState) -> Result<Items<OpenSet>, Memory>
    ensures sets { IfOk result (λ sets. sets ≡ open_sets room.now.room) }
    ensures recorded { IsBetweenCommands room.now.room
        → AreSessions room.now.room.catalogue.records (open_sets room.now.room) }
{
    let mut sets = Vec::new(room.allocator());
    for ssid in room.sessions().ssids() {
        sets.push(open_set(room, *ssid)?)?;
    }
    Ok(Items::of(sets))
}

fn open_set(room: &RoomState, ssid: Ssid) -> Result<OpenSet, Memory>
    ensures { IfOk result (λ set. set ≡ open_set room.now.room ssid) }
{
    Ok(OpenSet {
        ssid,
        base: base_of(room, ssid),
        volids: Items::of(volids_of(room, ssid)?),
    })
}

// The base of a set, 0 where it isn't on record.
fn base_of(room: &RoomState, ssid: Ssid) -> Ssid
    ensures { result ≡ base_of (find_record ssid.0 room.now.room.catalogue.records) }
{
    match room.catalogue().db().record(ssid) {
        Some(row) => row.base,
        None => Ssid(0),
    }
}

// The volumes on which the sections of an open session lie.
fn volids_of(room: &RoomState, ssid: Ssid) -> Result<Vec<Volid>, Memory>
    ensures { IfOk result
        (λ volids. volids.items ≡ volids_of (find_session ssid.0 room.now.room.sessions)) }
{
    let alloc = room.allocator();
    if !room.sessions().is_open(ssid) {
        return Ok(Vec::new(alloc));
    }
    volids_in(alloc, room.sessions().sections(ssid))
}

fn volids_in(alloc: Global, sections: &[Section]) -> Result<Vec<Volid>, Memory>
    ensures { IfOk result (λ volids. volids.items ≡ map volid_of sections.now) }
{
    let mut volids = Vec::new(alloc);
    for section in sections {
        volids.push(section.volid)?;
    }
    Ok(volids)
}
