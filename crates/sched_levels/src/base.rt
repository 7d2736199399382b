//! The save set that a save stands on.

ghost use Rattle.std.specs.Prelude.{◌≡◌};
ghost use Rattle.sched_levels.specs.Bases.{IsBaseFor, full, rank_below};

use media_db::MediaDb;
use room_base::{Name, Ssid};
use save_stream::Level;

// The ranks of a full save and of an incremental one.
const FULL: u8 = 0;

const INCR: u8 = 10;

/// The level and the base of a save of a client's set for which this level is wanted: the last save
/// set of it that can be used and whose level has a lesser rank; for an incremental save any level.
/// Where there is none, the save becomes a full one, whose base is 0. Takes no memory.
pub fn base_for(db: &MediaDb, client: &Name, set: &Name, level: Level) -> (Level, Ssid)
    ensures { IsBaseFor db.now.records client.now set.now level result.0 result.1 }
{
    match db.last_usable(client, set, base_rank(level)) {
        Some(base) => (level, base),
        None => (full_level(), Ssid(0)),
    }
}

fn full_level() -> Level
    ensures { result ≡ full }
{
    Level::of(FULL).unwrap()
}

// The rank below which the level of its base is.
fn base_rank(level: Level) -> u8
    ensures { result ≡ rank_below level }
{
    match level.rank() {
        INCR => INCR + 1,
        rank => rank,
    }
}
