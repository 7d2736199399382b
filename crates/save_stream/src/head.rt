ghost use Rattle.std.specs.Prelude.{◌≡◌, IfOk};
ghost use Rattle.save_stream.specs.Heads.{head_of_parts};

use crate::Level;
use room_base::{Memory, Moment, Name, Ssid};

/// What the head of a stream says of its save set.
#[derive(Drop)]
pub struct SetHead {
    pub ssid: Ssid,
    /// The save set that this one adds to; 0 at level 0 alone.
    pub base: Ssid,
    pub level: Level,
    /// When the save began.
    pub saved: Moment,
    /// Until when its files can be browsed.
    pub browse: Moment,
    /// Until when it is kept.
    pub retain: Moment,
    pub client: Name,
    pub set: Name,
    /// Empty, where no group was given.
    pub group: Name,
    pub pool: Name,
}

/// The parts of a head, as a head or a record of its save set lends them.
#[derive(Clone, Copy)]
pub struct HeadParts<'a> {
    pub ssid: Ssid,
    pub base: Ssid,
    pub level: Level,
    pub saved: Moment,
    pub browse: Moment,
    pub retain: Moment,
    pub client: &'a Name,
    pub set: &'a Name,
    pub group: &'a Name,
    pub pool: &'a Name,
}

impl SetHead {
    /// Lends the parts of the head.
    pub fn parts(&self) -> HeadParts<'_>
        ensures { head_of_parts result ≡ self.now }
    {
        HeadParts {
            ssid: self.ssid,
            base: self.base,
            level: self.level,
            saved: self.saved,
            browse: self.browse,
            retain: self.retain,
            client: &self.client,
            set: &self.set,
            group: &self.group,
            pool: &self.pool,
        }
    }

    pub fn copy(&self) -> Result<SetHead, Memory>
        ensures { IfOk result (λ copy. copy ≡ self.now) }
    {
        Ok(SetHead {
            ssid: self.ssid,
            base: self.base,
            level: self.level,
            saved: self.saved,
            browse: self.browse,
            retain: self.retain,
            client: self.client.copy()?,
            set: self.set.copy()?,
            group: self.group.copy()?,
            pool: self.pool.copy()?,
        })
    }
}
