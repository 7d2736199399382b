ghost use Rattle.std.specs.Prelude.{◌≡◌, IfOk};

use crate::SetCopy;
use crate::copies::copies_of;
use room_base::{Items, Memory, Moment, Name, Ssid};
use save_stream::Level;

#[derive(Clone, Copy)]
pub enum RecordState {
    /// The save goes on, or was cut off.
    Begun,
    /// All of the save set was saved.
    Complete,
    /// The save was given up.
    Aborted,
}

/// What is known of a save set.
#[derive(Drop)]
pub struct Record {
    pub ssid: Ssid,
    pub client: Name,
    pub set: Name,
    /// Empty, where no group was given.
    pub group: Name,
    pub pool: Name,
    pub level: Level,
    /// The save set that this one adds to; 0 where it stands alone.
    pub base: Ssid,
    /// When the save began.
    pub saved: Moment,
    /// Until when its files can be browsed.
    pub browse: Moment,
    /// Until when it is kept.
    pub retain: Moment,
    /// It is kept whatever `retain` says.
    pub hold: bool,
    pub state: RecordState,
    /// Its index was given up, since its files aren't browsed any more.
    pub purged: bool,
    /// How many entries it has.
    pub files: u32,
    /// How long its stream is.
    pub bytes: u64,
    /// The SHA-256 digest of the stream behind its head.
    pub digest: [u8; 32],
    pub copies: Items<SetCopy>,
    /// The number that its next copy gets.
    pub next_copy: u32,
    /// The number of the journal's entry that last amended or purged it; 0 for none.
    pub changed: u64,
}

impl Record {
    pub fn copy(&self) -> Result<Record, Memory>
        ensures { IfOk result (λ copy. copy ≡ self.now) }
    {
        let copies = copies_of(self.copies.allocator(), self.copies.as_slice())?;
        Ok(Record {
            ssid: self.ssid,
            client: self.client.copy()?,
            set: self.set.copy()?,
            group: self.group.copy()?,
            pool: self.pool.copy()?,
            level: self.level,
            base: self.base,
            saved: self.saved,
            browse: self.browse,
            retain: self.retain,
            hold: self.hold,
            state: self.state,
            purged: self.purged,
            files: self.files,
            bytes: self.bytes,
            digest: self.digest,
            copies: Items::of(copies),
            next_copy: self.next_copy,
            changed: self.changed,
        })
    }
}
