//! What is closed where a write failed.

ghost use Rattle.std.specs.Prelude.{◌≡◌, false};
ghost use Rattle.room_effects.specs.Effects.{closed};

use crate::state::RoomState;
use save_session::Sessions;
use slot_changer::Drives;

impl RoomState {
    /// Closes the room, whose journal can't be written any more: what it held in memory beside the
    /// catalogue is gone. Takes no memory.
    pub(crate) fn shut(&mut self)
        ensures { self.new.room ≡ closed self.old.room }
    {
        self.is_open = false;
        self.sessions = Sessions::new(self.alloc);
        self.drives = Drives::new(self.alloc);
    }
}
