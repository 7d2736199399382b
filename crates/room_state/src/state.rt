//! The state of a room, and what is asked of it.

ghost use Rattle.std.specs.Prelude.{◌≡◌, ◌↔◌, ℕ, IsSomeAnd, IsTrue, MatchOption};
ghost use Rattle.std.specs.Option.{is_some};
ghost use Rattle.cat_journal.specs.Journal.{form_of};
ghost use Rattle.room_catalog.specs.Invariant.{IsHeld};
ghost use Rattle.room_effects.specs.Effects.{is_at_last};
ghost use Rattle.room_effects.specs.Memory.{catalogue_in};
ghost use Rattle.room_effects.specs.Needs.{IsInNoDrive};
ghost use Rattle.room_effects.specs.View.{IsJournalOf, IsRoom, held_in, opened_room};
ghost use Rattle.slot_changer.specs.Drives.{IsDrive, in_drive};
ghost use Rattle.room_state.specs.Memory.{without_spare};

use crate::entries::EntryJournal;
use cat_journal::Journal;
use room_base::{Cart, Ssid};
use room_catalog::Catalogue;
use save_session::Sessions;
use slot_changer::{Drives, MAX_DRIVE};
use std::alloc::Global;
use std::marker::Model;

/// The state of a room. Contracts see it as the room, and the memory that was prepared for its
/// effects.
#[derive(Drop)]
pub struct RoomState {
    /// The allocator of all lists.
    pub(crate) alloc: Global,
    pub(crate) is_open: bool,
    pub(crate) catalogue: Catalogue,
    pub(crate) sessions: Sessions,
    pub(crate) drives: Drives,
    pub(crate) journal: EntryJournal,
    /// The ssids of the sessions that a failed commit closes, which its fault answers.
    pub(crate) closed: Vec<Ssid>,
}

impl Model for RoomState {
    ghost use Rattle.room_effects.specs.Memory.{HeldRoom};

    ghost Value = { HeldRoom };

    ghost use Rattle.room_state.specs.Inside.{IsState, state_view};

    ghost view = { state_view };

    ghost invariant = { IsState };
}

impl RoomState {
    /// An open room with a catalogue and its journal, without sessions, and with empty drives. Takes
    /// no memory.
    pub fn opened(alloc: Global, catalogue: Catalogue, journal: Journal) -> RoomState
        requires { IsJournalOf catalogue.lists (without_spare journal) }
        ensures { result.room ≡ opened_room catalogue.lists journal }
    {
        let _held = catalogue.number();
        RoomState {
            alloc,
            is_open: true,
            catalogue,
            sessions: Sessions::new(alloc),
            drives: Drives::new(alloc),
            journal: EntryJournal::of(alloc, journal),
            closed: Vec::new(alloc),
        }
    }

    /// Whether effects can be done: not after a write of the journal has failed.
    pub fn is_open(&self) -> bool
        ensures is_open { result ≡ self.now.room.is_open }
        ensures room { IsRoom self.now.room }
    {
        self.is_open
    }

    pub fn catalogue(&self) -> &Catalogue
        ensures { result.now ≡ catalogue_in self.now }
    {
        &self.catalogue
    }

    pub fn sessions(&self) -> &Sessions
        ensures sessions { result.now.sessions ≡ self.now.room.sessions }
        ensures rooms { result.now.rooms ≡ self.now.memory.parts }
    {
        &self.sessions
    }

    pub fn drives(&self) -> &Drives
        ensures { result.now ≡ self.now.room.drives }
    {
        &self.drives
    }

    /// The drive that has the volume of a cartridge, if one has.
    pub fn drive_with(&self, cart: Cart) -> Option<u8>
        ensures { MatchOption result (IsInNoDrive cart.0 self.now.room)
            (λ drive. IsDrive drive
            × IsSomeAnd (held_in self.now.room drive) (λ one. one.volume.cart.0 ≡ cart.0)) }
    {
        drive_with(&self.drives, cart)
    }

    /// Whether a file of the journal is open. Where none is, a turn-over has to come before the
    /// first entry.
    pub fn has_journal_file(&self) -> bool
        ensures { result ≡ is_some self.now.room.journal.current }
    {
        self.journal.is_open()
    }

    /// The form of the journal's current file, or of the one that is written first. Only a file of
    /// form 2 takes parts of an index.
    pub fn journal_form(&self) -> u8
        ensures { result ≡ form_of self.now.room.journal.current }
    {
        self.journal.form()
    }

    /// Whether the journal's current file has the last generation, so that a turn-over writes
    /// nothing.
    pub fn is_at_last(&self) -> bool
        ensures { result ≡ is_at_last self.now.room.journal }
    {
        self.journal.is_at_last()
    }

    /// The allocator of all lists of the room.
    pub fn allocator(&self) -> Global {
        self.alloc
    }
}

// The drive that has the volume of a cartridge.
fn drive_with(drives: &Drives, cart: Cart) -> Option<u8>
    ensures { MatchOption result
        ((drive : ℕ) → IsDrive drive → ¬ IsSomeAnd (in_drive drives.now drive)
        (λ one. one.volume.cart.0 ≡ cart.0))
        (λ drive. IsDrive drive
        × IsSomeAnd (in_drive drives.now drive) (λ one. one.volume.cart.0 ≡ cart.0)) }
{
    for drive in 1..MAX_DRIVE + 1 {
        if has_cart(drives, drive, cart) {
            return Some(drive);
        }
    }
    None
}

fn has_cart(drives: &Drives, drive: u8, cart: Cart) -> bool
    requires { IsDrive drive }
    ensures { IsTrue result
        ↔ IsSomeAnd (in_drive drives.now drive) (λ one. one.volume.cart.0 ≡ cart.0) }
{
    match drives.volume(drive) {
        Some(volume) => volume.cart.0 == cart.0,
        None => false,
    }
}
