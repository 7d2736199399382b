//! How long the entries are that end a save.

ghost use Rattle.std.specs.Prelude.{◌≡◌, ◌<◌, ◌≤◌, ◌^◌, ℕ, IfSome, IsSomeAnd, length};
ghost use Rattle.std.specs.List.{flat_map};
ghost use Rattle.room_base.specs.declared.numbers.Moment.{Moment};
ghost use Rattle.catalog_change.specs.Changes.{AreEntries};
ghost use Rattle.catalog_spelling.specs.Entries.{entry_text};
ghost use Rattle.save_session.specs.Sessions.{find_session};
ghost use Rattle.room_effects.specs.Effects.{entry_bytes, part_bytes};
ghost use Rattle.save_finish.specs.Ending.{finished_parts, finished_whole, part_count, part_of};
ghost use Rattle.save_finish.specs.Ended.{HasEnded};

use crate::stream::ended_index;
use catalog_text::{Entries, items_length};
use room_base::Ssid;
use save_session::Sessions;
use save_stream::IndexEntry;

/// How many entries a part of an index has, but for the last one.
pub(crate) const MAX_PART: usize = 10_000;

/// How many bytes the entry of a finished save has beside its sections and the entries of its index:
/// the moment, the kind, the set, the counts and the digest.
const FINISHED_BYTES: u64 = 69;

/// How many bytes a section has in an entry.
const SECTION_BYTES: u64 = 48;

// How long the entry is that has the whole index of a session's stream, which has so many sections.
pub(crate) fn whole_length(sessions: &Sessions, ssid: Ssid, sections: usize) -> u64
    requires ended { IsSomeAnd (find_session ssid.0 sessions.now.sessions) HasEnded }
    requires sections { IfSome (find_session ssid.0 sessions.now.sessions)
        (λ session. sections ≡ length session.sections) }
    requires count { sections < 2 ^ 32 }
    ensures { IfSome (find_session ssid.0 sessions.now.sessions) (λ session. (m : Moment)
        → result ≡ length (entry_bytes m (finished_whole ssid session))) }
{
    let index = items_length::<Entries>(ended_index(sessions, ssid));
    FINISHED_BYTES + SECTION_BYTES * sections as u64 + index
}

// The most bytes that the entries of the parts of a session's index have, and the one that closes
// them, where the stream has so many sections.
pub(crate) fn longest_length(sessions: &Sessions, ssid: Ssid, sections: usize) -> u64
    requires ended { IsSomeAnd (find_session ssid.0 sessions.now.sessions) HasEnded }
    requires sections { IfSome (find_session ssid.0 sessions.now.sessions)
        (λ session. sections ≡ length session.sections) }
    requires count { sections < 2 ^ 32 }
    ensures part { IfSome (find_session ssid.0 sessions.now.sessions) (λ session. (m : Moment)
        (part : ℕ) → length (part_bytes m ssid part (part_of part session.reading.entries))
        ≤ result) }
    ensures closing { IfSome (find_session ssid.0 sessions.now.sessions) (λ session. (m : Moment)
        → length (entry_bytes m (finished_parts ssid session)) ≤ result) }
{
    let part = longest_part(ended_index(sessions, ssid));
    FINISHED_BYTES + SECTION_BYTES * sections as u64 + part
}

// The most bytes that the entries of a part of an index have.
fn longest_part(entries: &[IndexEntry]) -> u64
    requires { AreEntries entries.now }
    ensures most { (part : ℕ) → length (flat_map entry_text (part_of part entries.now)) ≤ result }
    ensures bound { result < 2 ^ 56 }
{
    let mut longest = 0;
    for part in 0..part_count(entries.len()) {
        longest = longest.max(part_length(entries, part));
    }
    longest
}

// How many bytes the entries of a part of an index have.
fn part_length(entries: &[IndexEntry], part: usize) -> u64
    requires entries { AreEntries entries.now }
    requires part { part < part_count (length entries.now) }
    ensures length { result ≡ length (flat_map entry_text (part_of part entries.now)) }
    ensures bound { result < 2 ^ 56 }
{
    let rest = &entries[MAX_PART * part..];
    items_length::<Entries>(&rest[..MAX_PART.min(rest.len())])
}

// How many parts so many entries have.
pub(crate) fn part_count(files: usize) -> usize
    requires { files < 2 ^ 32 }
    ensures { result ≡ part_count files }
{
    (files + MAX_PART - 1) / MAX_PART
}
