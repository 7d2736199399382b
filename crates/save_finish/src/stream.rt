//! What is told of a stream that has ended.

ghost use Rattle.std.specs.Prelude.{◌≡◌, ◌≤◌, IfOk, IfSome, IsSomeAnd, length};
ghost use Rattle.save_stream.specs.Spelling.{max_entries};
ghost use Rattle.catalog_change.specs.Changes.{AreEntries, IsCount};
ghost use Rattle.save_session.specs.Sessions.{find_session};
ghost use Rattle.save_finish.specs.Ended.{HasEnded, IsStreamOf};

use media_db::Section;
use room_base::{Items, Memory, Ssid};
use save_session::Sessions;
use save_stream::IndexEntry;
use std::alloc::Global;

/// How many entries and bytes a stream has, the digest of what is behind its head, and where it
/// lies.
#[derive(Drop)]
pub(crate) struct EndedStream {
    pub files: u32,
    pub bytes: u64,
    pub digest: [u8; 32],
    pub sections: Items<Section>,
}

// What is told of the stream of a session.
pub(crate) fn ended_stream(
    sessions: &Sessions,
    alloc: Global,
    ssid: Ssid,
) -> Result<EndedStream, Memory>
    requires { IsSomeAnd (find_session ssid.0 sessions.now.sessions) HasEnded }
    ensures { IfOk result (λ stream. IfSome (find_session ssid.0 sessions.now.sessions)
        (IsStreamOf stream)) }
{
    let Some(digest) = sessions.digest(ssid) else {
        unreachable!()
    };
    let sections = sections_of(alloc, sessions.sections(ssid))?;
    Ok(EndedStream {
        files: ended_index(sessions, ssid).len() as u32,
        bytes: sessions.reader(ssid).read(),
        digest,
        sections,
    })
}

// The index of a session's stream.
pub(crate) fn ended_index(sessions: &Sessions, ssid: Ssid) -> &[IndexEntry]
    requires { IsSomeAnd (find_session ssid.0 sessions.now.sessions) HasEnded }
    ensures value { IfSome (find_session ssid.0 sessions.now.sessions)
        (λ session. result.now ≡ session.reading.entries) }
    ensures allowed { AreEntries result.now }
    ensures few { length result.now ≤ max_entries }
{
    sessions.reader(ssid).entries()
}

// The sections of a stream. More of them than have a count of four bytes are beyond all memory.
fn sections_of(alloc: Global, sections: &[Section]) -> Result<Items<Section>, Memory>
    ensures { IfOk result (λ copy. (copy ≡ sections.now) × IsCount (length sections.now)) }
{
    if sections.len() > u32::MAX as usize {
        return Err(Memory);
    }
    Ok(Items::of(Vec::from_slice(alloc, sections)?))
}
