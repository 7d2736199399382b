ghost use Rattle.std.specs.Prelude.{◌≡◌};
ghost use Rattle.client_index.specs.View.{seen_of};

use room_base::Ssid;
use save_stream::{EntryKind, IndexEntry};

/// What a path shows in the view of a chain. `size` and `place` are 0 for folders.
#[derive(Clone, Copy)]
pub struct Seen {
    /// The save set whose entry decides.
    pub owner: Ssid,
    pub kind: EntryKind,
    pub mtime: u64,
    pub size: u64,
    /// The offset of the file's bytes in the stream of `owner`.
    pub place: u64,
}

/// What an entry of a set shows: nothing where its path is gone.
pub(crate) fn seen_of(owner: Ssid, entry: &IndexEntry) -> Option<Seen>
    ensures { result ≡ seen_of owner entry.now }
{
    match entry.kind {
        EntryKind::Gone => None,
        kind => Some(Seen {
            owner,
            kind,
            mtime: entry.mtime,
            size: entry.size,
            place: entry.place,
        }),
    }
}
