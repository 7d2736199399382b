//! Searches among the entries of a set, which stand in the order of their paths.

ghost use Rattle.std.specs.Prelude.{◌≡◌, ◌↔◌, IsTrue, option_copied};
ghost use Rattle.std.specs.Ordering.{nat_cmp};
ghost use Rattle.std.specs.Cmp.Lexicographic.{slice_cmp};
ghost use Rattle.room_base.specs.Ordered.{IsPlace};
ghost use Rattle.save_stream.specs.Spelling.{PathsAscend, path_of};
ghost use Rattle.client_index.specs.View.{entry_of};
ghost use Rattle.client_index.specs.Walk.{AreAbove};

use save_stream::IndexEntry;
use std::cmp::Ordering;

/// The paths of entries ascend strictly by bytes, as those of an index have to.
pub fn paths_ascend(entries: &[IndexEntry]) -> bool
    ensures { IsTrue result ↔ PathsAscend entries.now }
{
    entries.is_sorted_by(|one, other| compare(one, other.path.as_bytes()).is_lt())
}

/// The entry of a path.
pub(crate) fn entry_of<'a>(entries: &'a [IndexEntry], path: &[u8]) -> Option<&'a IndexEntry>
    requires { PathsAscend entries.now }
    ensures { option_copied result ≡ entry_of entries.now path.now }
{
    match place_of(entries, path) {
        Ok(at) => Some(&entries[at]),
        Err(_) => None,
    }
}

/// The entries with a path above this one.
pub(crate) fn entries_after<'a>(entries: &'a [IndexEntry], after: &[u8]) -> &'a [IndexEntry]
    requires { PathsAscend entries.now }
    ensures { AreAbove after.now entries.now result.now }
{
    match place_of(entries, after) {
        Ok(at) => &entries[at + 1..],
        Err(at) => &entries[at..],
    }
}

// Where the entry of a path is, or where it would go.
fn place_of(entries: &[IndexEntry], path: &[u8]) -> Result<usize, usize>
    requires { PathsAscend entries.now }
    ensures { IsPlace (slice_cmp nat_cmp) path_of path.now entries.now result }
{
    entries.binary_search_by(|entry| compare(entry, path))
}

/// The path of an entry against this one, by bytes.
pub(crate) fn compare(entry: &IndexEntry, path: &[u8]) -> Ordering
    ensures { result ≡ slice_cmp nat_cmp entry.now.path path.now }
{
    entry.path.as_bytes().cmp(path)
}
