//! A walk through the entries of sets, in the order of their paths.

ghost use Rattle.std.specs.Prelude.{◌≡◌, map};
ghost use Rattle.client_index.specs.Walk.{EachAscends, IsLeast, lesser, past, past_in, passed};
ghost use Rattle.client_index.specs.Walk.{rest_of, rests_of, lent};

use crate::entries::compare;
use room_base::Ssid;
use save_stream::IndexEntry;

/// The entries of a set that a walk has still before it.
#[derive(Clone, Copy)]
pub(crate) struct Rest<'a> {
    owner: Ssid,
    entries: &'a [IndexEntry],
}

impl<'a> Rest<'a> {
    pub(crate) fn new(owner: Ssid, entries: &'a [IndexEntry]) -> Rest<'a>
        ensures { rest_of result ≡ record { ssid = owner; entries = entries.now } }
    {
        Rest { owner, entries }
    }

    // The rest behind a path, where it begins with that path.
    fn past(self, path: &[u8]) -> Rest<'a>
        ensures { rest_of result
            ≡ record (rest_of self.entry) { entries = past path.now self.entry.entries.now } }
    {
        match self.entries {
            [first, later @ ..] if first.path.as_bytes() == path => Rest {
                owner: self.owner,
                entries: later,
            },
            _ => self,
        }
    }
}

/// The entry with the least path, and its set; of equal paths that of the first set.
pub(crate) fn least<'a>(rests: &[Rest<'a>]) -> Option<(Ssid, &'a IndexEntry)>
    requires { EachAscends (rests_of rests.now) }
    ensures { IsLeast (rests_of rests.now) (lent result) }
{
    let mut least = None;
    for rest in rests {
        least = lesser(least, rest);
    }
    least
}

// The least entry so far, unless the first one of a set has a path below its own.
fn lesser<'a>(
    least: Option<(Ssid, &'a IndexEntry)>,
    rest: &Rest<'a>,
) -> Option<(Ssid, &'a IndexEntry)>
    ensures { lent result ≡ lesser (lent least.entry) rest.now.owner rest.now.entries.now }
{
    let Some(first) = rest.entries.first() else {
        return least;
    };
    let Some((_, entry)) = least else {
        return Some((rest.owner, first));
    };
    if compare(entry, first.path.as_bytes()).is_gt() {
        Some((rest.owner, first))
    } else {
        least
    }
}

/// Passes a path in each set that begins with it, and drops the sets that have no entries then.
pub(crate) fn pass(rests: &mut Vec<Rest>, path: &[u8])
    ensures { rests_of rests.new.items ≡ passed path.now (rests_of rests.old.items) }
{
    pass_each(rests, path);
    rests.retain(|rest| !rest.entries.is_empty());
}

fn pass_each(rests: &mut Vec<Rest>, path: &[u8])
    ensures { rests_of rests.new.items ≡ map (past_in path.now) (rests_of rests.old.items) }
{
    for rest in rests.iter_mut() {
        *rest = rest.past(path);
    }
}
