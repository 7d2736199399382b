//! The indexes of save sets.

ghost use Rattle.std.specs.Prelude.{◌≡◌, ◌<◌, ◌≤◌, ◌+◌, ◌⊎◌, [], ◌++◌, IfOk, OnOk, IsSome, IfSome};
ghost use Rattle.std.specs.Prelude.{option_copied};
ghost use Rattle.std.specs.Ordering.{nat_cmp};
ghost use Rattle.room_base.specs.Ordered.{IsPlace};
ghost use Rattle.save_stream.specs.Spelling.{PathsAscend};
ghost use Rattle.client_index.specs.Sets.{AreAscending, AreOrdered, entries_of, forget, forget_each};
ghost use Rattle.client_index.specs.Sets.{is_one_of, number_of, put};
ghost use Rattle.client_index.specs.View.{chain_of, seen_of, view, AreFirstSeen};
ghost use Rattle.client_index.specs.Walk.{EachAscendsFrom, DecideAlike, added, rests_of};

use crate::entries::{entries_after, entry_of};
use crate::seen::{Seen, seen_of};
use crate::walk::{Rest, least, pass};
use room_base::{Items, Memory, Name, Ssid, insert_in_room};
use save_stream::IndexEntry;
use std::alloc::Global;
use std::marker::Model;

/// The entries of one save set, in the order of their paths.
#[derive(Drop)]
pub struct SetIndex {
    ssid: Ssid,
    entries: Items<IndexEntry>,
}

/// The indexes of save sets: which entries each set has. Contracts see the sets in the order of
/// their numbers, and how many more indexes can be put without taking memory.
#[derive(Drop)]
pub struct ClientIndex {
    sets: Vec<SetIndex>,
}

impl Model for ClientIndex {
    ghost use Rattle.std.specs.Prelude.{◌-◌, vec_len, vec_capacity};
    ghost use Rattle.client_index.specs.Sets.{Indexes, AreOrdered};

    ghost Value = { Indexes };

    ghost view = { λ index. record {
      sets = index.sets.items;
      room = vec_capacity index.sets -
          vec_len index.sets;
    } };

    ghost invariant = { λ index. AreOrdered index.sets.items };
}

impl ClientIndex {
    /// No set has an index. Takes no memory.
    pub fn new(alloc: Global) -> ClientIndex
        ensures { result.sets ≡ [] }
    {
        ClientIndex {
            sets: Vec::new(alloc),
        }
    }

    /// Makes room for the index of one more set.
    pub fn reserve(&mut self) -> Result<(), Memory>
        ensures sets { self.new.sets ≡ self.old.sets }
        ensures room { self.old.room ≤ self.new.room }
        ensures ok { OnOk result (0 < self.new.room) }
    {
        self.sets.reserve(1)?;
        Ok(())
    }

    /// Gives a set this index. It takes room only where the set has none yet.
    pub fn put(&mut self, ssid: Ssid, entries: Vec<IndexEntry>)
        requires ascend { PathsAscend entries.items }
        requires room { (0 < self.old.room) ⊎ IsSome (entries_of self.old.sets ssid) }
        ensures sets { self.new.sets
            ≡ put self.old.sets (record { ssid = ssid; entries = entries.items }) }
        ensures room { self.old.room ≤ self.new.room + 1 }
        ensures in_place { IsSome (entries_of self.old.sets ssid) → self.new.room ≡ self.old.room }
    {
        let set = SetIndex {
            ssid,
            entries: Items::of(entries),
        };
        match self.search(ssid) {
            Ok(at) => self.sets[at] = set,
            Err(at) => insert_in_room(&mut self.sets, at, set),
        }
    }

    /// Takes the index of a set away, if it has one. Takes no memory.
    pub fn forget(&mut self, ssid: Ssid)
        ensures sets { self.new.sets ≡ forget self.old.sets ssid }
        ensures room { self.old.room ≤ self.new.room }
    {
        if let Ok(at) = self.search(ssid) {
            self.sets.remove(at);
        }
    }

    /// Takes the indexes of these sets away, those that have one, in one pass. Takes no memory.
    pub fn forget_each(&mut self, ssids: &[Ssid])
        requires { AreAscending ssids.now }
        ensures sets { self.new.sets ≡ forget_each ssids.now self.old.sets }
        ensures room { self.old.room ≤ self.new.room }
    {
        self.sets.retain(|set| !is_one_of(ssids, set.ssid));
    }

    /// The entries of a set, if it has an index.
    pub fn entries(&self, ssid: Ssid) -> Option<&[IndexEntry]>
        ensures value { option_copied result ≡ entries_of self.now.sets ssid }
        ensures ascend { IfSome result (λ entries. PathsAscend entries.now) }
        ensures ordered { AreOrdered self.now.sets }
    {
        match self.search(ssid) {
            Ok(at) => Some(self.sets[at].entries.as_slice()),
            Err(_) => None,
        }
    }

    /// What a path shows in the view of a chain. Takes no memory.
    pub fn view_entry(&self, chain: &[Ssid], path: &[u8]) -> Option<Seen>
        ensures { result ≡ view self.now.sets chain.now path.now }
    {
        for ssid in chain {
            if let Some(entries) = self.entries(*ssid) {
                if let Some(entry) = entry_of(entries, path) {
                    return seen_of(*ssid, entry);
                }
            }
        }
        None
    }

    /// The first `most` paths above `after` that the view of a chain shows.
    pub fn view_after(
        &self,
        chain: &[Ssid],
        after: &[u8],
        most: u32,
    ) -> Result<Vec<(Name, Seen)>, Memory>
        ensures { IfOk result
            (λ answer. AreFirstSeen
            (chain_of self.now.sets chain.now) after.now most answer.items) }
    {
        let mut rests = self.rests_after(chain, after)?;
        let mut answer = Vec::new(*self.sets.allocator());
        while answer.len() < most as usize {
            let Some((owner, entry)) = least(&rests) else {
                return Ok(answer);
            };
            push_seen(&mut answer, owner, entry)?;
            pass(&mut rests, entry.path.as_bytes());
        }
        Ok(answer)
    }

    // The entries above a path, of each set of a chain that has an index.
    fn rests_after(&self, chain: &[Ssid], after: &[u8]) -> Result<Vec<Rest<'_>>, Memory>
        ensures ascend { IfOk result (λ rests. EachAscendsFrom after.now (rests_of rests.items)) }
        ensures same { IfOk result
            (λ rests. DecideAlike after.now (chain_of self.now.sets chain.now)
            (rests_of rests.items)) }
    {
        let mut rests = Vec::new(*self.sets.allocator());
        for owner in chain {
            if let Some(entries) = self.entries(*owner) {
                rests.push(Rest::new(*owner, entries_after(entries, after)))?;
            }
        }
        Ok(rests)
    }

    // Where the index of a set is, or where it would go.
    fn search(&self, ssid: Ssid) -> Result<usize, usize>
        ensures { IsPlace nat_cmp number_of ssid.0 self.now.sets result }
    {
        self.sets.binary_search_by_key(&ssid.0, |set| set.ssid.0)
    }
}

// Whether the set is one of these, whose numbers ascend.
fn is_one_of(ssids: &[Ssid], ssid: Ssid) -> bool
    ensures { AreAscending ssids.now → result ≡ is_one_of ssids.now ssid }
{
    ssids.binary_search_by_key(&ssid.0, |one| one.0).is_ok()
}

// Adds the path of an entry with what it shows, if it isn't gone.
fn push_seen(answer: &mut Vec<(Name, Seen)>, owner: Ssid, entry: &IndexEntry) -> Result<(), Memory>
    ensures { OnOk result
        (answer.new.items ≡ answer.old.items ++ added entry.now.path (seen_of owner entry.now)) }
{
    if let Some(seen) = seen_of(owner, entry) {
        answer.push((entry.path.copy()?, seen))?;
    }
    Ok(())
}
