//! How many resources of each kind there are.

ghost use Rattle.std.specs.Prelude.{◌≡◌, ◌+◌};
ghost use Rattle.catalog_change.specs.Changes.{IsCount};
ghost use Rattle.resource_lists.specs.Counts.{AreBelow, counted, with_one};

use catalog_change::Resource;

/// A number for each kind of resource.
#[derive(Clone, Copy)]
pub struct KindCounts {
    pub policies: usize,
    pub pools: usize,
    pub clients: usize,
    pub schedules: usize,
    pub groups: usize,
}

impl KindCounts {
    /// How many of each kind are among these.
    pub fn of(resources: &[Resource]) -> KindCounts
        ensures { result ≡ counted resources.now }
    {
        let mut counts = KindCounts {
            policies: 0,
            pools: 0,
            clients: 0,
            schedules: 0,
            groups: 0,
        };
        for resource in resources {
            counts.add(resource);
        }
        counts
    }

    // One more of the kind of this resource.
    fn add(&mut self, resource: &Resource)
        requires { AreBelow 18446744073709551615 self.old }
        ensures { self.new ≡ with_one resource.now self.old }
    {
        match resource {
            Resource::Policy(_) => self.policies += 1,
            Resource::Pool(_) => self.pools += 1,
            Resource::Client(_) => self.clients += 1,
            Resource::Schedule(_) => self.schedules += 1,
            Resource::Group(_) => self.groups += 1,
        }
    }

    /// How many there are in all.
    pub fn sum(self) -> usize
        requires { IsCount (self.policies + self.pools + self.clients + self.schedules
            + self.groups) }
        ensures { result ≡ self.policies + self.pools + self.clients + self.schedules
            + self.groups }
    {
        self.policies + self.pools + self.clients + self.schedules + self.groups
    }
}
