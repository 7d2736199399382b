//! Lists of what is known by its name, in the order of the names.

ghost use Rattle.std.specs.Prelude.{◌≡◌, ◌+◌, ◌<◌, ◌≤◌, List, ℕ, option_copied, vec_len};
ghost use Rattle.std.specs.Prelude.{vec_capacity};
ghost use Rattle.std.specs.Ordering.{nat_cmp};
ghost use Rattle.std.specs.Cmp.Lexicographic.{slice_cmp};
ghost use Rattle.room_base.specs.Ordered.{Ascends, IsPlace};
ghost use Rattle.resource_lists.specs.Kinds.{find_named, put_named, remove_named};

use catalog_change::Client;
use room_base::{Name, insert_in_room};
use room_rules::{Group, Policy, Pool, Schedule};

/// What is known by its name.
pub(crate) trait Named {
    ghost key: { Self → List ℕ };

    /// Lends the name.
    fn name(&self) -> &Name
        ensures { result.now ≡ key self.now };
}

impl Named for Policy {
    ghost use Rattle.catalog_change.specs.Resources.{policy_name};

    ghost key = { policy_name };

    fn name(&self) -> &Name {
        &self.name
    }
}

impl Named for Pool {
    ghost use Rattle.catalog_change.specs.Resources.{pool_name};

    ghost key = { pool_name };

    fn name(&self) -> &Name {
        &self.name
    }
}

impl Named for Client {
    ghost use Rattle.catalog_change.specs.Resources.{client_name};

    ghost key = { client_name };

    fn name(&self) -> &Name {
        &self.name
    }
}

impl Named for Schedule {
    ghost use Rattle.catalog_change.specs.Resources.{schedule_name};

    ghost key = { schedule_name };

    fn name(&self) -> &Name {
        &self.name
    }
}

impl Named for Group {
    ghost use Rattle.catalog_change.specs.Resources.{group_name};

    ghost key = { group_name };

    fn name(&self) -> &Name {
        &self.name
    }
}

// Where the item of the name is, or where it would go.
fn place<T: Named>(items: &[T], name: &[u8]) -> Result<usize, usize>
    requires { Ascends (slice_cmp nat_cmp) T.key items.now }
    ensures { IsPlace (slice_cmp nat_cmp) T.key name.now items.now result }
{
    items.binary_search_by(|item| item.name().as_bytes().cmp(name))
}

/// The item of the name.
pub(crate) fn find<'a, T: Named>(items: &'a [T], name: &[u8]) -> Option<&'a T>
    requires { Ascends (slice_cmp nat_cmp) T.key items.now }
    ensures { option_copied result ≡ find_named T.key name.now items.now }
{
    match place(items, name) {
        Ok(at) => Some(&items[at]),
        Err(_) => None,
    }
}

/// Puts an item in its place, instead of the one of its name. There is room, and no memory is
/// taken.
pub(crate) fn put<T: Named + Drop>(items: &mut Vec<T>, item: T)
    requires ordered { Ascends (slice_cmp nat_cmp) T.key items.old.items }
    requires room { vec_len items.old < vec_capacity items.old }
    ensures items { items.new.items ≡ put_named T.key item items.old.items }
    ensures order { Ascends (slice_cmp nat_cmp) T.key items.new.items }
    ensures len { vec_len items.new ≤ vec_len items.old + 1 }
    ensures capacity { vec_capacity items.new ≡ vec_capacity items.old }
{
    match place(items, item.name().as_bytes()) {
        Ok(at) => items[at] = item,
        Err(at) => insert_in_room(items, at, item),
    }
}

/// Removes the item of the name, where there is one.
pub(crate) fn remove<T: Named + Drop>(items: &mut Vec<T>, name: &[u8])
    requires ordered { Ascends (slice_cmp nat_cmp) T.key items.old.items }
    ensures items { items.new.items ≡ remove_named T.key name.now items.old.items }
    ensures order { Ascends (slice_cmp nat_cmp) T.key items.new.items }
    ensures len { vec_len items.new ≤ vec_len items.old }
    ensures capacity { vec_capacity items.new ≡ vec_capacity items.old }
{
    if let Ok(at) = place(items, name) {
        items.remove(at);
    }
}
