//! Names that are judged beside the items that have them.

ghost use Rattle.std.specs.Prelude.{◌≡◌, List, ℕ, true, IfOk};
ghost use Rattle.std.specs.Ordering.{nat_cmp};
ghost use Rattle.std.specs.Cmp.Lexicographic.{slice_cmp};
ghost use Rattle.room_base.specs.Ordered.{Ascends, IsPlace};
ghost use Rattle.catalog_spelling.specs.Reading.{Gives};
ghost use Rattle.catalog_spelling.specs.Names.{AllowsName, is_next_name, is_there, name_if_at};

use catalog_change::Client;
use catalog_text::{FieldFault, read_name};
use room_base::Name;
use room_rules::{Group, Policy, Pool, Schedule};
use std::alloc::Global;

/// What is known by its name.
pub(crate) trait Named {
    ghost key: { Self → List ℕ };

    /// Lends the name.
    fn name(&self) -> &Name
        ensures { result.now ≡ key self.now };
}

impl Named for Policy {
    ghost use Rattle.catalog_change.specs.Resources.{policy_name};

    ghost key = { policy_name };

    fn name(&self) -> &Name {
        &self.name
    }
}

impl Named for Pool {
    ghost use Rattle.catalog_change.specs.Resources.{pool_name};

    ghost key = { pool_name };

    fn name(&self) -> &Name {
        &self.name
    }
}

impl Named for Client {
    ghost use Rattle.catalog_change.specs.Resources.{client_name};

    ghost key = { client_name };

    fn name(&self) -> &Name {
        &self.name
    }
}

impl Named for Schedule {
    ghost use Rattle.catalog_change.specs.Resources.{schedule_name};

    ghost key = { schedule_name };

    fn name(&self) -> &Name {
        &self.name
    }
}

impl Named for Group {
    ghost use Rattle.catalog_change.specs.Resources.{group_name};

    ghost key = { group_name };

    fn name(&self) -> &Name {
        &self.name
    }
}

// Where the item of the name is, or where it would go.
fn place<T: Named>(items: &[T], name: &[u8]) -> Result<usize, usize>
    requires { Ascends (slice_cmp nat_cmp) T.key items.now }
    ensures { IsPlace (slice_cmp nat_cmp) T.key name.now items.now result }
{
    items.binary_search_by(|item| item.name().as_bytes().cmp(name))
}

/// One of the items has the name.
pub(crate) fn is_there<T: Named>(items: &[T], name: &[u8]) -> bool
    requires { Ascends (slice_cmp nat_cmp) T.key items.now }
    ensures { result ≡ is_there T.key items.now name.now }
{
    match place(items, name) {
        Ok(_) => true,
        Err(_) => false,
    }
}

/// A name stands above that of the last of these items.
#[tactic(auto, unfolding(save_stream::specs::Reading::is_below))]
pub(crate) fn is_next_name<T: Named>(before: &[T], name: &[u8]) -> bool
    ensures { result ≡ is_next_name T.key before.now name.now }
{
    match before.last() {
        Some(last) => last.name().as_bytes().cmp(name).is_lt(),
        None => true,
    }
}

/// Judges a name behind its length, which begins these bytes.
pub(crate) fn allow_name(allowed: bool, bytes: &[u8]) -> Result<(), FieldFault>
    ensures { AllowsName allowed bytes.now result }
{
    if !allowed {
        return Err(FieldFault::Bad {
            behind: bytes.len().saturating_sub(1),
        });
    }
    Ok(())
}

/// A name that stands above that of the last of these items.
#[tactic(auto, unfolding(catalog_spelling::specs::Names::name_if_at))]
pub(crate) fn read_next_name<'a, T: Named>(
    alloc: Global,
    before: &[T],
    bytes: &'a [u8],
) -> Result<(Name, &'a [u8]), FieldFault>
    ensures read { Gives (λ x. (x.0, x.1.now)) result
        (name_if_at (is_next_name T.key before.now) bytes.now) }
    ensures next { IfOk result (λ x. is_next_name T.key before.now x.0 ≡ true) }
{
    let (name, rest) = read_name(alloc, 64, bytes)?;
    allow_name(is_next_name(before, name.as_bytes()), bytes)?;
    Ok((name, rest))
}

/// A name that one of these items has.
#[tactic(auto, unfolding(catalog_spelling::specs::Names::name_if_at))]
pub(crate) fn read_known_name<'a, T: Named>(
    alloc: Global,
    items: &[T],
    bytes: &'a [u8],
) -> Result<(Name, &'a [u8]), FieldFault>
    requires { Ascends (slice_cmp nat_cmp) T.key items.now }
    ensures { Gives (λ x. (x.0, x.1.now)) result
        (name_if_at (is_there T.key items.now) bytes.now) }
{
    let (name, rest) = read_name(alloc, 64, bytes)?;
    allow_name(is_there(items, name.as_bytes()), bytes)?;
    Ok((name, rest))
}
