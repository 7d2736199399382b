//! How refusals call resources, and what is known by a number.

ghost use Rattle.std.specs.Prelude.{◌≡◌, IfOk};
ghost use Rattle.room_resources.specs.Called.{IsRefusal, exists, has, in_use, kind_word, no_such};

use catalog_change::ResourceKind;
use room_base::{Memory, Name, Refusal};
use room_catalog::Catalogue;
use std::alloc::Global;

/// How a refusal calls a kind.
pub(crate) fn kind_word(kind: ResourceKind) -> &'static str
    ensures { result.now ≡ kind_word kind }
{
    match kind {
        ResourceKind::Policy => "policy",
        ResourceKind::Pool => "pool",
        ResourceKind::Client => "client",
        ResourceKind::Schedule => "schedule",
        ResourceKind::Group => "group",
    }
}

/// What a refusal calls: a kind, and a name of that kind.
struct Call {
    kind: Name,
    name: Name,
}

fn make_call(alloc: Global, kind: &str, name: &str) -> Result<Call, Memory>
    ensures { IfOk result (λ call. (call.kind ≡ kind.now) × (call.name ≡ name.now)) }
{
    Ok(Call {
        kind: Name::from_text(alloc, kind)?,
        name: Name::from_text(alloc, name)?,
    })
}

/// There is no such thing.
pub(crate) fn no_such(alloc: Global, kind: &str, name: &str) -> Refusal
    ensures { IsRefusal (no_such (record { kind = kind.now; name = name.now })) result }
{
    match make_call(alloc, kind, name) {
        Ok(Call { kind, name }) => Refusal::NoSuch { kind, name },
        Err(Memory) => Refusal::NoMemory,
    }
}

/// It is there already.
pub(crate) fn exists(alloc: Global, kind: &str, name: &str) -> Refusal
    ensures { IsRefusal (exists (record { kind = kind.now; name = name.now })) result }
{
    match make_call(alloc, kind, name) {
        Ok(Call { kind, name }) => Refusal::Exists { kind, name },
        Err(Memory) => Refusal::NoMemory,
    }
}

/// This needs it.
pub(crate) fn in_use(alloc: Global, kind: &str, name: &str) -> Refusal
    ensures { IsRefusal (in_use (record { kind = kind.now; name = name.now })) result }
{
    match make_call(alloc, kind, name) {
        Ok(Call { kind, name }) => Refusal::InUse { kind, name },
        Err(Memory) => Refusal::NoMemory,
    }
}

/// The resource of this kind and name is there.
pub(crate) fn has(catalogue: &Catalogue, kind: ResourceKind, name: &[u8]) -> bool
    ensures { result ≡ has catalogue.now.lists.resources kind name.now }
{
    match kind {
        ResourceKind::Policy => catalogue.policy(name).is_some(),
        ResourceKind::Pool => catalogue.pool(name).is_some(),
        ResourceKind::Client => catalogue.client(name).is_some(),
        ResourceKind::Schedule => catalogue.schedule(name).is_some(),
        ResourceKind::Group => catalogue.group(name).is_some(),
    }
}
