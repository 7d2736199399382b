//! Which new resources can be added, and why others can't.

ghost use Rattle.std.specs.Prelude.{◌≡◌, Ok, is_some, option_copied, option_map};
ghost use Rattle.std.specs.List.{find, list_any};
ghost use Rattle.catalog_change.specs.Resources.{kind_of, name_of};
ghost use Rattle.catalog_change.specs.declared.resource.Resource.TheVariants as resources;
ghost use Rattle.resource_lists.specs.Counts.{counted, counts_of};
ghost use Rattle.room_effects.specs.Checked.{ComesTo};
ghost use Rattle.room_resources.specs.Called.{called, has, no_such, refused_for};
ghost use Rattle.room_resources.specs.Defining.{first_missing, first_there, goes_by, have_room};
ghost use Rattle.room_resources.specs.Defining.{is_there, may_define, missing, missing_client};
ghost use Rattle.room_resources.specs.Defining.{missing_of};

use crate::calls::{exists, has, kind_word, no_such};
use catalog_change::{Client, Resource, ResourceKind};
use room_base::Refusal;
use room_catalog::Catalogue;
use room_rules::{Group, Member};
use room_state::RoomState;
use std::alloc::Global;

// The most resources of a kind.
const MAX_OF_KIND: u64 = 256;

/// A resource that another needs.
#[derive(Clone, Copy)]
struct Needed<'a> {
    kind: ResourceKind,
    name: &'a str,
}

/// Whether new resources can be added: there are at most 256 of each kind, none of them is there,
/// and all that they need is, or is among them.
pub(crate) fn may_define(room: &RoomState, new: &[Resource]) -> Result<(), Refusal>
    ensures { ComesTo (may_define room.now.room.catalogue.resources new.now) result }
{
    let catalogue = room.catalogue();
    let alloc = room.allocator();
    if !have_room(catalogue, new) {
        return Err(Refusal::TooMany { limit: MAX_OF_KIND });
    }
    match first_there(catalogue, new) {
        Some(one) => Err(exists(alloc, kind_word(one.kind()), one.name().as_str())),
        None => needs_are_there(catalogue, alloc, new),
    }
}

fn have_room(catalogue: &Catalogue, new: &[Resource]) -> bool
    ensures { result ≡ have_room (counts_of catalogue.now.lists.resources) (counted new.now) }
{
    catalogue.room_for(new)
}

// The first of new resources that is there already.
fn first_there<'a>(catalogue: &Catalogue, new: &'a [Resource]) -> Option<&'a Resource>
    ensures { option_map (λ one. called (kind_of one.now) (name_of one.now)) result
        ≡ first_there catalogue.now.lists.resources new.now }
{
    new.iter()
        .find(|one| has(catalogue, one.kind(), one.name().as_bytes()))
}

fn needs_are_there(catalogue: &Catalogue, alloc: Global, new: &[Resource]) -> Result<(), Refusal>
    ensures { ComesTo (refused_for no_such
        (first_missing catalogue.now.lists.resources new.now) (Ok tt)) result }
{
    match first_missing(catalogue, new) {
        Some(needed) => Err(no_such(alloc, kind_word(needed.kind), needed.name)),
        None => Ok(()),
    }
}

// The first thing that isn't there of all that new resources need.
fn first_missing<'a>(catalogue: &Catalogue, new: &'a [Resource]) -> Option<Needed<'a>>
    ensures { option_map (λ one. called one.kind one.name.now) result
        ≡ first_missing catalogue.now.lists.resources new.now }
{
    match first_lacking(catalogue, new) {
        Some(one) => missing_of(catalogue, new, one),
        None => None,
    }
}

// The first new resource that needs what isn't there.
fn first_lacking<'a>(catalogue: &Catalogue, new: &'a [Resource]) -> Option<&'a Resource>
    ensures { option_copied result
        ≡ find (λ one. is_some (missing_of catalogue.now.lists.resources new.now one)) new.now }
{
    new.iter().find(|one| lacks(catalogue, new, one))
}

fn lacks(catalogue: &Catalogue, new: &[Resource], one: &Resource) -> bool
    ensures { result ≡ is_some (missing_of catalogue.now.lists.resources new.now one.now) }
{
    missing_of(catalogue, new, one).is_some()
}

// The first thing that a resource needs and that isn't there.
fn missing_of<'a>(catalogue: &Catalogue, new: &[Resource], one: &'a Resource) -> Option<Needed<'a>>
    ensures { option_map (λ one. called one.kind one.name.now) result
        ≡ missing_of catalogue.now.lists.resources new.now one.now }
{
    match one {
        Resource::Client(client) => missing_policy(catalogue, new, client),
        Resource::Group(group) => missing_of_group(catalogue, new, group),
        Resource::Policy(_) => None,
        Resource::Pool(_) => None,
        Resource::Schedule(_) => None,
    }
}

fn missing_policy<'a>(
    catalogue: &Catalogue,
    new: &[Resource],
    client: &'a Client,
) -> Option<Needed<'a>>
    ensures { option_map (λ one. called one.kind one.name.now) result
        ≡ missing_of catalogue.now.lists.resources new.now (resources.Client client.now) }
{
    match missing(catalogue, new, ResourceKind::Policy, client.browse.as_str()) {
        Some(needed) => Some(needed),
        None => missing(
            catalogue,
            new,
            ResourceKind::Policy,
            client.retention.as_str(),
        ),
    }
}

fn missing_of_group<'a>(
    catalogue: &Catalogue,
    new: &[Resource],
    group: &'a Group,
) -> Option<Needed<'a>>
    ensures { option_map (λ one. called one.kind one.name.now) result
        ≡ missing_of catalogue.now.lists.resources new.now (resources.Group group.now) }
{
    match missing(
        catalogue,
        new,
        ResourceKind::Schedule,
        group.schedule.as_str(),
    ) {
        Some(needed) => Some(needed),
        None => missing_client(catalogue, new, group.members.as_slice()),
    }
}

// The client of the first member whose client isn't there.
fn missing_client<'a>(
    catalogue: &Catalogue,
    new: &[Resource],
    members: &'a [Member],
) -> Option<Needed<'a>>
    ensures { option_map (λ one. called one.kind one.name.now) result
        ≡ missing_client catalogue.now.lists.resources new.now members.now }
{
    let kind = ResourceKind::Client;
    match members.iter().find(|member| !is_there(catalogue, new, kind, member.client.as_str())) {
        Some(member) => Some(Needed {
            kind,
            name: member.client.as_str(),
        }),
        None => None,
    }
}

fn missing<'a>(
    catalogue: &Catalogue,
    new: &[Resource],
    kind: ResourceKind,
    name: &'a str,
) -> Option<Needed<'a>>
    ensures { option_map (λ one. called one.kind one.name.now) result
        ≡ missing catalogue.now.lists.resources new.now kind name.now }
{
    if is_there(catalogue, new, kind, name) {
        return None;
    }
    Some(Needed { kind, name })
}

// The resource of this kind and name is there, or among the new ones.
fn is_there(catalogue: &Catalogue, new: &[Resource], kind: ResourceKind, name: &str) -> bool
    ensures { result ≡ is_there catalogue.now.lists.resources new.now kind name.now }
{
    has(catalogue, kind, name.as_bytes()) || is_among(new, kind, name)
}

fn is_among(new: &[Resource], kind: ResourceKind, name: &str) -> bool
    ensures { result ≡ list_any (goes_by kind name.now) new.now }
{
    new.iter().any(|one| goes_by(one, kind, name))
}

fn goes_by(resource: &Resource, kind: ResourceKind, name: &str) -> bool
    ensures { result ≡ goes_by kind name.now resource.now }
{
    resource.kind() == kind && resource.name().as_str() == name
}
