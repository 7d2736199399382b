//! What needs a resource.

ghost use Rattle.std.specs.Prelude.{◌≡◌, codes, option_map};
ghost use Rattle.std.specs.List.{find};
ghost use Rattle.std.specs.Option.{option_or};
ghost use Rattle.catalog_change.specs.declared.resource.ResourceKind.TheVariants as kinds;
ghost use Rattle.room_resources.specs.Called.{IsRefusal, called, in_use, is_same, numbered};
ghost use Rattle.room_resources.specs.Dropping.{client_user, has_member, keeps_by, policy_user};
ghost use Rattle.room_resources.specs.Dropping.{pool_user, schedule_user, user_of};
ghost use Rattle.room_resources.specs.Users.{call_of};

use crate::calls::in_use;
use catalog_change::{Client, ResourceKind};
use itoa::Buffer;
use media_db::{Record, VolumeRec};
use room_base::{Refusal, Ssid, Volid};
use room_catalog::Catalogue;
use room_rules::{DEFAULT_POOL, Group};
use std::alloc::Global;

// The client of the room's own saves.
const ROOM_CLIENT: &str = "room";

/// What needs a resource.
#[derive(Clone, Copy)]
pub(crate) enum User<'a> {
    Client(&'a str),
    Group(&'a str),
    Volume(Volid),
    Set(Ssid),
}

/// This needs it.
pub(crate) fn needed_by(alloc: Global, user: &User<'_>) -> Refusal
    ensures { IsRefusal (in_use (call_of user.now)) result }
{
    match user {
        User::Client(name) => in_use(alloc, "client", name),
        User::Group(name) => in_use(alloc, "group", name),
        User::Volume(volid) => in_use(alloc, "volume", Buffer::new().format(volid.0)),
        User::Set(ssid) => in_use(alloc, "set", Buffer::new().format(ssid.0)),
    }
}

/// What needs the resource of this kind and name.
pub(crate) fn user_of<'a>(
    catalogue: &'a Catalogue,
    kind: ResourceKind,
    name: &str,
) -> Option<User<'a>>
    ensures { option_map call_of result ≡ user_of kind name.now catalogue.now.lists }
{
    match kind {
        ResourceKind::Policy => policy_user(catalogue.clients(), name),
        ResourceKind::Pool => pool_user(catalogue.db().volumes(), name),
        ResourceKind::Client => { client_user(catalogue.groups(), catalogue.db().records(), name) }
        ResourceKind::Schedule => schedule_user(catalogue.groups(), name),
        ResourceKind::Group => None,
    }
}

fn policy_user<'a>(clients: &'a [Client], name: &str) -> Option<User<'a>>
    ensures { option_map call_of result ≡ policy_user name.now clients.now }
{
    match clients.iter().find(|client| keeps_by(client, name)) {
        Some(client) => Some(User::Client(client.name.as_str())),
        None => None,
    }
}

fn keeps_by(client: &Client, name: &str) -> bool
    ensures { result ≡ keeps_by name.now client.now }
{
    client.browse.as_str() == name || client.retention.as_str() == name
}

fn pool_user<'a>(volumes: &'a [VolumeRec], name: &str) -> Option<User<'a>>
    ensures { option_map call_of result ≡ pool_user name.now volumes.now }
{
    if name == DEFAULT_POOL {
        return Some(User::Client(ROOM_CLIENT));
    }
    volume_of_pool(volumes, name)
}

// The volume of a pool.
fn volume_of_pool<'a>(volumes: &'a [VolumeRec], name: &str) -> Option<User<'a>>
    ensures { option_map call_of result
        ≡ option_map (λ volume. numbered (codes "volume") volume.volid.0)
        (find (λ volume. is_same volume.pool name.now) volumes.now) }
{
    match volumes.iter().find(|volume| volume.pool.as_str() == name) {
        Some(volume) => Some(User::Volume(volume.volid)),
        None => None,
    }
}

fn schedule_user<'a>(groups: &'a [Group], name: &str) -> Option<User<'a>>
    ensures { option_map call_of result ≡ schedule_user name.now groups.now }
{
    match groups.iter().find(|group| group.schedule.as_str() == name) {
        Some(group) => Some(User::Group(group.name.as_str())),
        None => None,
    }
}

fn client_user<'a>(groups: &'a [Group], records: &'a [Record], name: &str) -> Option<User<'a>>
    ensures { option_map call_of result ≡ client_user name.now groups.now records.now }
{
    if name == ROOM_CLIENT {
        return Some(User::Client(ROOM_CLIENT));
    }
    group_or_set(groups, records, name)
}

// The group that has the client as a member, or else the record of a set of the client.
fn group_or_set<'a>(groups: &'a [Group], records: &'a [Record], name: &str) -> Option<User<'a>>
    ensures { option_map call_of result ≡ option_or
        (option_map (λ group. called kinds.Group group.name)
        (find (has_member name.now) groups.now))
        (option_map (λ row. numbered (codes "set") row.ssid.0)
        (find (λ row. is_same row.client name.now) records.now)) }
{
    match group_of_member(groups, name) {
        Some(user) => Some(user),
        None => set_of_client(records, name),
    }
}

// The group that has the client as a member.
fn group_of_member<'a>(groups: &'a [Group], name: &str) -> Option<User<'a>>
    ensures { option_map call_of result
        ≡ option_map (λ group. called kinds.Group group.name)
        (find (has_member name.now) groups.now) }
{
    match groups.iter().find(|group| has_member(group, name)) {
        Some(group) => Some(User::Group(group.name.as_str())),
        None => None,
    }
}

fn has_member(group: &Group, name: &str) -> bool
    ensures { result ≡ has_member name.now group.now }
{
    group
        .members
        .as_slice()
        .iter()
        .any(|member| member.client.as_str() == name)
}

// The record of a set of the client.
fn set_of_client<'a>(records: &'a [Record], name: &str) -> Option<User<'a>>
    ensures { option_map call_of result
        ≡ option_map (λ row. numbered (codes "set") row.ssid.0)
        (find (λ row. is_same row.client name.now) records.now) }
{
    match records.iter().find(|row| row.client.as_str() == name) {
        Some(row) => Some(User::Set(row.ssid)),
        None => None,
    }
}
