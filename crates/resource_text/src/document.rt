//! A whole text of resources.

ghost use Rattle.std.specs.Prelude.{◌≡◌, IfOk, codes, true};
ghost use Rattle.std.specs.List.{AllByRecursion};
ghost use Rattle.toml.specs.View.{table_view, view};
ghost use Rattle.toml.specs.Data.{get_member};
ghost use Rattle.catalog_change.specs.Resources.{IsResource};
ghost use Rattle.resource_lists.specs.Adding.{AreDistinct};
ghost use Rattle.resource_text.specs.Reading.{NamesField, Reads, ReadsAs};
ghost use Rattle.resource_text.specs.Resources.{Adds, IsDocument, ReadsAll, document_gives};
ghost use Rattle.resource_text.specs.Resources.{each_gives, gives_of, kind_gives, kind_key};
ghost use Rattle.resource_text.specs.Resources.{resource_gives, text_gives};
ghost use Rattle.resource_text.specs.declared.fault.TextFault.TheVariants.{Memory};

use crate::TextFault;
use crate::clients::client_of;
use crate::groups::group_of;
use crate::policies::policy_of;
use crate::pools::pool_of;
use crate::schedules::schedule_of;
use crate::table::{MAX_NAME, know_keys, malformed, name_of, table_of, value_at};
use catalog_change::{Resource, ResourceKind};
use room_base::Name;
use std::alloc::Global;
use toml::{Table, Value};

/// The kinds in the order in which they are read.
const KINDS: [ResourceKind; 5] = [
    ResourceKind::Policy,
    ResourceKind::Pool,
    ResourceKind::Client,
    ResourceKind::Schedule,
    ResourceKind::Group,
];

/// Reads resources from a text: policies, pools, clients, schedules and groups, in this order and
/// each in the order of their names. `Malformed` names the first field that isn't allowed.
pub fn read_resources(alloc: Global, text: &[u8]) -> Result<Vec<Resource>, TextFault>
    ensures gives { ReadsAll (text_gives text.now) result }
    ensures allowed { IfOk result (λ all. AllByRecursion IsResource all.items) }
    ensures distinct { IfOk result (λ all. AreDistinct all.items) }
{
    let table = document_of(alloc, text)?;
    resources_in(alloc, &table)
}

// The table that a text is of.
fn document_of(alloc: Global, text: &[u8]) -> Result<Table, TextFault>
    ensures { ReadsAs (λ table. table_view table) (codes "text") (IsDocument text.now) result }
{
    match toml::table_from_slice(alloc, text) {
        Ok(table) => Ok(table),
        Err(fault) => Err(text_fault(alloc, fault.is_memory())),
    }
}

// The fault of a text that isn't read.
fn text_fault(alloc: Global, is_memory: bool) -> TextFault
    ensures named { NamesField (codes "text") result }
    ensures memory { is_memory ≡ true → result ≡ Memory }
{
    if is_memory {
        TextFault::Memory
    } else {
        malformed(alloc, "text")
    }
}

// The resources of all kinds in a table.
fn resources_in(alloc: Global, table: &Table) -> Result<Vec<Resource>, TextFault>
    ensures { ReadsAll (document_gives (table_view table.now)) result }
{
    let keys = ["policies", "pools", "clients", "schedules", "groups"];
    know_keys(alloc, table, &keys)?;
    let mut resources = Vec::new(alloc);
    for kind in &KINDS {
        add_kind(alloc, table, *kind, &mut resources)?;
    }
    Ok(resources)
}

fn key_of(kind: ResourceKind) -> &'static str
    ensures { result.now ≡ kind_key kind }
{
    match kind {
        ResourceKind::Policy => "policies",
        ResourceKind::Pool => "pools",
        ResourceKind::Client => "clients",
        ResourceKind::Schedule => "schedules",
        ResourceKind::Group => "groups",
    }
}

// Adds the resources of one kind.
fn add_kind(
    alloc: Global,
    table: &Table,
    kind: ResourceKind,
    resources: &mut Vec<Resource>,
) -> Result<(), TextFault>
    ensures { Adds (kind_gives kind
        (get_member (kind_key kind) (table_view table.now)) resources.old.items)
        resources.new.items result }
{
    let key = key_of(kind);
    match value_at(table, key) {
        Some(value) => {
            let members = table_of(alloc, key, value)?;
            add_each(alloc, members, kind, resources)
        }
        None => Ok(()),
    }
}

// Adds each resource of a table of one kind.
fn add_each(
    alloc: Global,
    members: &Table,
    kind: ResourceKind,
    resources: &mut Vec<Resource>,
) -> Result<(), TextFault>
    ensures { Adds (each_gives kind (table_view members.now) resources.old.items)
        resources.new.items result }
{
    'names: for (name, value) in members.iter() {
        resources.push(resource_of(alloc, kind, name.as_str(), value)?)?;
    }
    Ok(())
}

fn resource_of(
    alloc: Global,
    kind: ResourceKind,
    name: &str,
    value: &Value,
) -> Result<Resource, TextFault>
    ensures { Reads (resource_gives kind name.now (view value.now)) result }
{
    let name = name_of(alloc, "name", name, MAX_NAME)?;
    let table = table_of(alloc, key_of(kind), value)?;
    fields_of(alloc, kind, name, table)
}

// What a resource of a kind has.
fn fields_of(
    alloc: Global,
    kind: ResourceKind,
    name: Name,
    table: &Table,
) -> Result<Resource, TextFault>
    ensures { Reads (gives_of kind name (table_view table.now)) result }
{
    match kind {
        ResourceKind::Policy => policy_of(alloc, name, table),
        ResourceKind::Pool => pool_of(alloc, name, table),
        ResourceKind::Client => client_of(alloc, name, table),
        ResourceKind::Schedule => schedule_of(alloc, name, table),
        ResourceKind::Group => group_of(alloc, name, table),
    }
}
