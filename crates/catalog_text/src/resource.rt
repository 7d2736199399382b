//! Resources as items of a list.

ghost use Rattle.std.specs.Prelude.{◌≡◌, ◌<◌, ◌^◌, List, ℕ, length};
ghost use Rattle.catalog_change.specs.Resources.{IsResource};
ghost use Rattle.catalog_change.specs.declared.resource.Resource.TheVariants as resources;
ghost use Rattle.catalog_spelling.specs.Reading.{Gives};
ghost use Rattle.catalog_spelling.specs.Resources.{resource_at, resource_text, FitsResource};
ghost use Rattle.catalog_text.specs.Writing.{HasRoom, Appends};

use crate::list::items_length;
use crate::names::{SetNames, ShortNames, text_length};
use crate::resource_items::Members;
use crate::resource_reading::read_resource;
use crate::resource_writing::put_resource;
use crate::{FieldFault, Format};
use catalog_change::Resource;
use std::alloc::Global;

/// Resources in any order.
pub struct Resources;

impl Format for Resources {
    type Item = Resource;

    const LEAST: usize = 6;

    ghost at = { λ before. resource_at };

    ghost text = { resource_text };

    ghost Is = { IsResource };

    ghost LEAST = { 6 };

    ghost Fits = { FitsResource };

    fn read<'a>(
        alloc: Global,
        _before: &[Resource],
        bytes: &'a [u8],
    ) -> Result<(Resource, &'a [u8]), FieldFault> {
        read_resource(alloc, bytes)
    }

    fn put(resource: &Resource, into: &mut Vec<u8>) {
        put_resource(into, resource)
    }

    #[tactic(auto, using(crate::proofs::ResourceLengths::bound_resource))]
    fn length(resource: &Resource) -> u64 {
        resource_length(resource)
    }
}

/// How many bytes a resource has.
#[tactic(auto, using(crate::proofs::ResourceLengths::length_policy, crate::proofs::ResourceLengths::length_pool, crate::proofs::ResourceLengths::length_client, crate::proofs::ResourceLengths::length_schedule, crate::proofs::ResourceLengths::length_group))]
pub fn resource_length(resource: &Resource) -> u64
    requires { IsResource resource.now }
    ensures { result ≡ length (resource_text resource.now) }
{
    match resource {
        Resource::Policy(policy) => 6 + text_length(&policy.name),
        Resource::Pool(pool) => {
            let groups = items_length::<ShortNames>(pool.groups.as_slice());
            let clients = items_length::<ShortNames>(pool.clients.as_slice());
            let sets = items_length::<SetNames>(pool.sets.as_slice());
            let levels = pool.levels.as_slice().len() as u64;
            9 + text_length(&pool.name) + groups + clients + sets + levels
        }
        Resource::Client(client) => {
            let browse = text_length(&client.browse);
            1 + text_length(&client.name) + browse + text_length(&client.retention)
        }
        Resource::Schedule(schedule) => {
            let actions = schedule.actions.as_slice().len() as u64;
            let overrides = schedule.overrides.as_slice().len() as u64;
            4 + text_length(&schedule.name) + actions + 5 * overrides
        }
        Resource::Group(group) => {
            let members = items_length::<Members>(group.members.as_slice());
            3 + text_length(&group.name) + text_length(&group.schedule) + members
        }
    }
}
