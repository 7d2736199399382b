ghost use Rattle.toml.specs.View.{table_view};
ghost use Rattle.resource_text.specs.Reading.{Reads};
ghost use Rattle.resource_text.specs.Resources.{pool_gives};

use crate::TextFault;
use crate::lists::{names_at, words_at};
use crate::table::{MAX_NAME, MAX_SET_NAME, know_keys};
use catalog_change::Resource;
use room_base::Name;
use room_rules::Pool;
use std::alloc::Global;
use toml::Table;

/// Reads a pool.
pub(crate) fn pool_of(alloc: Global, name: Name, table: &Table) -> Result<Resource, TextFault>
    ensures { Reads (pool_gives name (table_view table.now)) result }
{
    know_keys(alloc, table, &["groups", "clients", "sets", "levels"])?;
    let groups = names_at(alloc, table, "groups", MAX_NAME)?;
    let clients = names_at(alloc, table, "clients", MAX_NAME)?;
    let sets = names_at(alloc, table, "sets", MAX_SET_NAME)?;
    let levels = words_at(alloc, table, "levels")?;
    Ok(Resource::Pool(Pool {
        name,
        groups,
        clients,
        sets,
        levels,
    }))
}
