ghost use Rattle.toml.specs.View.{table_view};
ghost use Rattle.resource_text.specs.Reading.{Reads};
ghost use Rattle.resource_text.specs.Resources.{client_gives};

use crate::TextFault;
use crate::table::{MAX_NAME, know_keys, name_at};
use catalog_change::{Client, Resource};
use room_base::Name;
use std::alloc::Global;
use toml::Table;

/// Reads a client.
pub(crate) fn client_of(alloc: Global, name: Name, table: &Table) -> Result<Resource, TextFault>
    ensures { Reads (client_gives name (table_view table.now)) result }
{
    know_keys(alloc, table, &["browse", "retention"])?;
    let browse = name_at(alloc, table, "browse", MAX_NAME)?;
    let retention = name_at(alloc, table, "retention", MAX_NAME)?;
    Ok(Resource::Client(Client {
        name,
        browse,
        retention,
    }))
}
