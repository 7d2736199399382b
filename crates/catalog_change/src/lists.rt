//! Copies of lists.

ghost use Rattle.std.specs.Prelude.{◌≡◌, IfOk};

use crate::Resource;
use media_db::Section;
use room_base::{Items, Memory, Ssid};
use save_stream::IndexEntry;

pub(crate) fn resources_copy(resources: &Items<Resource>) -> Result<Items<Resource>, Memory>
    ensures { IfOk result (λ copy. copy ≡ resources.now) }
{
    let mut copy = Vec::with_capacity(resources.allocator(), resources.as_slice().len())?;
    for resource in resources.as_slice() {
        copy.push(resource.copy()?)?;
    }
    Ok(Items::of(copy))
}

pub(crate) fn entries_copy(entries: &Items<IndexEntry>) -> Result<Items<IndexEntry>, Memory>
    ensures { IfOk result (λ copy. copy ≡ entries.now) }
{
    let mut copy = Vec::with_capacity(entries.allocator(), entries.as_slice().len())?;
    for entry in entries.as_slice() {
        copy.push(entry.copy()?)?;
    }
    Ok(Items::of(copy))
}

pub(crate) fn sections_copy(sections: &Items<Section>) -> Result<Items<Section>, Memory>
    ensures { IfOk result (λ copy. copy ≡ sections.now) }
{
    let copy = Vec::from_slice(sections.allocator(), sections.as_slice())?;
    Ok(Items::of(copy))
}

pub(crate) fn ssids_copy(ssids: &Items<Ssid>) -> Result<Items<Ssid>, Memory>
    ensures { IfOk result (λ copy. copy ≡ ssids.now) }
{
    let copy = Vec::from_slice(ssids.allocator(), ssids.as_slice())?;
    Ok(Items::of(copy))
}
