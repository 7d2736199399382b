//! The texts of a catalogue are read and written.

ghost use Rattle.std.specs.Prelude.{◌≤◌};
ghost use Rattle.room_base.specs.Numbers.{max_moment};
ghost use Rattle.catalog_change.specs.Changes.{IsChange};

use crate::words::{folder_of, number_at};
use catalog_change::Change;
use catalog_snapshot::snapshot;
use catalog_text::{decode_change, encode_change};
use journal_replay::read_snapshot;
use room_base::Moment;
use room_disk::{Access, FolderLock, FolderStore, Store};
use std::alloc::Global;

/// What is done with a text.
#[derive(Clone, Copy)]
pub enum Text {
    Decoded,
    Encoded,
    Read,
    Written,
}

/// Does the work on the text in file 0 of the folder, so many times.
pub fn work_on(rt: &HostRuntime, work: Text) -> Option<()> {
    let alloc = rt.alloc();
    let times = number_at(rt, 3)?;
    let lock = FolderLock::take(rt, folder_of(rt)?, Access::Reads).ok()?;
    let mut disk = FolderStore::new(rt, alloc, lock);
    let text = text_of(alloc, &mut disk)?;
    match work {
        Text::Decoded => decode(alloc, &text, times),
        Text::Encoded => encode(alloc, &text, times),
        Text::Read => read(alloc, &text, times),
        Text::Written => write(alloc, &text, times),
    }
}

// The bytes of file 0.
fn text_of<D: Store>(alloc: Global, disk: &mut D) -> Option<Vec<u8>> {
    let length = disk.len(0).ok()?;
    let mut text = Vec::with_capacity(alloc, length as usize).ok()?;
    text.resize(length as usize, 0).ok()?;
    disk.read_at(0, 0, &mut text).ok()?;
    Some(text)
}

fn decode(alloc: Global, text: &[u8], times: u32) -> Option<()> {
    for _ in 0..times {
        decode_change(alloc, text).ok()?;
    }
    Some(())
}

fn encode(alloc: Global, text: &[u8], times: u32) -> Option<()> {
    let (moment, change) = decode_change(alloc, text).ok()?;
    encode_each(alloc, moment, &change, times)
}

fn encode_each(alloc: Global, moment: Moment, change: &Change, times: u32) -> Option<()>
    requires moment { moment.0 ≤ max_moment }
    requires allowed { IsChange change.now }
{
    for _ in 0..times {
        encode_change(alloc, moment, change).ok()?;
    }
    Some(())
}

fn read(alloc: Global, text: &[u8], times: u32) -> Option<()> {
    for _ in 0..times {
        read_snapshot(alloc, text, true).ok()?;
    }
    Some(())
}

fn write(alloc: Global, text: &[u8], times: u32) -> Option<()> {
    let catalogue = read_snapshot(alloc, text, true).ok()?;
    for _ in 0..times {
        snapshot(&catalogue, alloc, true).ok()?;
    }
    Some(())
}
