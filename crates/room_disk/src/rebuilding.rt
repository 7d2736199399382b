ghost use Rattle.std.specs.Prelude.{◌≡◌, ℕ, ◌+◌, ◌<◌, ◌≤◌, ◌∷◌, List, [], length, reverse, suc};
ghost use Rattle.std.specs.Prelude.{slice_index_or, if◌then◌else◌};
ghost use Rattle.room_disk.specs.declared.disk_event.DiskEvent.{DiskEvent};
ghost use Rattle.room_disk.specs.declared.mem_file.MemFile.{MemFile};
ghost use Rattle.room_disk.specs.Crashed.{partly_written, partly_cut, partly_done, all_partly_done};
ghost use Rattle.room_disk.specs.Crashed.{unsynced};
ghost use Rattle.room_disk.specs.Kept.{LieWithin};
ghost use Rattle.room_disk.specs.Rebuilding.{CanRebuild, IsRebuilt};

use crate::disk_event::DiskEvent;
use crate::file_bytes::FileBytes;
use crate::mem_file::MemFile;
use crate::part::Part;

/// Makes of each file what a crash leaves, which does a part of each event since the last sync of
/// its file.
pub fn rebuild_all(files: &mut [MemFile], events: &[DiskEvent], part: Part)
    requires { (index : ℕ) (other : MemFile) → index < length files.old
        → CanRebuild (reverse events.now) (slice_index_or files.old index other) }
    ensures { (index : ℕ) (other : MemFile) → index < length files.old
        → IsRebuilt part (reverse events.now) (slice_index_or files.old index other)
        (slice_index_or files.new index other) }
{
    for file in files.iter_mut() {
        rebuild(file, events, part);
    }
}

fn rebuild(file: &mut MemFile, events: &[DiskEvent], part: Part)
    requires { CanRebuild (reverse events.now) file.old }
    ensures { IsRebuilt part (reverse events.now) file.old file.new }
{
    let (synced, since) = events.split_at(events.len() - unsynced(events, file.number));
    file.now.replace(file.first.as_slice());
    do_all(&mut file.now, file.number, synced, Part::All);
    do_all(&mut file.now, file.number, since, part);
    file.first.replace(file.now.as_slice());
}

// How many events were recorded since the last sync of the file.
fn unsynced(events: &[DiskEvent], file: u32) -> usize
    ensures count { result ≡ unsynced file (reverse events.now) }
    ensures within { result ≤ length events.now }
{
    let mut count = 0;
    for event in events {
        count = if is_sync(event, file) { 0 } else { count + 1 };
    }
    count
}

fn is_sync(event: &DiskEvent, file: u32) -> bool
    ensures { (older : List DiskEvent)
        → unsynced file (event.now ∷ older) ≡ (if result then 0 else suc (unsynced file older)) }
{
    match event {
        DiskEvent::Synced { file: other } => *other == file,
        _ => false,
    }
}

// Does a part of each event of the file.
fn do_all(bytes: &mut FileBytes, file: u32, events: &[DiskEvent], part: Part)
    requires { LieWithin bytes.old.room file (reverse events.now) }
    ensures bytes { bytes.new.bytes
        ≡ all_partly_done part file bytes.old.bytes (reverse events.now) }
    ensures room { bytes.new.room ≡ bytes.old.room }
{
    for event in events {
        do_part(bytes, file, event, part);
    }
}

fn do_part(bytes: &mut FileBytes, file: u32, event: &DiskEvent, part: Part)
    requires { LieWithin bytes.old.room file (event.now ∷ []) }
    ensures bytes { bytes.new.bytes ≡ partly_done part file event.now bytes.old.bytes }
    ensures room { bytes.new.room ≡ bytes.old.room }
{
    match event {
        DiskEvent::Written {
            file: other,
            at,
            bytes: piece,
        } => {
            if *other == file {
                write_part(bytes, *at as usize, piece.as_slice(), part);
            }
        }
        DiskEvent::Cut { file: other, to } => {
            if *other == file {
                cut_part(bytes, *to as usize, part);
            }
        }
        DiskEvent::Synced { .. } => {}
    }
}

fn write_part(bytes: &mut FileBytes, at: usize, piece: &[u8], part: Part)
    requires { at + length piece.now ≤ bytes.old.room }
    ensures bytes { bytes.new.bytes ≡ partly_written part at piece.now bytes.old.bytes }
    ensures room { bytes.new.room ≡ bytes.old.room }
{
    match part {
        Part::Nothing => {}
        Part::All => bytes.overlay(at, piece),
        Part::Spoiled => bytes.spoil(at, piece.len()),
        Part::FirstHalf => bytes.overlay(at, &piece[..piece.len() / 2]),
    }
}

fn cut_part(bytes: &mut FileBytes, to: usize, part: Part)
    ensures bytes { bytes.new.bytes ≡ partly_cut part to bytes.old.bytes }
    ensures room { bytes.new.room ≡ bytes.old.room }
{
    match part {
        Part::Nothing => {}
        Part::Spoiled => bytes.spoil_end(to),
        Part::All | Part::FirstHalf => bytes.cut(to),
    }
}
