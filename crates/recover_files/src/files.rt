//! Recovers a file: its bytes are read from the stream of its save set, and written out.

ghost use Rattle.std.specs.Prelude.{◌≡◌, ◌+◌, ◌≤◌, ◌<◌, ◌^◌, length};
ghost use Rattle.room_base.specs.Outside.{Told};
ghost use Rattle.room_disk.specs.Disk.{Quiet};
ghost use Rattle.recover_files.specs.StreamAt.{IsOrderly, shelf_of};
ghost use Rattle.recover_files.specs.FileBytes.{RecoversAs, WritesBytes, RecoverCause};

use crate::RecoverFault;
use crate::range::read_range;
use client_index::Seen;
use media_db::MediaDb;
use room_base::{Sink, Ssid, Volid, write_all};
use room_disk::Store;

/// The most bytes that are read before they are written.
const MAX_PIECE: usize = 65_536;

/// Writes the bytes of a file, in pieces, each as soon as it is read. `home` lists the volumes in
/// slots. After an error a front of them was written. Takes no memory.
pub fn recover<D: Store, W: Sink>(
    store: &mut D,
    db: &MediaDb,
    home: &[Volid],
    seen: &Seen,
    out: &mut W,
) -> Result<(), RecoverFault>
    requires orderly { IsOrderly db.now }
    requires range { seen.now.place + seen.now.size ≤ 2 ^ 64 }
    ensures cause { RecoverCause (D.view store.old) (D.view store.new)
        (W.view out.old).faults (W.view out.new).faults result }
    ensures tells { (D.view store.new).tells ≡ (D.view store.old).tells }
    ensures quiet { Told (D.view store.old).tells (Quiet (D.view store.old) (D.view store.new)) }
    ensures sink_tells { (W.view out.new).tells ≡ (W.view out.old).tells }
    ensures alone { W.puts_alone out.old out.new }
    ensures recovers { Told (D.view store.old).tells (RecoversAs
        (shelf_of db.now home.now (D.view store.old).reads) db.now.records
        seen.now.owner.0 seen.now.place seen.now.size result) }
    ensures written { Told (D.view store.old).tells (Told (W.view out.old).tells (WritesBytes
        (shelf_of db.now home.now (D.view store.old).reads) db.now.records
        seen.now.owner.0 seen.now.place seen.now.size
        (W.view out.old).written (W.view out.new).written result)) }
{
    let mut buffer = [0; MAX_PIECE];
    let mut done = 0;
    while done < seen.size {
        let count = piece_size(seen.size - done);
        let piece = &mut buffer[..count];
        write_range(store, db, home, seen.owner, seen.place + done, piece, out)?;
        done += count as u64;
    }
    Ok(())
}

// The bytes of the next piece, of so many that are left.
fn piece_size(left: u64) -> usize
    requires { 1 ≤ left }
    ensures some { 1 ≤ result }
    ensures most { result ≤ 65536 }
    ensures left { result ≤ left }
{
    if left < MAX_PIECE as u64 {
        left as usize
    } else {
        MAX_PIECE
    }
}

// Reads the bytes from a place of a stream on, as many as the piece has, and writes them.
fn write_range<D: Store, W: Sink>(
    store: &mut D,
    db: &MediaDb,
    home: &[Volid],
    ssid: Ssid,
    place: u64,
    piece: &mut [u8],
    out: &mut W,
) -> Result<(), RecoverFault>
    requires orderly { IsOrderly db.now }
    requires range { place + length piece.old ≤ 2 ^ 64 }
    ensures cause { RecoverCause (D.view store.old) (D.view store.new)
        (W.view out.old).faults (W.view out.new).faults result }
    ensures tells { (D.view store.new).tells ≡ (D.view store.old).tells }
    ensures quiet { Told (D.view store.old).tells (Quiet (D.view store.old) (D.view store.new)) }
    ensures sink_tells { (W.view out.new).tells ≡ (W.view out.old).tells }
    ensures alone { W.puts_alone out.old out.new }
    ensures recovers { Told (D.view store.old).tells (RecoversAs
        (shelf_of db.now home.now (D.view store.old).reads) db.now.records
        ssid.0 place (length piece.old) result) }
    ensures written { Told (D.view store.old).tells (Told (W.view out.old).tells (WritesBytes
        (shelf_of db.now home.now (D.view store.old).reads) db.now.records
        ssid.0 place (length piece.old)
        (W.view out.old).written (W.view out.new).written result)) }
{
    match read_range(store, db, home, ssid, place, piece) {
        Ok(()) => {}
        Err(fault) => return Err(RecoverFault::Range(fault)),
    }
    match write_all(out, piece) {
        Ok(()) => Ok(()),
        Err(_) => Err(RecoverFault::SinkFailed),
    }
}
