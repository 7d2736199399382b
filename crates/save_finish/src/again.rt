//! A save that was finished before.

ghost use Rattle.std.specs.Prelude.{◌≡◌};
ghost use Rattle.save_stream.specs.Heads.{head_of_parts};
ghost use Rattle.media_db.specs.Rows.{find_record};
ghost use Rattle.media_db.specs.Streams.{head_of};
ghost use Rattle.save_stream.specs.Spelling.{IsHead};
ghost use Rattle.save_finish.specs.Finishing.{finished_again, is_complete, row_again};
ghost use Rattle.save_finish.specs.Finishing.{size_behind_head};

use crate::checks::kept_checks;
use media_db::{Record, RecordState};
use room_base::{Refusal, Ssid};
use room_command::Answer;
use room_state::RoomState;
use save_stream::{HeadParts, head_length};

// What the end of a set's save was answered, which has no session any more.
pub(crate) fn finished_again(
    room: &RoomState,
    ssid: Ssid,
    length: u64,
    digest: &[u8; 32],
) -> Result<Answer, Refusal>
    ensures { result ≡ finished_again ssid length digest.now
        (find_record ssid.0 room.now.room.catalogue.records) }
{
    let _held = room.catalogue().number();
    match room.catalogue().db().record(ssid) {
        Some(row) => row_again(row, ssid, length, digest),
        None => Err(Refusal::NotOpen { ssid }),
    }
}

fn row_again(row: &Record, ssid: Ssid, length: u64, digest: &[u8; 32]) -> Result<Answer, Refusal>
    requires { IsHead (head_of row.now) }
    ensures { result ≡ row_again ssid length digest.now row.now }
{
    if !is_complete(row.state) {
        return Err(Refusal::NotOpen { ssid });
    }
    match kept_checks(size_behind_head(row), &row.digest, length, digest) {
        Ok(()) => Ok(Answer::Finished {
            bytes: row.bytes,
            files: row.files,
            ssid,
        }),
        Err(refusal) => Err(refusal),
    }
}

fn is_complete(state: RecordState) -> bool
    ensures { result ≡ is_complete state }
{
    state == RecordState::Complete
}

// How many bytes of a complete set's stream are behind its head.
fn size_behind_head(row: &Record) -> u64
    requires { IsHead (head_of row.now) }
    ensures { result ≡ size_behind_head row.now }
{
    row.bytes.saturating_sub(head_length(&parts_of(row)))
}

// The parts of a record's head.
fn parts_of(row: &Record) -> HeadParts<'_>
    ensures { head_of_parts result ≡ head_of row.now }
{
    HeadParts {
        ssid: row.ssid,
        base: row.base,
        level: row.level,
        saved: row.saved,
        browse: row.browse,
        retain: row.retain,
        client: &row.client,
        set: &row.set,
        group: &row.group,
        pool: &row.pool,
    }
}
