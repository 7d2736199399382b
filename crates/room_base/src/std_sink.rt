ghost use Rattle.std.specs.Prelude.{◌≡◌, ◌≤◌, ◌<◌, false, [], ⊤, length, IfOk};
ghost use Rattle.std.specs.Io.KnownBytes.{WriteAppends};
ghost use Rattle.room_base.specs.Faults.{HasCause};

use crate::calls::risen_count;
use crate::{Failed, Sink};
use std::io::{ErrorKind, Write};

/// How often a write that was interrupted by a signal is tried again.
const TRIES: u32 = 64;

/// A writer of the system as a sink, such as standard output. It tells nothing of its bytes, and
/// keeps none back: a writer that does so is to be flushed by its owner.
#[derive(Drop)]
pub struct StdSink<W: Write> {
    writer: W,
    faults: u64,
}

impl<W: Write> StdSink<W> {
    pub fn new(writer: W) -> StdSink<W>
        ensures { result ≡ record { writer = writer; faults = 0 } }
    {
        StdSink { writer, faults: 0 }
    }
}

impl<W: Write> Sink for StdSink<W> {
    ghost view = { λ sink. record { tells = false; written = []; faults = sink.faults } };

    ghost puts_alone = { λ _ _. ⊤ };

    ghost puts_none = { λ _. tt };

    ghost puts_then = { λ _ _ _ _ _. tt };

    fn put(&mut self, bytes: &[u8]) -> Result<u64, Failed>
        ensures within { IfOk result (λ count. count ≤ length bytes.now) }
        ensures some { 0 < length bytes.now → IfOk result (λ count. 0 < count) }
        ensures cause { HasCause self.old.faults self.new.faults result }
        ensures added { WriteAppends (W.contents self.old.writer) (W.contents self.new.writer)
            result bytes.now }
    {
        if bytes.is_empty() {
            return Ok(0);
        }
        let written = write_some(&mut self.writer, bytes);
        if written.is_err() {
            self.faults = risen_count(self.faults);
        }
        written
    }
}

fn write_some<W: Write>(writer: &mut W, bytes: &[u8]) -> Result<u64, Failed>
    ensures within { IfOk result (λ count. count ≤ length bytes.now) }
    ensures some { IfOk result (λ count. 0 < count) }
    ensures added { WriteAppends (W.contents writer.old) (W.contents writer.new) result bytes.now }
{
    for _ in 0..TRIES {
        match writer.write(bytes) {
            Ok(0) => break,
            Ok(count) => return Ok(count as u64),
            Err(fault) if fault.kind() == ErrorKind::Interrupted => {}
            Err(_) => break,
        }
    }
    Err(Failed)
}
