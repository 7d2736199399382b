ghost use Rattle.std.specs.Prelude.{◌≡◌, ◌≤◌, false, [], ⊤, length, IfOk};
ghost use Rattle.std.specs.Io.KnownBytes.{ReadConsumes};
ghost use Rattle.room_base.specs.Faults.{HasCause};

use crate::calls::risen_count;
use crate::{Failed, Source};
use std::io::{ErrorKind, Read};

/// How often a read that was interrupted by a signal is tried again.
const TRIES: u32 = 64;

/// A reader of the system as a source, such as standard input. It tells nothing of its bytes.
#[derive(Drop)]
pub struct StdSource<R: Read> {
    reader: R,
    faults: u64,
}

impl<R: Read> StdSource<R> {
    pub fn new(reader: R) -> StdSource<R>
        ensures { result ≡ record { reader = reader; faults = 0 } }
    {
        StdSource { reader, faults: 0 }
    }
}

impl<R: Read> Source for StdSource<R> {
    ghost view = { λ source. record {
      tells = false;
      taken = [];
      left = [];
      faults = source.faults;
    } };

    ghost takes_alone = { λ _ _. ⊤ };

    ghost takes_none = { λ _. tt };

    ghost takes_then = { λ _ _ _ _ _. tt };

    fn take(&mut self, into: &mut [u8]) -> Result<u64, Failed>
        ensures within { IfOk result (λ count. count ≤ length into.old) }
        ensures cause { HasCause self.old.faults self.new.faults result }
        ensures given { ReadConsumes (R.remaining self.old.reader) (R.remaining self.new.reader)
            result into.new }
    {
        let read = read_some(&mut self.reader, into);
        if read.is_err() {
            self.faults = risen_count(self.faults);
        }
        read
    }
}

fn read_some<R: Read>(reader: &mut R, into: &mut [u8]) -> Result<u64, Failed>
    ensures within { IfOk result (λ count. count ≤ length into.old) }
    ensures given { ReadConsumes (R.remaining reader.old) (R.remaining reader.new) result into.new }
{
    for _ in 0..TRIES {
        match reader.read(into) {
            Ok(count) => return Ok(count as u64),
            Err(fault) if fault.kind() == ErrorKind::Interrupted => {}
            Err(_) => break,
        }
    }
    Err(Failed)
}
