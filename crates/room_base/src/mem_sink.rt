ghost use Rattle.std.specs.Prelude.{◌≡◌, ◌≤◌, ◌<◌, ◌++◌, [], length, IfOk, OnErr};
ghost use Rattle.room_base.specs.Faults.{HasCause};
ghost use Rattle.room_base.specs.Outside.{Puts};
ghost use Rattle.room_base.specs.Calls.{FailsAsListed, called, faults_after};

use crate::calls::{CallCount, risen_count};
use crate::{Failed, Sink};
use std::alloc::Global;
use std::marker::Model;

/// A sink in memory, whose listed calls fail. A piece for which it finds no memory is a fault of it
/// too, which `short` counts apart.
#[derive(Drop)]
pub struct MemSink {
    bytes: Vec<u8>,
    calls: CallCount,
    faults: u64,
    short: u64,
}

impl Model for MemSink {
    ghost use Rattle.room_base.specs.Calls.{SinkInMemory};

    ghost Value = { SinkInMemory };

    ghost view = { λ sink. record {
      written = sink.bytes.items;
      calls = sink.calls;
      faults = sink.faults;
      short = sink.short;
    } };
}

impl MemSink {
    /// `failing` holds the numbers of the calls that are to fail, counted from 1.
    pub fn new(alloc: Global, failing: Vec<u64>) -> MemSink
        ensures { result ≡ record {
          written = [];
          calls = record { failing = failing.items; made = 0 };
          faults = 0;
          short = 0;
        } }
    {
        MemSink {
            bytes: Vec::new(alloc),
            calls: CallCount::new(failing),
            faults: 0,
            short: 0,
        }
    }

    /// The bytes written so far.
    pub fn bytes(&self) -> &[u8]
        ensures { result.now ≡ self.now.written }
    {
        self.bytes.as_slice()
    }

    /// How many calls failed for want of memory.
    pub fn short(&self) -> u64
        ensures { result ≡ self.now.short }
    {
        self.short
    }
}

impl Sink for MemSink {
    ghost use Rattle.std.specs.Prelude.{⊤};
    ghost use Rattle.room_base.specs.Calls.{told_sink};

    ghost view = { told_sink };

    ghost puts_alone = { λ _ _. ⊤ };

    ghost puts_none = { λ _. tt };

    ghost puts_then = { λ _ _ _ _ _. tt };

    fn put(&mut self, bytes: &[u8]) -> Result<u64, Failed>
        ensures whole { IfOk result (λ count. count ≡ length bytes.now) }
        ensures cause { HasCause self.old.faults self.new.faults result }
        ensures added { IfOk result (λ _. self.new.written ≡ self.old.written ++ bytes.now) }
        ensures kept { OnErr result (self.new.written ≡ self.old.written) }
        ensures fails { FailsAsListed self.old.calls self.old.short self.new.short result }
        ensures calls { self.new.calls ≡ called self.old.calls }
        ensures faults { self.new.faults ≡ faults_after result self.old.faults }
    {
        if self.calls.next_fails() {
            self.faults = risen_count(self.faults);
            return Err(Failed);
        }
        if self.bytes.extend_from_slice(bytes).is_err() {
            self.faults = risen_count(self.faults);
            self.short = risen_count(self.short);
            return Err(Failed);
        }
        Ok(bytes.len() as u64)
    }
}
