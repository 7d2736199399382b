ghost use Rattle.std.specs.Prelude.{◌≡◌, ◌≤◌, ◌↔◌, [], length, min, take, IfOk, IsErr};
ghost use Rattle.room_base.specs.Faults.{HasCause};
ghost use Rattle.room_base.specs.Outside.{TakesBytes};
ghost use Rattle.room_base.specs.Calls.{FailsNext, called, faults_after, told_source};

use crate::calls::{CallCount, risen_count};
use crate::{Failed, Source};
use std::marker::Model;

/// A source in memory, whose listed calls fail.
#[derive(Drop)]
pub struct MemSource {
    bytes: Vec<u8>,
    at: usize,
    calls: CallCount,
    faults: u64,
}

impl Model for MemSource {
    ghost use Rattle.std.specs.Prelude.{◌≤◌, take, drop, vec_len};
    ghost use Rattle.room_base.specs.Calls.{SourceInMemory};

    ghost Value = { SourceInMemory };

    ghost view = { λ source. record {
      taken = take source.at source.bytes.items;
      left = drop source.at source.bytes.items;
      calls = source.calls;
      faults = source.faults;
    } };

    ghost invariant = { λ source. source.at ≤ vec_len source.bytes };
}

impl MemSource {
    /// `failing` holds the numbers of the calls that are to fail, counted from 1.
    pub fn new(bytes: Vec<u8>, failing: Vec<u64>) -> MemSource
        ensures { result ≡ record {
          taken = [];
          left = bytes.items;
          calls = record { failing = failing.items; made = 0 };
          faults = 0;
        } }
    {
        MemSource {
            bytes,
            at: 0,
            calls: CallCount::new(failing),
            faults: 0,
        }
    }
}

impl Source for MemSource {
    ghost use Rattle.std.specs.Prelude.{⊤};

    ghost view = { told_source };

    ghost takes_alone = { λ _ _. ⊤ };

    ghost takes_none = { λ _. tt };

    ghost takes_then = { λ _ _ _ _ _. tt };

    fn take(&mut self, into: &mut [u8]) -> Result<u64, Failed>
        ensures within { IfOk result (λ count. count ≤ length into.old) }
        ensures cause { HasCause self.old.faults self.new.faults result }
        ensures moved { TakesBytes (told_source self.old) (told_source self.new) into.new result }
        ensures fails { IsErr result ↔ FailsNext self.old.calls }
        ensures calls { self.new.calls ≡ called self.old.calls }
        ensures faults { self.new.faults ≡ faults_after result self.old.faults }
    {
        if self.calls.next_fails() {
            self.faults = risen_count(self.faults);
            return Err(Failed);
        }
        let (_, left) = self.bytes.as_slice().split_at(self.at);
        let count = copy_front(left, into);
        self.at += count;
        Ok(count as u64)
    }
}

// Copies as much as fits, and says how much that is.
fn copy_front(from: &[u8], into: &mut [u8]) -> usize
    ensures count { result ≡ min (length from.now) (length into.new) }
    ensures copied { take result into.new ≡ take result from.now }
{
    let count = from.len().min(into.len());
    into[..count].copy_from_slice(&from[..count]);
    count
}
