ghost use Rattle.std.specs.Prelude.{◌≡◌, ◌≤◌, ℕ, OnErr};
ghost use Rattle.room_base.specs.Faults.{Rose};
ghost use Rattle.room_disk.specs.Faults.{faults_on, no_faults, one_more_fault, counts_after};
ghost use Rattle.room_disk.specs.Faults.{HasRisen};

use room_base::{Failed, risen_count};
use std::marker::Model;

/// The number of files that have a count of their own: the journal's two and 256 cartridges.
const FILES: usize = 258;

/// How often calls on each file have failed. Files from 258 on share one count, so that none needs
/// memory.
#[derive(Drop)]
pub struct FaultCounts {
    counts: [u64; FILES + 1],
}

impl Model for FaultCounts {
    ghost use Rattle.std.specs.Prelude.{List, ℕ};

    ghost Value = { List ℕ };

    ghost view = { λ faults. faults.counts };
}

impl FaultCounts {
    pub fn new() -> FaultCounts
        ensures { result ≡ no_faults }
    {
        FaultCounts {
            counts: [0; FILES + 1],
        }
    }

    /// Counts one more fault of the file.
    pub fn rise(&mut self, file: u32)
        ensures exact { self.new ≡ one_more_fault file self.old }
        ensures risen { HasRisen file self.old self.new }
    {
        let count = &mut self.counts[(file as usize).min(FILES)];
        *count = risen_count(*count);
    }

    /// Counts one more fault of the file, where the answer is one.
    pub fn count<T>(&mut self, file: u32, answer: &Result<T, Failed>)
        ensures exact { self.new ≡ counts_after file answer.now self.old }
        ensures later { (other : ℕ) → faults_on self.old other ≤ faults_on self.new other }
        ensures rose { OnErr answer.now (Rose (faults_on self.old file) (faults_on self.new file)) }
    {
        if answer.is_err() {
            self.rise(file);
        }
    }
}
