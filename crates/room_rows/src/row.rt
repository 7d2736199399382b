//! Rows as they are played.

use room_base::Moment;

/// A row: what is done one after the other on a disk that is blank at first.
#[derive(Drop)]
pub struct Row {
    pub name: String,
    pub steps: Vec<Step>,
    pub fault: Option<Fault>,
}

#[derive(Drop)]
pub enum Step {
    /// The command that the words ask for runs, and its answer is printed.
    Run(Run),
    /// The disk becomes one that a crash may leave now.
    Crash { choice: u8 },
    /// The length and the SHA-256 of each file that isn't empty are printed.
    Files,
    /// Bytes are written into a file, and synced.
    Write { file: u32, at: u64, bytes: Vec<u8> },
}

/// A command with its input, the moments that the clock tells, and the calls of the input, the
/// output and the clock that fail.
#[derive(Drop)]
pub struct Run {
    pub words: Vec<String>,
    pub input: Vec<u8>,
    pub moments: Vec<Moment>,
    pub failing: Failing,
}

/// The numbers of the calls that fail, counted from 1.
#[derive(Drop)]
pub struct Failing {
    pub input: Vec<u64>,
    pub output: Vec<u64>,
    pub clock: Vec<u64>,
}

/// Where calls of the disk fail: behind so much of a step's input was taken, counted from there.
#[derive(Drop)]
pub struct Fault {
    pub step: usize,
    pub input: usize,
    pub kind: FaultKind,
}

#[derive(Drop)]
pub enum FaultKind {
    /// The calls with these numbers fail.
    Fails(Vec<u64>),
    /// Behind so many calls each one fails.
    Stops(u64),
}
