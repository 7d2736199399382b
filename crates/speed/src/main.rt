//! `speed WORK FOLDER ..` does a work on the files of a folder, for a script that times it:
//! `commit FOLDER UNITS FILES` labels cartridge 1 for data blocks of so many units and commits files
//! of 64 full data blocks to it; `open FOLDER` opens the journal; `decode`, `encode`, `read` and
//! `write FOLDER TIMES` decode and encode the change, or read and write the snapshot, in the file
//! `journal.0` so many times.
#![tactic(auto)]

mod committing;
mod files;
mod label;
mod opening;
mod texts;
mod words;

use crate::committing::commit_in;
use crate::opening::open_in;
use crate::texts::{Text, work_on};
use crate::words::word_at;
use std::process::ExitCode;

fn main(rt: HostRuntime) -> ExitCode {
    match measure(&rt) {
        Some(()) => ExitCode::SUCCESS,
        None => ExitCode::FAILURE,
    }
}

fn measure(rt: &HostRuntime) -> Option<()> {
    match word_at(rt, 1)?.as_str() {
        "commit" => commit_in(rt),
        "open" => open_in(rt),
        "decode" => work_on(rt, Text::Decoded),
        "encode" => work_on(rt, Text::Encoded),
        "read" => work_on(rt, Text::Read),
        "write" => work_on(rt, Text::Written),
        _ => None,
    }
}
