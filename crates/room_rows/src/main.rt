//! `room_rows` plays rows of a script: each row begins with a blank disk in memory, runs the
//! commands of `room` on it, and prints what they answer. docs/rows.md says how a script is written.
//! It is for tests: what the rows are to print stands beside them.
#![tactic(auto)]

mod building;
mod escapes;
mod names;
mod pending;
mod playing;
mod reading;
mod replies;
mod row;

use anyhow::Result;
use room_base::{StdSink, write_all};
use std::io;

fn main(rt: HostRuntime) -> Result<()> {
    let alloc = rt.alloc();
    let script = io::read_to_string(alloc, rt.reader())?;
    let rows = reading::read_rows(alloc, script.as_str())?;
    let mut out = StdSink::new(rt.stdout());
    for row in &rows {
        let text = playing::play_row(alloc, row)?;
        if write_all(&mut out, &text).is_err() {
            anyhow::bail!("the output failed");
        }
    }
    Ok(())
}
