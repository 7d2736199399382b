//! A row is played.

use crate::escapes::show;
use crate::replies::add_replies;
use crate::row::{Failing, FaultKind, Row, Run, Step};
use anyhow::{Result, bail};
use room_base::{MemSink, MemSource, Moment, SetClock};
use room_disk::{MemStore, Store};
use room_run::{Status, run};
use sha2::{Digest, Sha256};
use std::alloc::Global;
use std::io::Write;

/// What a row prints.
pub fn play_row(alloc: Global, row: &Row) -> Result<Vec<u8>> {
    let mut text = Vec::new(alloc);
    let mut disk = disk_of(alloc, row)?;
    write!(text, "row {}\n", row.name)?;
    for step in &row.steps {
        disk = play_step(alloc, step, disk, &mut text)?;
    }
    Ok(text)
}

// The blank disk of a row, with the calls that are to fail.
fn disk_of(alloc: Global, row: &Row) -> Result<MemStore> {
    let none = Vec::new(alloc);
    let Some(fault) = &row.fault else {
        return Ok(MemStore::new(alloc, none, None));
    };
    let before = calls_before(alloc, row, fault.step, fault.input)?;
    match &fault.kind {
        FaultKind::Stops(calls) => {
            let stop = before.saturating_add(*calls);
            Ok(MemStore::new(alloc, none, Some(stop)))
        }
        FaultKind::Fails(numbers) => {
            let mut failing = Vec::new(alloc);
            for number in numbers {
                failing.push(before.saturating_add(*number))?;
            }
            Ok(MemStore::new(alloc, failing, None))
        }
    }
}

// How many calls of its disk a row makes up to a place in the input of one of its steps.
fn calls_before(alloc: Global, row: &Row, place: usize, input: usize) -> Result<u64> {
    let mut text = Vec::new(alloc);
    let mut disk = MemStore::new(alloc, Vec::new(alloc), None);
    for step in row.steps.iter().take(place) {
        disk = play_step(alloc, step, disk, &mut text)?;
    }
    if let Some(Step::Run(step)) = row.steps.get(place) {
        let front = step.input.get(..input).unwrap_or(&step.input);
        run_words(alloc, step, front, &mut disk, &mut text)?;
    }
    Ok(disk.calls())
}

fn play_step(
    alloc: Global,
    step: &Step,
    mut disk: MemStore,
    text: &mut Vec<u8>,
) -> Result<MemStore> {
    match step {
        Step::Run(step) => run_words(alloc, step, &step.input, &mut disk, text)?,
        Step::Files => add_files(alloc, &mut disk, text)?,
        Step::Write { file, at, bytes } => {
            if disk.write_at(*file, *at, bytes).is_err() || disk.sync(*file).is_err() {
                bail!("the bytes aren't written");
            }
        }
        Step::Crash { choice } => {
            let choice = *choice;
            if choice >= 4 {
                bail!("there are four choices of a crash");
            }
            write!(text, "crash {choice}\n")?;
            return Ok(disk.crashed(choice));
        }
    }
    Ok(disk)
}

// Runs a command, and adds its answer.
fn run_words(
    alloc: Global,
    step: &Run,
    input: &[u8],
    disk: &mut MemStore,
    text: &mut Vec<u8>,
) -> Result<()> {
    let Failing {
        input: taken,
        output,
        clock,
    } = &step.failing;
    let mut input = MemSource::new(input.to_vec(alloc)?, taken.to_vec(alloc)?);
    let mut out = MemSink::new(alloc, output.to_vec(alloc)?);
    let mut err = MemSink::new(alloc, Vec::new(alloc));
    let mut clock = clock_of(alloc, &step.moments, clock.to_vec(alloc)?)?;
    let status = run(
        alloc,
        &step.words,
        &mut input,
        &mut out,
        &mut err,
        disk,
        &mut clock,
    );
    add_answer(text, step, &status, out.bytes(), err.bytes())
}

// A clock that tells these moments, or else the one of the worked examples.
fn clock_of(alloc: Global, moments: &[Moment], failing: Vec<u64>) -> Result<SetClock> {
    let mut all = Vec::new(alloc);
    for moment in moments {
        all.push(*moment)?;
    }
    if all.is_empty() {
        all.push(Moment(1_700_000_000))?;
    }
    Ok(SetClock::new(all, failing))
}

fn add_answer(
    text: &mut Vec<u8>,
    step: &Run,
    status: &Status,
    out: &[u8],
    err: &[u8],
) -> Result<()> {
    text.extend_from_slice(b"run")?;
    for word in &step.words {
        write!(text, " {word}")?;
    }
    text.push(b'\n')?;
    match step.words.first() {
        Some(word) if word.as_str() == "desk" => add_replies(text, out)?,
        _ => add_line(text, b"out ", out)?,
    }
    add_line(text, b"err ", err)?;
    let number = status.number();
    write!(text, "status {number}\n")?;
    Ok(())
}

// Adds bytes as a line, where there are any.
fn add_line(text: &mut Vec<u8>, name: &[u8], bytes: &[u8]) -> Result<()> {
    if !bytes.is_empty() {
        text.extend_from_slice(name)?;
        show(text, bytes)?;
        text.push(b'\n')?;
    }
    Ok(())
}

/// The number of the last file of a disk: the one of cartridge 256.
const LAST_FILE: u32 = 257;

fn add_files(alloc: Global, disk: &mut MemStore, text: &mut Vec<u8>) -> Result<()> {
    for file in 0..=LAST_FILE {
        let bytes = bytes_of(alloc, disk, file)?;
        if !bytes.is_empty() {
            let length = bytes.len();
            let digest = hex::encode(alloc, Sha256::digest(&bytes).as_slice())?;
            write!(text, "file {file} {length} {digest}\n")?;
        }
    }
    Ok(())
}

fn bytes_of(alloc: Global, disk: &mut MemStore, file: u32) -> Result<Vec<u8>> {
    let Ok(length) = disk.len(file) else {
        bail!("the disk has stopped");
    };
    let mut bytes = vec![in alloc; 0; usize::try_from(length)?]?;
    if disk.read_at(file, 0, &mut bytes).is_err() {
        bail!("the disk has stopped");
    }
    Ok(bytes)
}
