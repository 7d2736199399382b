//! A row whose lines are being read.

use crate::escapes::bytes_of;
use crate::names::Names;
use crate::row::{Failing, Fault, FaultKind, Row, Run, Step};
use anyhow::{Result, bail};
use room_base::Moment;
use std::alloc::{AllocError, Global};
use std::io::Write;
use std::mem;

/// The steps that are whole, and the input of the next command.
#[derive(Drop)]
pub struct Pending {
    alloc: Global,
    row: Row,
    input: Vec<u8>,
    moments: Vec<Moment>,
    failing: Failing,
}

impl Pending {
    pub fn new(alloc: Global, name: &str) -> Result<Pending, AllocError> {
        Ok(Pending {
            alloc,
            row: Row {
                name: String::from_str(alloc, name)?,
                steps: Vec::new(alloc),
                fault: None,
            },
            input: Vec::new(alloc),
            moments: Vec::new(alloc),
            failing: no_calls(alloc),
        })
    }

    pub fn finish(self) -> Result<Row> {
        if !self.input.is_empty() {
            bail!("no command takes the last input");
        }
        Ok(self.row)
    }

    /// Reads a line of the row.
    pub fn read(&mut self, names: &Names, word: &str, rest: &str) -> Result<()> {
        match word {
            ">" => self.add_request(names, rest),
            "raw" => self.add_input(names, rest),
            "run" => self.add_run(rest),
            "clock" => self.set_clock(rest),
            "fail" => self.set_failing(rest),
            "stop" => self.set_stop(rest),
            "input-fails" => numbers_into(rest, &mut self.failing.input),
            "output-fails" => numbers_into(rest, &mut self.failing.output),
            "clock-fails" => numbers_into(rest, &mut self.failing.clock),
            "crash" => self.add_crash(rest),
            "files" => self.add_files(),
            "write" => self.add_write(names, rest),
            _ => bail!("no such line: {word}"),
        }
    }

    // `> METHOD TARGET BODY`: a request with the length of its body.
    fn add_request(&mut self, names: &Names, text: &str) -> Result<()> {
        let (method, text) = text.split_once(' ').unwrap_or((text, ""));
        let (target, body) = text.split_once(' ').unwrap_or((text, ""));
        let body = bytes_of(self.alloc, body, names, 0)?;
        let length = body.len();
        write!(
            self.input,
            "{method} {target} HTTP/1.1\r\nContent-Length: {length}\r\n\r\n"
        )?;
        self.input.extend_from_slice(&body)?;
        Ok(())
    }

    fn add_input(&mut self, names: &Names, text: &str) -> Result<()> {
        let bytes = bytes_of(self.alloc, text, names, 0)?;
        self.input.extend_from_slice(&bytes)?;
        Ok(())
    }

    fn add_run(&mut self, text: &str) -> Result<()> {
        let mut words = Vec::new(self.alloc);
        for word in text.split_whitespace() {
            words.push(String::from_str(self.alloc, word)?)?;
        }
        let mut moments = Vec::new(self.alloc);
        moments.extend_from_slice(&self.moments)?;
        let run = Run {
            words,
            input: mem::replace(&mut self.input, Vec::new(self.alloc)),
            moments,
            failing: mem::replace(&mut self.failing, no_calls(self.alloc)),
        };
        self.row.steps.push(Step::Run(run))?;
        Ok(())
    }

    // `clock MOMENT ..`: what the clock tells from the next command on, one after the other.
    fn set_clock(&mut self, text: &str) -> Result<()> {
        let mut moments = Vec::new(self.alloc);
        for word in text.split_whitespace() {
            moments.push(Moment(word.parse::<u64>()?))?;
        }
        self.moments = moments;
        Ok(())
    }

    // `fail NUMBER ..`: these calls of the disk fail, counted from what was asked so far.
    fn set_failing(&mut self, text: &str) -> Result<()> {
        let mut numbers = Vec::new(self.alloc);
        numbers_into(text, &mut numbers)?;
        self.set_fault(FaultKind::Fails(numbers))
    }

    // `stop NUMBER`: so many calls behind what was asked so far, the disk stops.
    fn set_stop(&mut self, text: &str) -> Result<()> {
        self.set_fault(FaultKind::Stops(text.parse::<u64>()?))
    }

    fn set_fault(&mut self, kind: FaultKind) -> Result<()> {
        if self.row.fault.is_some() {
            bail!("a row has one fault");
        }
        self.row.fault = Some(Fault {
            step: self.row.steps.len(),
            input: self.input.len(),
            kind,
        });
        Ok(())
    }

    fn add_crash(&mut self, text: &str) -> Result<()> {
        let choice = text.parse::<u8>()?;
        self.row.steps.push(Step::Crash { choice })?;
        Ok(())
    }

    fn add_files(&mut self) -> Result<()> {
        self.row.steps.push(Step::Files)?;
        Ok(())
    }

    // `write FILE PLACE BYTES`
    fn add_write(&mut self, names: &Names, text: &str) -> Result<()> {
        let (file, text) = text.split_once(' ').unwrap_or((text, ""));
        let (at, text) = text.split_once(' ').unwrap_or((text, ""));
        let write = Step::Write {
            file: file.parse::<u32>()?,
            at: at.parse::<u64>()?,
            bytes: bytes_of(self.alloc, text, names, 0)?,
        };
        self.row.steps.push(write)?;
        Ok(())
    }
}

fn no_calls(alloc: Global) -> Failing {
    Failing {
        input: Vec::new(alloc),
        output: Vec::new(alloc),
        clock: Vec::new(alloc),
    }
}

fn numbers_into(text: &str, numbers: &mut Vec<u64>) -> Result<()> {
    for word in text.split_whitespace() {
        numbers.push(word.parse::<u64>()?)?;
    }
    Ok(())
}
