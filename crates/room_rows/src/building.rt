//! Rows are put together from the lines of a script.

use crate::escapes::bytes_of;
use crate::names::Names;
use crate::pending::Pending;
use crate::row::Row;
use anyhow::{Result, bail};
use std::alloc::Global;

/// Lines that have a name, by which rows use them.
#[derive(Drop)]
struct Block {
    name: String,
    lines: Vec<String>,
}

/// What was read of a script.
#[derive(Drop)]
pub struct Builder {
    alloc: Global,
    names: Names,
    blocks: Vec<Block>,
    in_block: bool,
    rows: Vec<Row>,
    pending: Option<Pending>,
}

impl Builder {
    pub fn new(alloc: Global) -> Builder {
        Builder {
            alloc,
            names: Names::new(alloc),
            blocks: Vec::new(alloc),
            in_block: false,
            rows: Vec::new(alloc),
            pending: None,
        }
    }

    /// The rows, behind the last line.
    pub fn finish(mut self) -> Result<Vec<Row>> {
        self.end_row()?;
        Ok(self.rows)
    }

    /// Reads a line.
    pub fn read(&mut self, line: &str) -> Result<()> {
        if line.is_empty() || line.starts_with('#') {
            return Ok(());
        }
        if self.in_block {
            return self.read_in_block(line);
        }
        let (word, rest) = line.split_once(' ').unwrap_or((line, ""));
        match word {
            "let" => self.name_bytes(rest),
            "each" => self.name_list(rest),
            "block" => self.begin_block(rest),
            "row" => self.begin_row(rest),
            "use" => self.use_block(rest),
            _ => match &mut self.pending {
                Some(pending) => pending.read(&self.names, word, rest),
                None => bail!("no row has begun"),
            },
        }
    }

    // `let NAME TEXT`
    fn name_bytes(&mut self, text: &str) -> Result<()> {
        let (name, text) = text.split_once(' ').unwrap_or((text, ""));
        let bytes = bytes_of(self.alloc, text, &self.names, 0)?;
        self.names.add(self.alloc, name, bytes)
    }

    // `each NAME COUNT TEXT`: the text so many times, with the numbers from 0.
    fn name_list(&mut self, text: &str) -> Result<()> {
        let (name, text) = text.split_once(' ').unwrap_or((text, ""));
        let (count, text) = text.split_once(' ').unwrap_or((text, ""));
        let mut bytes = Vec::new(self.alloc);
        for number in 0..count.parse::<u64>()? {
            let one = bytes_of(self.alloc, text, &self.names, number)?;
            bytes.extend_from_slice(&one)?;
        }
        self.names.add(self.alloc, name, bytes)
    }

    fn begin_block(&mut self, name: &str) -> Result<()> {
        self.blocks.push(Block {
            name: String::from_str(self.alloc, name)?,
            lines: Vec::new(self.alloc),
        })?;
        self.in_block = true;
        Ok(())
    }

    fn read_in_block(&mut self, line: &str) -> Result<()> {
        if line == "end" {
            self.in_block = false;
        } else if let Some(block) = self.blocks.last_mut() {
            block.lines.push(String::from_str(self.alloc, line)?)?;
        }
        Ok(())
    }

    fn begin_row(&mut self, name: &str) -> Result<()> {
        self.end_row()?;
        self.pending = Some(Pending::new(self.alloc, name)?);
        Ok(())
    }

    fn end_row(&mut self) -> Result<()> {
        if let Some(pending) = self.pending.take() {
            self.rows.push(pending.finish()?)?;
        }
        Ok(())
    }

    // Reads the lines of a block as those of the row.
    fn use_block(&mut self, name: &str) -> Result<()> {
        let Some(pending) = &mut self.pending else {
            bail!("no row has begun");
        };
        let Some(block) = self.blocks.iter().find(|it| it.name.as_str() == name) else {
            bail!("no such block: {name}");
        };
        for line in &block.lines {
            let (word, rest) = line.split_once(' ').unwrap_or((line.as_str(), ""));
            pending.read(&self.names, word, rest)?;
        }
        Ok(())
    }
}
