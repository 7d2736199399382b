//! Bytes that have a name in a script.

use anyhow::{Result, bail};
use std::alloc::Global;

#[derive(Drop)]
struct Named {
    name: String,
    bytes: Vec<u8>,
}

/// Bytes by their names.
#[derive(Drop)]
pub struct Names {
    all: Vec<Named>,
}

impl Names {
    pub fn new(alloc: Global) -> Names {
        Names {
            all: Vec::new(alloc),
        }
    }

    pub fn add(&mut self, alloc: Global, name: &str, bytes: Vec<u8>) -> Result<()> {
        let name = String::from_str(alloc, name)?;
        self.all.push(Named { name, bytes })?;
        Ok(())
    }

    /// The bytes that a text as `NAME`, `NAME FROM` or `NAME FROM TO` names.
    pub fn part(&self, text: &str) -> Result<&[u8]> {
        let mut words = text.split_whitespace();
        let bytes = self.bytes(words.next().unwrap_or(""))?;
        let from = words.next().unwrap_or("0").parse::<usize>()?;
        let to = match words.next() {
            Some(word) => word.parse::<usize>()?,
            None => bytes.len(),
        };
        match bytes.get(from..to) {
            Some(part) => Ok(part),
            None => bail!("no such part: {text}"),
        }
    }

    fn bytes(&self, name: &str) -> Result<&[u8]> {
        match self.all.iter().find(|it| it.name.as_str() == name) {
            Some(found) => Ok(found.bytes.as_slice()),
            None => bail!("no such name: {name}"),
        }
    }
}
