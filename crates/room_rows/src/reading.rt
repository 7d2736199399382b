//! A script is read line by line.

use crate::building::Builder;
use crate::row::Row;
use anyhow::{Context, Result};
use std::alloc::Global;

/// The rows of a script.
pub fn read_rows(alloc: Global, script: &str) -> Result<Vec<Row>> {
    let mut builder = Builder::new(alloc);
    for (place, line) in script.lines().enumerate() {
        builder
            .read(line)
            .context(format_args!("line {}", place.saturating_add(1)))?;
    }
    builder.finish()
}
