//! A case: lines of items, up to an empty line.

use crate::layouts::items::{Item, item_of};
use crate::layouts::rows::rows_of;
use crate::layouts::settled::write_settled;
use row_texts::write_line;
use std::alloc::{AllocError, Global};
use std::io;

/// The lines of a case so far.
#[derive(Drop)]
pub struct Case {
    items: Vec<Item>,
    /// Each line so far spells an item.
    understood: bool,
}

impl Case {
    /// A case without lines.
    pub fn new(alloc: Global) -> Case {
        Case {
            items: Vec::new(alloc),
            understood: true,
        }
    }

    /// Takes the line of an item.
    fn take(&mut self, line: &str) -> Result<(), AllocError> {
        match item_of(line) {
            Some(item) => self.items.push(item)?,
            None => self.understood = false,
        }
        Ok(())
    }

    /// Writes what the case settles to, and begins the next one.
    pub fn end(&mut self, alloc: Global, out: &mut Vec<u8>) -> io::Result<()> {
        let understood = self.understood;
        self.understood = true;
        if !understood {
            self.items.clear();
            return write_line("not understood", out);
        }
        if self.items.is_empty() {
            return Ok(());
        }
        let rows = rows_of(alloc, &self.items)?;
        self.items.clear();
        match rows {
            Some(rows) => write_settled(alloc, rows, out),
            None => write_line("a label is missing", out),
        }
    }

    /// Takes a line. An empty one ends the case, and one that begins with `#` is written as it stands.
    pub fn read_line(&mut self, alloc: Global, line: &str, out: &mut Vec<u8>) -> io::Result<()> {
        if line.is_empty() {
            return self.end(alloc, out);
        }
        if line.starts_with("#") {
            return write_line(line, out);
        }
        self.take(line)?;
        Ok(())
    }
}
