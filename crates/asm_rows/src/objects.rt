//! The object that a run left.

use crate::relocations::write_relocations;
use crate::sections::write_sections;
use crate::symbols::SymbolTable;
use elf_file::header_table;
use memory_outside::{MemoryOutput, Stage};
use row_texts::{shown_name, write_count, write_line, write_text};
use std::alloc::Global;
use std::io;

/// Writes what a finished file has: its sections, symbols and relocations.
fn write_contents(alloc: Global, file: &[u8], full: bool, out: &mut Vec<u8>) -> io::Result<()> {
    let (Some(table), Some(symbols)) = (header_table(file), SymbolTable::of(file)) else {
        return write_line("the object is not readable", out);
    };
    let count = usize::from(table.count);
    write_sections(alloc, file, count, full, out)?;
    symbols.write_symbols(alloc, out)?;
    write_relocations(alloc, file, &symbols, count, out)?;
    symbols.write_local_count(out)
}

/// Writes the name of what was made, and how many bytes it has, with a text between.
fn write_title(
    alloc: Global,
    made: &MemoryOutput,
    between: &str,
    out: &mut Vec<u8>,
) -> io::Result<()> {
    let name = shown_name(alloc, made.name().as_bytes())?;
    write_text("object ", out)?;
    write_text(name.as_str(), out)?;
    write_text(between, out)?;
    write_count(made.bytes().len() as u64, " bytes", out)
}

/// Writes what was made.
pub fn write_object(
    alloc: Global,
    made: &MemoryOutput,
    full: bool,
    out: &mut Vec<u8>,
) -> io::Result<()> {
    let bytes = made.bytes();
    match made.stage() {
        Stage::Nothing => write_line("object none", out),
        Stage::Begun => write_title(alloc, made, " begun ", out),
        Stage::Finished => {
            write_title(alloc, made, " ", out)?;
            write_contents(alloc, bytes, full, out)
        }
    }
}

/// Writes the name of what was made, and how many bytes it has.
pub fn write_size(alloc: Global, made: &MemoryOutput, out: &mut Vec<u8>) -> io::Result<()> {
    match made.stage() {
        Stage::Nothing => write_line("object none", out),
        Stage::Begun => write_title(alloc, made, " begun ", out),
        Stage::Finished => write_title(alloc, made, " ", out),
    }
}
