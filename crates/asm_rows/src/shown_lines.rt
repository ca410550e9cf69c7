//! The line table of an object, by its bytes.

use elf_file::{section_bytes, section_header, section_named};
use line_rows::{LineRow, line_at};
use memory_outside::MemoryOutput;
use row_texts::{write_line, write_number, write_text};
use std::io::{self, Write};

/// How many sequences are looked for, and at how many places of each.
const SEQUENCES: u32 = 4;

const PLACES: u64 = 256;

/// The bytes of the section of line tables.
fn line_table(file: &[u8]) -> Option<&[u8]> {
    let index = section_named(file, b".debug_line")?;
    section_bytes(file, &section_header(file, index)?)
}

/// Writes a word where it holds.
fn write_mark(holds: bool, word: &str, out: &mut Vec<u8>) -> io::Result<()> {
    if holds {
        write_text(" ", out)?;
        write_text(word, out)?;
    }
    Ok(())
}

/// Writes a row: file, line and column, and what else it says.
fn write_row(row: &LineRow, out: &mut Vec<u8>) -> io::Result<()> {
    let LineRow {
        file,
        line,
        column,
        is_stmt,
        isa,
        discriminator,
        ..
    } = *row;
    write!(out, "{file} {line} {column}")?;
    write_mark(is_stmt, "is_stmt", out)?;
    write!(out, " isa {isa} discriminator {discriminator}")?;
    write_mark(row.basic_block, "basic_block", out)?;
    write_mark(row.prologue_end, "prologue_end", out)?;
    write_mark(row.epilogue_begin, "epilogue_begin", out)
}

/// Writes the row of a sequence at the places where it changes.
fn write_sequence(table: &[u8], number: u32, out: &mut Vec<u8>) -> io::Result<()> {
    let mut before = None;
    for at in 0..PLACES {
        let row = line_at(table, number, at);
        if row != before {
            write_text("  ", out)?;
            write_number(u64::from(number), out)?;
            write_text(" +", out)?;
            write_number(at, out)?;
            write_text(": ", out)?;
            match row {
                Some(row) => write_row(&row, out)?,
                None => write_text("none", out)?,
            }
            write_line("", out)?;
        }
        before = row;
    }
    Ok(())
}

/// Writes the rows of the first sequences.
pub fn write_line_table(made: &MemoryOutput, out: &mut Vec<u8>) -> io::Result<()> {
    let Some(table) = line_table(made.bytes()) else {
        return write_line("no line table", out);
    };
    for number in 0..SEQUENCES {
        write_sequence(table, number, out)?;
    }
    Ok(())
}
