//! The frame table of an object, by its bytes.

use cfi_entries::row_at;
use cfi_rows::{CfaRow, diff};
use elf_file::{section_bytes, section_header, section_named};
use layer_rows::write_row;
use memory_outside::MemoryOutput;
use row_texts::{write_count, write_line, write_number, write_text};
use std::io;

/// The word at a place of an entry.
fn word_at(entry: &[u8], at: usize) -> Option<u32> {
    let word = entry.get(at..)?.first_chunk::<4>()?;
    Some(u32::from_le_bytes(*word))
}

/// The first entry, whose length its first word says, and those behind it.
fn split_entry(table: &[u8]) -> Option<(&[u8], &[u8])> {
    let length = word_at(table, 0)?;
    table.split_at_checked((length as usize).checked_add(4)?)
}

/// Whether the row says the same as the one before it.
fn is_same(before: Option<CfaRow>, row: Option<CfaRow>) -> bool {
    match (before, row) {
        (Some(before), Some(row)) => diff(&before, &row).as_slice().is_empty(),
        (None, None) => true,
        _ => false,
    }
}

/// Writes the row of an entry at the places where it changes, from its beginning to the place behind its last one.
fn write_entry(common: &[u8], entry: &[u8], out: &mut Vec<u8>) -> io::Result<()> {
    let Some(range) = word_at(entry, 12) else {
        return write_line("no such entry", out);
    };
    write_text("entry of ", out)?;
    write_count(u64::from(range), " bytes", out)?;
    let mut before = None;
    for at in 0..=u64::from(range) {
        let row = row_at(common, entry, at);
        if !is_same(before, row) {
            write_text("  ", out)?;
            write_number(at, out)?;
            write_text(": ", out)?;
            match row {
                Some(row) => write_row(&row, out)?,
                None => write_text("none", out)?,
            }
            write_line("", out)?;
        }
        before = row;
    }
    Ok(())
}

/// The bytes of the section of frame tables.
fn frame_table(file: &[u8]) -> Option<&[u8]> {
    let index = section_named(file, b".eh_frame")?;
    section_bytes(file, &section_header(file, index)?)
}

/// Writes the rows of the entries behind the common one, which is the first.
pub fn write_frames(made: &MemoryOutput, out: &mut Vec<u8>) -> io::Result<()> {
    let Some((common, mut rest)) = frame_table(made.bytes()).and_then(split_entry) else {
        return write_line("no frame table", out);
    };
    // An entry has bytes.
    for _ in 0..rest.len() {
        let Some((entry, others)) = split_entry(rest) else {
            break;
        };
        write_entry(common, entry, out)?;
        rest = others;
    }
    Ok(())
}
