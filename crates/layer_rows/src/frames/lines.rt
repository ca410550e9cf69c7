//! A line of an entry: instructions in hexadecimal, the range, and places, with a space before each but the first.

use crate::frames::entries::{COMMON, entry_bytes};
use crate::frames::shown::{write_differences, write_row};
use cfi_entries::{common_row, row_at};
use cfi_rows::CfaRow;
use row_texts::{write_line, write_number, write_text};
use std::alloc::Global;
use std::io;

/// Writes the row at a place, where the entry has one, and what leads to it from the one before. Answers the last row.
fn write_place(fde: &[u8], at: u64, before: CfaRow, out: &mut Vec<u8>) -> io::Result<CfaRow> {
    write_number(at, out)?;
    let Some(row) = row_at(&COMMON, fde, at) else {
        write_line(": none", out)?;
        return Ok(before);
    };
    write_text(": ", out)?;
    write_row(&row, out)?;
    write_text(";", out)?;
    write_differences(&before, &row, out)?;
    write_line("", out)?;
    Ok(row)
}

/// Writes the row at each place of an entry.
fn write_places(fde: &[u8], places: &str, out: &mut Vec<u8>) -> io::Result<()> {
    let mut before = common_row();
    for place in places.split(' ') {
        match place.parse::<u64>() {
            Ok(at) => before = write_place(fde, at, before, out)?,
            Err(_) => write_line("no such place", out)?,
        }
    }
    Ok(())
}

/// The bytes of a line's entry, and its places.
fn entry_of(alloc: Global, line: &str) -> Option<(Vec<u8>, &str)> {
    let (code, rest) = line.split_once(' ')?;
    let (range, places) = rest.split_once(' ')?;
    let code = hex::decode(alloc, code).ok()?;
    let range = range.parse::<u32>().ok()?;
    Some((entry_bytes(alloc, &code, range)?, places))
}

/// Writes the rows of a line's entry. A line that begins with `#` is written as it stands.
pub fn write_entry(alloc: Global, line: &str, out: &mut Vec<u8>) -> io::Result<()> {
    if line.starts_with("#") {
        return write_line(line, out);
    }
    if line.is_empty() {
        return Ok(());
    }
    match entry_of(alloc, line) {
        Some((fde, places)) => write_places(&fde, places, out),
        None => write_line("no such entry", out),
    }
}
