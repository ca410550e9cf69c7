//! Bytes as lines of hexadecimal.

use crate::pieces::{write_line, write_spaced_code, write_text};
use std::io::{self, Write};

/// How many bytes stand on a line.
const LINE_BYTES: usize = 16;

/// So many equal bytes or more are one line.
const EQUAL_BYTES: usize = 32;

/// How many bytes at the beginning equal the first.
fn equal_bytes(bytes: &[u8], first: u8) -> usize {
    for (i, byte) in bytes.iter().enumerate() {
        if *byte != first {
            return i;
        }
    }
    bytes.len()
}

/// Writes one line, and answers how many bytes it shows.
fn write_bytes_line(bytes: &[u8], first: u8, out: &mut Vec<u8>) -> io::Result<usize> {
    let equal = equal_bytes(bytes, first);
    if equal >= EQUAL_BYTES {
        writeln!(out, "  {first:02x} * {equal}")?;
        return Ok(equal);
    }
    let shown = &bytes[..bytes.len().min(LINE_BYTES)];
    write_text(" ", out)?;
    write_spaced_code(shown, out)?;
    write_line("", out)?;
    Ok(LINE_BYTES)
}

/// Writes the bytes, 16 a line. Equal bytes that stand together from the beginning of a line on are one line.
pub fn write_bytes(bytes: &[u8], out: &mut Vec<u8>) -> io::Result<()> {
    let mut next = 0;
    for (i, first) in bytes.iter().enumerate() {
        if i == next {
            next = i.saturating_add(write_bytes_line(&bytes[i..], *first, out)?);
        }
    }
    Ok(())
}
