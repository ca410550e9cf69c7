//! The pieces of a line: texts, numbers and bytes. A caller of these is cheaper to prove than one of `write!`.

use std::fmt::Display;
use std::io::{self, Write};

/// Writes a text.
pub fn write_text(text: &str, out: &mut Vec<u8>) -> io::Result<()> {
    out.extend_from_slice(text.as_bytes())?;
    Ok(())
}

/// Writes a text, and ends the line.
pub fn write_line(text: &str, out: &mut Vec<u8>) -> io::Result<()> {
    out.extend_from_slice(text.as_bytes())?;
    out.push(b'\n')?;
    Ok(())
}

/// Writes a value as it is displayed, and ends the line.
pub fn write_displayed<T: Display>(value: &T, out: &mut Vec<u8>) -> io::Result<()> {
    writeln!(out, "{value}")
}

/// Writes a number in decimal.
pub fn write_number(number: u64, out: &mut Vec<u8>) -> io::Result<()> {
    write!(out, "{number}")
}

/// Writes a number in decimal and the text behind it, and ends the line.
pub fn write_count(number: u64, text: &str, out: &mut Vec<u8>) -> io::Result<()> {
    write_number(number, out)?;
    write_line(text, out)
}

/// Writes each byte in hexadecimal.
pub fn write_code(bytes: &[u8], out: &mut Vec<u8>) -> io::Result<()> {
    for byte in bytes {
        write!(out, "{byte:02x}")?;
    }
    Ok(())
}

/// Writes each byte in hexadecimal, with a blank before it.
pub fn write_spaced_code(bytes: &[u8], out: &mut Vec<u8>) -> io::Result<()> {
    for byte in bytes {
        write!(out, " {byte:02x}")?;
    }
    Ok(())
}
