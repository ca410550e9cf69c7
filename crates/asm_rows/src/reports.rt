//! What each row makes, as text.

use crate::calls::write_every_call;
use crate::frames::write_frames;
use crate::objects::{write_object, write_size};
use crate::runs::{failing_calls, memory_files, run_row};
use crate::shown_lines::write_line_table;
use asm_base::Channel;
use row_texts::{Row, RowFault, Shown, read_row, write_line, write_text};
use std::alloc::{AllocError, Global};
use std::io::{self, Write};

/// What a row's first line begins with.
const ROW_MARK: &[u8] = b"=== ";

/// Writes the lines that were said, each behind the mark. Behind the mark of a last line without a line feed stands a `~`.
fn write_said(said: &[u8], mark: &str, out: &mut Vec<u8>) -> io::Result<()> {
    for line in said.split_inclusive(|byte| *byte == b'\n') {
        match line.strip_suffix(b"\n") {
            Some(line) => {
                write_text(mark, out)?;
                write_text(" ", out)?;
                out.extend_from_slice(line)?;
            }
            None => {
                write_text(mark, out)?;
                write_text("~ ", out)?;
                out.extend_from_slice(line)?;
            }
        }
        write_line("", out)?;
    }
    Ok(())
}

/// Runs a row, and writes what it said and made.
fn write_row(alloc: Global, row: &Row, out: &mut Vec<u8>) -> io::Result<()> {
    let files = memory_files(alloc, &row.files)?;
    let failing = failing_calls(&row.failing);
    let ran = run_row(alloc, &row.words, &files, failing, row.pieces);
    let console = ran.console.inner();
    write_said(console.said(Channel::Err), "|", out)?;
    write_said(console.said(Channel::Out), ">", out)?;
    let status = ran.status;
    writeln!(out, "status {status:?}")?;
    let made = ran.output.inner();
    match row.shown {
        Shown::Object => write_object(alloc, made, false, out),
        Shown::FullObject => write_object(alloc, made, true, out),
        Shown::Frames => write_frames(made, out),
        Shown::LineTable => write_line_table(made, out),
        Shown::EveryCall => write_every_call(alloc, row, &files, &ran, out),
        Shown::Size => write_size(alloc, made, out),
    }
}

/// The first line without its line feed, and what stands behind it.
fn split_line(text: &[u8]) -> (&[u8], &[u8]) {
    match text.iter().position(|byte| *byte == b'\n') {
        Some(at) => (&text[..at], &text[at + 1..]),
        None => (text, &[]),
    }
}

/// Reads and runs a row, and writes its name and what it makes. No text is no row.
fn report_row(alloc: Global, text: &[u8], out: &mut Vec<u8>) -> io::Result<()> {
    if text.is_empty() {
        return Ok(());
    }
    let (name, lines) = split_line(text);
    out.extend_from_slice(name)?;
    write_line("", out)?;
    match read_row(alloc, lines) {
        Ok(row) => write_row(alloc, &row, out),
        Err(RowFault::NotUnderstood) => write_line("row not understood", out),
        Err(RowFault::NoMemory) => Err(io::Error::from(AllocError)),
    }
}

/// Reads and runs every row of the text. What stands before the first is not read.
pub fn report_rows(alloc: Global, text: &[u8], out: &mut Vec<u8>) -> io::Result<()> {
    let mut row = Vec::new(alloc);
    let lines = text.strip_suffix(b"\n").unwrap_or(text);
    for line in lines.split(|byte| *byte == b'\n') {
        if line.starts_with(ROW_MARK) {
            report_row(alloc, &row, out)?;
            row.clear();
        }
        if line.starts_with(ROW_MARK) || !row.is_empty() {
            row.extend_from_slice(line)?;
            row.push(b'\n')?;
        }
    }
    report_row(alloc, &row, out)
}
