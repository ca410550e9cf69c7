//! Public calls that no program reaches, with ample memory, rows of layouts, of frame tables and of functions, and the rows of the assembler: what each line of the input answers is written.
#![tactic(auto)]

mod calls;
mod contents;
mod faults;
mod frames;
mod layouts;
mod made_sections;
mod objects;
mod outside;
mod parts;
mod symbols;
mod unfailing;

use asm_base::StreamConsole;
use asm_rows::report_rows;
use outside::{write_console, write_memory, write_real_file};
use parts::write_parts;
use row_texts::write_line;
use std::alloc::Global;
use std::io::{self, BufReader, Read, Write};
use std::str;
use std::test::Fail;

/// The line behind which the rows of the assembler stand.
const ROWS: &str = "=== rows\n";

/// Writes what the parts of the text answer, and answers the rows behind them.
fn rows_behind_parts<'a>(alloc: Global, text: &'a str, out: &mut Vec<u8>) -> io::Result<&'a str> {
    let (parts, rows) = text.split_once(ROWS).unwrap_or((text, ""));
    write_parts(alloc, parts, out)?;
    Ok(rows)
}

fn main(rt: HostRuntime) -> Result<(), Fail> {
    let alloc = rt.alloc();
    let mut text = Vec::new(alloc);
    BufReader::new(alloc, rt.reader())?.read_to_end(&mut text)?;
    let mut out = Vec::new(alloc);
    let rows = rows_behind_parts(alloc, str::from_utf8(&text)?, &mut out)?;
    write_real_file(&rt, alloc, &mut out)?;
    write_memory(alloc, &mut out)?;
    write_console(&mut StreamConsole::new(rt.stdout(), rt.stderr()), &mut out)?;
    write_line("=== rows", &mut out)?;
    report_rows(alloc, rows.as_bytes(), &mut out)?;
    io::writer(&rt).write_all(&out)?;
    Ok(())
}
