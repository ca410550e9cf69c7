//! The parts of the stored input: cases of layouts, entries of frame tables, functions, and calls.

use crate::calls::write_call;
use function_rows::write_function;
use layer_rows::{Case, write_entry};
use row_texts::write_line;
use std::alloc::Global;
use std::io;

/// What the lines of a part are.
#[derive(Clone, Copy)]
enum Part {
    Layouts,
    Frames,
    Functions,
    Calls,
}

/// The part that a line begins.
fn part_of(line: &str) -> Option<Part> {
    match line {
        "=== layouts" => Some(Part::Layouts),
        "=== frames" => Some(Part::Frames),
        "=== functions" => Some(Part::Functions),
        "=== calls" => Some(Part::Calls),
        _ => None,
    }
}

/// Takes a line of a part, and writes what it answers.
fn write_answer(
    alloc: Global,
    part: Part,
    line: &str,
    case: &mut Case,
    out: &mut Vec<u8>,
) -> io::Result<()> {
    match part {
        Part::Layouts => case.read_line(alloc, line, out),
        Part::Frames => write_entry(alloc, line, out),
        Part::Functions => write_function(alloc, line, out),
        Part::Calls => write_call(alloc, line, out),
    }
}

/// Takes the lines of all parts, and writes the line that begins each and what its lines answer.
fn write_lines(alloc: Global, text: &str, case: &mut Case, out: &mut Vec<u8>) -> io::Result<()> {
    let mut part = Part::Calls;
    for line in text.split('\n') {
        match part_of(line) {
            Some(next) => {
                case.end(alloc, &mut *out)?;
                write_line(line, &mut *out)?;
                part = next;
            }
            None => write_answer(alloc, part, line, &mut *case, &mut *out)?,
        }
    }
    case.end(alloc, out)
}

/// Writes what the parts of a text answer.
pub fn write_parts(alloc: Global, text: &str, out: &mut Vec<u8>) -> io::Result<()> {
    let mut case = Case::new(alloc);
    write_lines(alloc, text, &mut case, out)
}
