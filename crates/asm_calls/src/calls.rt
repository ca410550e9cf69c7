//! A line of the stored input: a call by its word, and what it is called with.

use crate::contents::{write_align, write_fill, write_run};
use crate::faults::write_faults;
use crate::frames::write_directives;
use crate::layouts::write_layout;
use crate::objects::write_object;
use crate::symbols::{write_assigned, write_instances};
use crate::unfailing::{write_endless, write_unfailing};
use asm_frags::FieldSize;
use layer_rows::{
    write_folded, write_form, write_messages, write_names, write_parsed, write_settled,
    write_shown, write_tokens, write_value,
};
use row_texts::{write_line, write_text};
use std::alloc::Global;
use std::io;

/// Whether it is a line that the input explains itself by.
fn is_comment(line: &str) -> bool {
    line.is_empty() || line.starts_with("#")
}

/// The number in front of the first blank, and what stands behind that.
fn number_and_rest(text: &str) -> Option<(u64, &str)> {
    let (number, rest) = text.split_once(' ')?;
    Some((number.parse::<u64>().ok()?, rest))
}

/// `parse INDEX TEXT`
fn call_parse(alloc: Global, text: &str, out: &mut Vec<u8>) -> io::Result<()> {
    match number_and_rest(text) {
        Some((at, text)) if at < 100 => write_parsed(alloc, at as usize, text, out),
        _ => write_line("no such call", out),
    }
}

/// `settled FIRST SECOND`
fn call_settled(alloc: Global, text: &str, out: &mut Vec<u8>) -> io::Result<()> {
    let Some((first, rest)) = number_and_rest(text) else {
        return write_line("no such call", out);
    };
    match rest.parse::<u64>() {
        Ok(second) => write_settled(alloc, first, second, out),
        Err(_) => write_line("no such call", out),
    }
}

/// Three numbers that blanks part.
fn three_numbers(text: &str) -> Option<(u64, u64, u64)> {
    let (first, rest) = number_and_rest(text)?;
    let (second, third) = number_and_rest(rest)?;
    Some((first, second, third.parse::<u64>().ok()?))
}

/// `fill COUNT SIZE VALUE`
fn call_fill(alloc: Global, text: &str, out: &mut Vec<u8>) -> io::Result<()> {
    match three_numbers(text) {
        Some((count, size, value)) => write_fill(alloc, count, size, value, out),
        None => write_line("no such call", out),
    }
}

/// `align LOG SIZE`
fn call_align(alloc: Global, text: &str, out: &mut Vec<u8>) -> io::Result<()> {
    let Some((log, rest)) = number_and_rest(text) else {
        return write_line("no such call", out);
    };
    match rest.parse::<u64>() {
        Ok(size) if log <= 30 => write_align(alloc, log as u8, size, out),
        _ => write_line("no such call", out),
    }
}

/// The field of so many bytes.
fn field_size(bytes: u64) -> Option<FieldSize> {
    match bytes {
        1 => Some(FieldSize::One),
        2 => Some(FieldSize::Two),
        4 => Some(FieldSize::Four),
        8 => Some(FieldSize::Eight),
        _ => None,
    }
}

/// `layout BYTES VALUE MORE`
fn call_layout(alloc: Global, text: &str, out: &mut Vec<u8>) -> io::Result<()> {
    let Some((bytes, value, more)) = three_numbers(text) else {
        return write_line("no such call", out);
    };
    match field_size(bytes) {
        Some(size) => write_layout(alloc, size, value, more, out),
        None => write_line("no such call", out),
    }
}

/// A call of what stands below expressions and beside them.
fn make_other_call(alloc: Global, call: &str, text: &str, out: &mut Vec<u8>) -> io::Result<()> {
    match call {
        "messages" => write_messages(alloc, out),
        "faults" => write_faults(out),
        "instances" => write_instances(alloc, out),
        "assigned" => write_assigned(alloc, out),
        "run" => write_run(alloc, out),
        "fill" => call_fill(alloc, text, out),
        "align" => call_align(alloc, text, out),
        "layout" => call_layout(alloc, text, out),
        "object" => write_object(alloc, text, out),
        "cfi" => write_directives(alloc, text, out),
        "unfailing" => write_unfailing(alloc, text, out),
        "endless" => write_endless(alloc, text, out),
        _ => write_line("no such call", out),
    }
}

/// Makes the call of this word with the text, and writes what it answers.
fn make_call(alloc: Global, call: &str, text: &str, out: &mut Vec<u8>) -> io::Result<()> {
    match call {
        "tokens" => write_tokens(alloc, text, out),
        "value" => write_value(alloc, text, out),
        "fold" => write_folded(alloc, text, out),
        "parse" => call_parse(alloc, text, out),
        "names" => write_names(alloc, text, out),
        "shown" => write_shown(alloc, text, out),
        "form" => write_form(alloc, text, out),
        "settled" => call_settled(alloc, text, out),
        _ => make_other_call(alloc, call, text, out),
    }
}

/// Writes the line, and what its call answers.
pub fn write_call(alloc: Global, line: &str, out: &mut Vec<u8>) -> io::Result<()> {
    if is_comment(line) {
        return Ok(());
    }
    write_text("$ ", out)?;
    write_line(line, out)?;
    match line.split_once(' ') {
        Some((call, text)) => make_call(alloc, call, text, out),
        None => make_call(alloc, line, "", out),
    }
}
