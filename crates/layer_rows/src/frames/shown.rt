//! Rows as text, as `readelf -wF` shows them, with registers by their DWARF numbers.

use cfi_entries::op_bytes;
use cfi_rows::{CfaRow, Rule, diff};
use row_texts::{write_code, write_number, write_text};
use std::io::{self, Write};

/// The letter of a rule.
fn letter(rule: Rule) -> &'static str {
    match rule {
        Rule::Unspecified => "-",
        Rule::Undefined => "u",
        Rule::SameValue => "s",
        Rule::Offset(_) => "c",
        Rule::ValueOffset(_) => "v",
        Rule::Register(_) => "r",
    }
}

/// Writes the rule of a register, with a space before it.
fn write_rule(number: usize, rule: Rule, out: &mut Vec<u8>) -> io::Result<()> {
    write!(out, " r{number}={}", letter(rule))?;
    let offset = match rule {
        Rule::Offset(offset) | Rule::ValueOffset(offset) => offset,
        Rule::Register(other) => return write_number(u64::from(other), out),
        _ => return Ok(()),
    };
    write!(out, "{offset:+}")
}

/// Writes the CFA and the rules of a row.
pub fn write_row(row: &CfaRow, out: &mut Vec<u8>) -> io::Result<()> {
    write!(out, "r{}{:+}", row.register, row.offset)?;
    for (number, rule) in row.rules.iter().enumerate() {
        if *rule != Rule::Unspecified {
            write_rule(number, *rule, out)?;
        }
    }
    Ok(())
}

/// Writes the instructions that lead from one row to another, in hexadecimal.
pub fn write_differences(from: &CfaRow, to: &CfaRow, out: &mut Vec<u8>) -> io::Result<()> {
    for op in diff(from, to).as_slice() {
        match op_bytes(*op) {
            Some(bytes) => {
                write_text(" ", out)?;
                write_code(bytes.as_slice(), out)?;
            }
            None => write_text(" no form", out)?,
        }
    }
    Ok(())
}
