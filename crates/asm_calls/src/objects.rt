//! The objects that sections made by hand come to.

ghost use Rattle.asm_relax.specs.declared.plan_states.PlanState.TheVariants.{LaidOut};

use crate::layouts::{settled_plan, write_settled};
use crate::made_sections::{Made, put_words};
use asm_base::Output;
use asm_frags::{Laid, Sections};
use asm_relax::Plan;
use asm_symbols::Symbols;
use elf_file::{relocation_at, section_bytes, section_header, section_named};
use elf_object::Object;
use memory_outside::MemoryOutput;
use row_texts::{write_displayed, write_line, write_number, write_spaced_code, write_text};
use std::alloc::Global;
use std::io::{self, Write};
use std::marker::Brand;
use std::sync::ledger::Blank;

/// The bytes of this section of an object.
fn bytes_named<'a>(file: &'a [u8], name: &[u8]) -> Option<&'a [u8]> {
    let index = section_named(file, name)?;
    let header = section_header(file, index)?;
    section_bytes(file, &header)
}

/// How many bytes there are, and all of them, or the first 10 and the last 6.
fn write_bytes(bytes: &[u8], out: &mut Vec<u8>) -> io::Result<()> {
    let count = bytes.len();
    write_number(count as u64, out)?;
    write_text(" bytes:", out)?;
    if count <= 16 {
        write_spaced_code(bytes, out)?;
    } else {
        write_spaced_code(&bytes[..10], out)?;
        write_text(" ..", out)?;
        write_spaced_code(&bytes[count - 6..], out)?;
    }
    write_line("", out)
}

/// The entries of relocations.
fn write_relocations(entries: &[u8], out: &mut Vec<u8>) -> io::Result<()> {
    for index in 0..entries.len() / 24 {
        if let Some(entry) = relocation_at(entries, index) {
            let offset = entry.offset;
            let kind = entry.kind;
            let symbol = entry.symbol;
            let addend = entry.addend.cast_signed();
            writeln!(out, "type {kind} at {offset}, symbol {symbol}, {addend}")?;
        }
    }
    Ok(())
}

/// The bytes and the relocations of `.text`.
fn write_file(file: &[u8], out: &mut Vec<u8>) -> io::Result<()> {
    if let Some(bytes) = bytes_named(file, b".text") {
        write_bytes(bytes, out)?;
    }
    if let Some(entries) = bytes_named(file, b".rela.text") {
        write_relocations(entries, out)?;
    }
    Ok(())
}

/// The object of laid out sections, or its fault.
fn write_object_of(
    alloc: Global,
    laid: Sections<Laid>,
    symbols: &Symbols,
    out: &mut Vec<u8>,
) -> io::Result<()> {
    let object = match Object::new(alloc, laid, symbols) {
        Ok(object) => object,
        Err(fault) => return write_displayed(&fault, out),
    };
    let mut file = MemoryOutput::new(alloc);
    if file.create("made.o").is_err() || object.write_to(&mut file).is_err() {
        return write_line("not written", out);
    }
    write_file(file.bytes(), out)
}

/// The object of sections and symbols, or the fault of their layout.
fn write_laid(
    alloc: Global,
    sections: Sections,
    symbols: &Symbols,
    out: &mut Vec<u8>,
) -> io::Result<()> {
    let Ok(mut plan) = Plan::new(alloc, sections, symbols) else {
        return write_line("no memory", out);
    };
    match settled_plan::<Brand>(&mut plan, Blank::new(1)) {
        Ok(settled) => {
            write_settled(Ok(settled), out)?;
            write_object_of(alloc, plan.laid(), symbols, out)
        }
        Err(fault) => write_settled(Err(fault), out),
    }
}

/// The object of the sections of these words, if they are such.
fn write_sections(
    alloc: Global,
    sections: Sections,
    words: &str,
    out: &mut Vec<u8>,
) -> io::Result<()> {
    let mut sections = sections;
    let mut symbols = Symbols::new(alloc);
    let mut made = Made {
        alloc,
        sections: &mut sections,
        symbols: &mut symbols,
    };
    match put_words(&mut made, words) {
        Some(()) => write_laid(alloc, sections, &symbols, out),
        None => write_line("no such call", out),
    }
}

/// `object WORDS`: the rounds of the layout of `.text`, its bytes and its relocations, or the first fault.
pub fn write_object(alloc: Global, words: &str, out: &mut Vec<u8>) -> io::Result<()> {
    match Sections::new(alloc) {
        Ok(sections) => write_sections(alloc, sections, words, out),
        Err(_) => write_line("no such call", out),
    }
}
