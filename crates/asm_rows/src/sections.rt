//! The sections of an object: their headers and their bytes.

use elf_file::{SectionHeader, section_bytes, section_header, section_name};
use row_texts::{
    section_flags, section_type, shown_name, write_bytes, write_count, write_line, write_number,
    write_text,
};
use std::alloc::Global;
use std::io::{self, Write};

/// The types of sections whose bytes are not shown (gABI, figure 4-9).
const SYMBOL_TABLE: u32 = 2;

const STRING_TABLE: u32 = 3;

pub const RELOCATIONS: u32 = 4;

const NO_BITS: u32 = 8;

/// Whether a section's bytes are shown.
fn has_shown_bytes(header: &SectionHeader) -> bool {
    !matches!(
        header.kind,
        SYMBOL_TABLE | STRING_TABLE | RELOCATIONS | NO_BITS
    )
}

/// Whether the section differs from those that stand in every object.
fn is_own(name: &[u8], header: &SectionHeader) -> bool {
    match name {
        b".symtab" | b".strtab" | b".shstrtab" => false,
        b".text" | b".data" | b".bss" => header.size != 0 || header.alignment != 1,
        _ => header.kind != RELOCATIONS,
    }
}

/// Writes a word, and the number behind it.
fn write_named(word: &str, number: u64, out: &mut Vec<u8>) -> io::Result<()> {
    write_text(word, out)?;
    write_number(number, out)
}

/// Writes that a section is not readable.
fn write_unreadable(index: usize, out: &mut Vec<u8>) -> io::Result<()> {
    write_text("section ", out)?;
    write_count(index as u64, " is not readable", out)
}

/// Writes the header's line: that of a full dump, or a short one.
fn write_header(
    alloc: Global,
    index: usize,
    name: &[u8],
    header: &SectionHeader,
    full: bool,
    out: &mut Vec<u8>,
) -> io::Result<()> {
    let name = shown_name(alloc, name)?;
    let kind = section_type(header.kind);
    let flags = section_flags(alloc, header.flags)?;
    let size = header.size;
    let alignment = header.alignment;
    let entry_size = header.entry_size;
    write!(out, "section {index} {name} {kind} {flags}")?;
    if full {
        let offset = header.offset;
        let link = header.link;
        let info = header.info;
        write_named(" offset ", offset, out)?;
        write_named(" size ", size, out)?;
        write_named(" link ", u64::from(link), out)?;
        write_named(" info ", u64::from(info), out)?;
        write_named(" align ", alignment, out)?;
        write_text(" entsize ", out)?;
        return write_count(entry_size, "", out);
    }
    write_named(" align ", alignment, out)?;
    write_named(" size ", size, out)?;
    if entry_size != 0 {
        write_named(" entsize ", entry_size, out)?;
    }
    write_line("", out)
}

/// Writes the section of this number, where it is shown.
fn write_section(
    alloc: Global,
    file: &[u8],
    index: usize,
    full: bool,
    out: &mut Vec<u8>,
) -> io::Result<()> {
    let (Some(header), Some(name)) = (section_header(file, index), section_name(file, index)) else {
        return write_unreadable(index, out);
    };
    if !full && (index == 0 || !is_own(name, &header)) {
        return Ok(());
    }
    write_header(alloc, index, name, &header, full, out)?;
    if !has_shown_bytes(&header) {
        return Ok(());
    }
    match section_bytes(file, &header) {
        Some(bytes) => write_bytes(bytes, out),
        None => write_unreadable(index, out),
    }
}

/// Writes the sections that differ from those of an empty object, or every section.
pub fn write_sections(
    alloc: Global,
    file: &[u8],
    count: usize,
    full: bool,
    out: &mut Vec<u8>,
) -> io::Result<()> {
    for index in 0..count {
        write_section(alloc, file, index, full, out)?;
    }
    Ok(())
}
