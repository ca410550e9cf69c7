//! The relocations of an object.

use crate::sections::RELOCATIONS;
use crate::symbols::SymbolTable;
use elf_file::{SectionHeader, relocation_at, section_bytes, section_header, section_name};
use row_texts::{relocation_type, shown_name};
use std::alloc::Global;
use std::io::{self, Write};

/// The bytes of an entry with its addend (gABI, figure 4-22).
const ENTRY_BYTES: usize = 24;

/// Writes an entry of a relocation section.
fn write_relocation(
    alloc: Global,
    symbols: &SymbolTable<'_>,
    section: &str,
    entries: &[u8],
    index: usize,
    out: &mut Vec<u8>,
) -> io::Result<()> {
    let Some(entry) = relocation_at(entries, index) else {
        return writeln!(out, "relocation {section} {index} is not readable");
    };
    let offset = entry.offset;
    let kind = relocation_type(entry.kind);
    let symbol = symbols.shown_name_at(alloc, entry.symbol as usize)?;
    let addend = entry.addend.cast_signed();
    writeln!(
        out,
        "relocation {section} {offset} {kind} {symbol} {addend}"
    )
}

/// Writes the entries of a relocation section.
fn write_entries(
    alloc: Global,
    file: &[u8],
    symbols: &SymbolTable<'_>,
    header: &SectionHeader,
    out: &mut Vec<u8>,
) -> io::Result<()> {
    let name = section_name(file, header.info as usize);
    let section = shown_name(alloc, name.unwrap_or(b"?"))?;
    let entries = section_bytes(file, header).unwrap_or(b"");
    for index in 0..entries.len() / ENTRY_BYTES {
        write_relocation(alloc, symbols, section.as_str(), entries, index, out)?;
    }
    Ok(())
}

/// Writes the relocations by section, in the order of the file.
pub fn write_relocations(
    alloc: Global,
    file: &[u8],
    symbols: &SymbolTable<'_>,
    count: usize,
    out: &mut Vec<u8>,
) -> io::Result<()> {
    for index in 0..count {
        match section_header(file, index) {
            Some(header) if header.kind == RELOCATIONS => {
                write_entries(alloc, file, symbols, &header, out)?
            }
            _ => {}
        }
    }
    Ok(())
}
