//! The symbols of an object.

use elf_file::{
    SectionHeader, SymbolRecord, section_bytes, section_header, section_name, section_named,
    symbol_at, text_at,
};
use row_texts::{
    shown_name, symbol_binding, symbol_type, symbol_visibility, write_count, write_text,
};
use std::alloc::{AllocError, Global};
use std::io::{self, Write};

/// The bytes of a symbol table's entry (gABI, figure 4-16).
const SYMBOL_BYTES: usize = 24;

/// The type of a section's symbol.
const SECTION_TYPE: u8 = 3;

/// The symbol table of an object, with its names.
#[derive(Clone, Copy)]
pub struct SymbolTable<'a> {
    file: &'a [u8],
    entries: &'a [u8],
    names: &'a [u8],
    /// The number of the first symbol that is not local.
    locals: u32,
}

impl<'a> SymbolTable<'a> {
    /// The table of the object.
    pub fn of(file: &'a [u8]) -> Option<SymbolTable<'a>> {
        let header = section_header(file, section_named(file, b".symtab")?)?;
        let names = section_header(file, header.link as usize)?;
        Some(SymbolTable {
            file,
            entries: section_bytes(file, &header)?,
            names: section_bytes(file, &names)?,
            locals: header.info,
        })
    }

    /// The name of a symbol; that of its section for a section's symbol.
    fn name_of(&self, symbol: &SymbolRecord) -> Option<&'a [u8]> {
        if symbol.info & 15 == SECTION_TYPE {
            section_name(self.file, usize::from(symbol.section))
        } else {
            text_at(self.names, symbol.name as usize)
        }
    }

    /// The name of the symbol of this number as it is shown.
    pub fn shown_name_at(&self, alloc: Global, index: usize) -> Result<String, AllocError> {
        let name = match symbol_at(self.entries, index) {
            Some(symbol) => self.name_of(&symbol),
            None => None,
        };
        shown_name(alloc, name.unwrap_or(b"?"))
    }

    /// Where a symbol stands (gABI, figure 4-8).
    fn shown_section(&self, alloc: Global, section: u16) -> Result<String, AllocError> {
        match section {
            0 => String::from_str(alloc, "undefined"),
            0xfff1 => String::from_str(alloc, "absolute"),
            0xfff2 => String::from_str(alloc, "common"),
            _ => {
                let name = section_name(self.file, usize::from(section));
                shown_name(alloc, name.unwrap_or(b"?"))
            }
        }
    }

    /// Writes the symbol of this number.
    fn write_symbol(&self, alloc: Global, index: usize, out: &mut Vec<u8>) -> io::Result<()> {
        let Some(symbol) = symbol_at(self.entries, index) else {
            write_text("symbol ", out)?;
            return write_count(index as u64, " is not readable", out);
        };
        let name = self.shown_name_at(alloc, index)?;
        let kind = symbol_type(symbol.info);
        let binding = symbol_binding(symbol.info);
        let visibility = symbol_visibility(symbol.other);
        let section = self.shown_section(alloc, symbol.section)?;
        let value = symbol.value;
        let size = symbol.size;
        writeln!(
            out,
            "symbol {index} {name} {kind} {binding} {visibility} {section} {value} {size}"
        )
    }

    /// Writes the symbols but the first, which every table begins with.
    pub fn write_symbols(&self, alloc: Global, out: &mut Vec<u8>) -> io::Result<()> {
        for index in 1..self.entries.len() / SYMBOL_BYTES {
            self.write_symbol(alloc, index, out)?;
        }
        Ok(())
    }

    /// Writes how many symbols are local, the first among them.
    pub fn write_local_count(&self, out: &mut Vec<u8>) -> io::Result<()> {
        write_text("local ", out)?;
        write_count(u64::from(self.locals), "", out)
    }
}
