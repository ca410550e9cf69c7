//! The ELF64 relocatable object file: its bytes, how they are written, and what they say (gABI, chapter 4).
#![tactic(auto)]

mod fields;
mod file_pieces;
mod image;
mod laws;
mod offsets;
mod output_buffer;
mod reader;
mod sections;
mod string_table;
mod table_entries;
mod writing;

pub use file_pieces::{Between, Mixed, Repetition};
pub use image::{ElfFile, laid_file};
pub use laws::{bodies_stand, names_stand, sections_stand};
pub use offsets::{RELA_SIZE, SYM_SIZE};
pub use reader::{
    HeaderTable, RelocationRecord, SectionHeader, SymbolRecord, header_table, relocation_at,
    section_bytes, section_header, section_name, section_named, symbol_at, text_at,
};
pub use sections::{
    Body, FileSection, group_section, relocation_section, string_section, symbol_section,
};
pub use string_table::put_name;
pub use table_entries::{elf_relocation, elf_symbol};
