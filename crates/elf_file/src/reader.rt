//! What the bytes of an ELF64 file say (gABI, chapter 4, "Object Files").

ghost use Rattle.std.specs.Prelude.{◌≡◌, ◌≤◌, length, option_map, IfSome};
ghost use Rattle.std.specs.List.{prefix_len};
ghost use Rattle.elf_file.specs.Reader as spec;
ghost use Rattle.elf_file.specs.StringTable.{is_no_end};

use crate::fields::{half_at, word_at, xword_at};
use crate::offsets::{
    E_SHNUM, E_SHOFF, E_SHSTRNDX, EHDR_SIZE, R_ADDEND, R_OFFSET, R_SYM, R_TYPE, RELA_SIZE, SH_ADDR,
    SH_ADDRALIGN, SH_ENTSIZE, SH_FLAGS, SH_INFO, SH_LINK, SH_NAME, SH_OFFSET, SH_SIZE, SH_TYPE,
    SHDR_SIZE, ST_INFO, ST_NAME, ST_OTHER, ST_SHNDX, ST_SIZE, ST_VALUE, SYM_SIZE,
};

/// Where the header table stands (`e_shoff`, `e_shnum` and `e_shstrndx` of `Elf64_Ehdr`).
#[derive(Clone, Copy)]
pub struct HeaderTable {
    pub offset: u64,
    pub count: u16,
    pub names: u16,
}

/// The header of a section (`Elf64_Shdr`).
#[derive(Clone, Copy)]
pub struct SectionHeader {
    pub name: u32,
    pub kind: u32,
    pub flags: u64,
    pub address: u64,
    pub offset: u64,
    pub size: u64,
    pub link: u32,
    pub info: u32,
    pub alignment: u64,
    pub entry_size: u64,
}

/// An entry of the symbol table (`Elf64_Sym`).
#[derive(Clone, Copy)]
pub struct SymbolRecord {
    pub name: u32,
    pub info: u8,
    pub other: u8,
    pub section: u16,
    pub value: u64,
    pub size: u64,
}

/// A relocation with an addend (`Elf64_Rela`); `kind` and `symbol` are the halves of `r_info`.
#[derive(Clone, Copy)]
pub struct RelocationRecord {
    pub offset: u64,
    pub kind: u32,
    pub symbol: u32,
    pub addend: u64,
}

/// `sh_type` of a section that takes no bytes in the file.
const SHT_NOBITS: u32 = 8;

/// So many bytes at this offset, if that many stand there.
fn piece_at(bytes: &[u8], offset: usize, size: usize) -> Option<&[u8]>
    ensures value { option_map (λ piece. piece.now) result ≡ spec.piece_at bytes.now offset size }
    ensures within { IfSome result (λ piece. length piece.now ≡ size) }
{
    let end = offset.checked_add(size)?;
    bytes.get(offset..end)
}

/// The entry of this index, of a table of entries of this size.
fn table_entry(table: &[u8], size: usize, index: usize) -> Option<&[u8]>
    ensures value { option_map (λ entry. entry.now) result ≡ spec.table_entry table.now size index }
    ensures within { IfSome result (λ entry. length entry.now ≡ size) }
{
    let offset = size.checked_mul(index)?;
    piece_at(table, offset, size)
}

/// Where the header table of an ELF file stands. There is none where the file is shorter than an
/// ELF header or does not begin as one.
#[tactic(auto, unfolding(crate::specs::Reader::header_table_of))]
pub fn header_table(file: &[u8]) -> Option<HeaderTable>
    ensures { result ≡ spec.header_table_of file.now }
{
    if file.len() < EHDR_SIZE || !file.starts_with(b"\x7fELF") {
        return None;
    }
    Some(HeaderTable {
        offset: xword_at(file, E_SHOFF),
        count: half_at(file, E_SHNUM),
        names: half_at(file, E_SHSTRNDX),
    })
}

/// The fields of a section header.
#[tactic(auto, unfolding(crate::specs::Reader::header_in))]
fn header_in(entry: &[u8]) -> SectionHeader
    requires { 64 ≤ length entry.now }
    ensures { result ≡ spec.header_in entry.now }
{
    SectionHeader {
        name: word_at(entry, SH_NAME),
        kind: word_at(entry, SH_TYPE),
        flags: xword_at(entry, SH_FLAGS),
        address: xword_at(entry, SH_ADDR),
        offset: xword_at(entry, SH_OFFSET),
        size: xword_at(entry, SH_SIZE),
        link: word_at(entry, SH_LINK),
        info: word_at(entry, SH_INFO),
        alignment: xword_at(entry, SH_ADDRALIGN),
        entry_size: xword_at(entry, SH_ENTSIZE),
    }
}

/// The header of the section of this index. There is none where the table has no more than so
/// many, or where the header ends behind the file.
#[tactic(auto, unfolding(crate::specs::Reader::section_header_of))]
pub fn section_header(file: &[u8], index: usize) -> Option<SectionHeader>
    ensures { result ≡ spec.section_header_of file.now index }
{
    let table = header_table(file)?;
    if index >= usize::from(table.count) {
        return None;
    }
    let headers = file.get(table.offset as usize..)?;
    Some(header_in(table_entry(headers, SHDR_SIZE, index)?))
}

/// The bytes of a section in the file: empty for `SHT_NOBITS`, and none where the section ends
/// behind the file.
#[tactic(auto, unfolding(crate::specs::Reader::section_content))]
pub fn section_bytes<'a>(file: &'a [u8], header: &SectionHeader) -> Option<&'a [u8]>
    ensures { option_map (λ bytes. bytes.now) result ≡ spec.section_content file.now header.now }
{
    if header.kind == SHT_NOBITS {
        return Some(&[]);
    }
    piece_at(file, header.offset as usize, header.size as usize)
}

/// How many bytes stand before the first zero byte.
fn text_length(bytes: &[u8]) -> usize
    ensures value { result ≡ prefix_len is_no_end bytes.now }
    ensures within { result ≤ length bytes.now }
{
    bytes.iter().take_while(|byte| **byte != 0).count()
}

/// The text at this offset of a string table; none where no zero byte ends it.
#[tactic(auto, unfolding(crate::specs::Reader::text_from))]
pub fn text_at<'a>(strings: &'a [u8], offset: usize) -> Option<&'a [u8]>
    ensures { option_map (λ text. text.now) result ≡ spec.text_from strings.now offset }
{
    let rest = strings.get(offset..)?;
    let end = text_length(rest);
    if end < rest.len() {
        Some(&rest[..end])
    } else {
        None
    }
}

/// The name of the section of this index.
#[tactic(auto, unfolding(crate::specs::Reader::section_name_of))]
pub fn section_name<'a>(file: &'a [u8], index: usize) -> Option<&'a [u8]>
    ensures { option_map (λ name. name.now) result ≡ spec.section_name_of file.now index }
{
    let table = header_table(file)?;
    let names = section_header(file, usize::from(table.names))?;
    let strings = section_bytes(file, &names)?;
    let header = section_header(file, index)?;
    text_at(strings, header.name as usize)
}

/// Whether the section of this index has this name.
fn has_name(file: &[u8], index: usize, name: &[u8]) -> bool
    ensures { result ≡ spec.is_same_name name.now (spec.section_name_of file.now index) }
{
    match section_name(file, index) {
        Some(found) => found == name,
        None => false,
    }
}

/// The first of so many sections that has this name.
fn first_named(file: &[u8], name: &[u8], count: usize) -> Option<usize>
    ensures { result ≡ spec.first_named file.now name.now count }
{
    (0..count).find(|index| has_name(file, *index, name))
}

/// The index of the first section of this name.
#[tactic(auto, unfolding(crate::specs::Reader::named_section))]
pub fn section_named(file: &[u8], name: &[u8]) -> Option<usize>
    ensures { result ≡ spec.named_section file.now name.now }
{
    let table = header_table(file)?;
    first_named(file, name, usize::from(table.count))
}

/// The fields of an entry of the symbol table.
#[tactic(auto, unfolding(crate::specs::Reader::symbol_in))]
fn symbol_in(entry: &[u8]) -> SymbolRecord
    requires { 24 ≤ length entry.now }
    ensures { result ≡ spec.symbol_in entry.now }
{
    SymbolRecord {
        name: word_at(entry, ST_NAME),
        info: entry[ST_INFO],
        other: entry[ST_OTHER],
        section: half_at(entry, ST_SHNDX),
        value: xword_at(entry, ST_VALUE),
        size: xword_at(entry, ST_SIZE),
    }
}

/// The symbol of this index, in the bytes of a symbol table.
#[tactic(auto, unfolding(crate::specs::Reader::symbol_record))]
pub fn symbol_at(symbols: &[u8], index: usize) -> Option<SymbolRecord>
    ensures { result ≡ spec.symbol_record symbols.now index }
{
    Some(symbol_in(table_entry(symbols, SYM_SIZE, index)?))
}

/// The fields of a relocation entry.
#[tactic(auto, unfolding(crate::specs::Reader::relocation_in))]
fn relocation_in(entry: &[u8]) -> RelocationRecord
    requires { 24 ≤ length entry.now }
    ensures { result ≡ spec.relocation_in entry.now }
{
    RelocationRecord {
        offset: xword_at(entry, R_OFFSET),
        kind: word_at(entry, R_TYPE),
        symbol: word_at(entry, R_SYM),
        addend: xword_at(entry, R_ADDEND),
    }
}

/// The relocation of this index, in the bytes of a section of relocations.
#[tactic(auto, unfolding(crate::specs::Reader::relocation_record))]
pub fn relocation_at(entries: &[u8], index: usize) -> Option<RelocationRecord>
    ensures { result ≡ spec.relocation_record entries.now index }
{
    Some(relocation_in(table_entry(entries, RELA_SIZE, index)?))
}
