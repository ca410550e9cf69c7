//! Sections and their headers (gABI, chapter 4, "Sections").

ghost use Rattle.std.specs.Prelude.{◌≡◌, IfSome};
ghost use Rattle.elf_file.specs.Sections as spec;
ghost use Rattle.elf_file.specs.Views.{content_view, section_view};

use crate::fields::{put_word, put_xword};
use crate::file_pieces::Mixed;
use crate::offsets::{
    RELA_SIZE, SH_ADDRALIGN, SH_ENTSIZE, SH_FLAGS, SH_INFO, SH_LINK, SH_NAME, SH_OFFSET, SH_SIZE,
    SH_TYPE, SYM_SIZE,
};

/// `sh_type` of a symbol table.
const SHT_SYMTAB: u32 = 2;

/// `sh_type` of a string table.
const SHT_STRTAB: u32 = 3;

/// `sh_type` of a group of sections.
const SHT_GROUP: u32 = 17;

/// `sh_type` of relocations with addends.
const SHT_RELA: u32 = 4;

/// `sh_flags`: `sh_info` is the index of a header.
const SHF_INFO_LINK: u64 = 0x40;

/// `sh_flags`: the section is in a group.
const SHF_GROUP: u64 = 0x200;

/// What a section holds.
#[derive(Drop)]
pub enum Body {
    Bytes(Vec<u8>),
    Mixed(Mixed),
    /// Space of this size, which takes no bytes in the file (`SHT_NOBITS`).
    NoBits(u64),
}

impl Body {
    /// The size in memory in bytes, if below 2^64.
    pub(crate) fn size(&self) -> Option<u64>
        ensures { IfSome result (λ size. size ≡ spec.content_size (content_view self.now)) }
    {
        match self {
            Body::Bytes(bytes) => Some(bytes.len() as u64),
            Body::Mixed(held) => Some(held.len()? as u64),
            Body::NoBits(size) => Some(*size),
        }
    }
}

/// A section of the file, and what its header says.
#[derive(Drop)]
pub struct FileSection<'a> {
    /// The name is these bytes, and then those.
    pub prefix: &'static [u8],
    pub name: &'a [u8],
    /// `sh_type`
    pub kind: u32,
    pub flags: u64,
    /// A body stands at a multiple of this. 0 and 1 both ask for no alignment.
    pub alignment: u64,
    pub entry_size: u64,
    pub link: u64,
    pub info: u64,
    pub body: Body,
}

/// The header of a section of this size whose name and bytes stand at these offsets (`Elf64_Shdr`).
#[tactic(auto, unfolding(crate::specs::Fields::word, crate::specs::Fields::xword, crate::specs::Views::section_view))]
pub(crate) fn section_header(name: usize, offset: u64, size: u64, section: &FileSection) -> [u8; 64]
    requires { size ≡ spec.content_size (content_view section.now.body) }
    ensures { result ≡ spec.section_header name offset (section_view section.now) }
{
    let mut header = [0; 64];
    put_word(&mut header[SH_NAME..], name as u64);
    put_word(&mut header[SH_TYPE..], u64::from(section.kind));
    put_xword(&mut header[SH_FLAGS..], section.flags);
    put_xword(&mut header[SH_OFFSET..], offset);
    put_xword(&mut header[SH_SIZE..], size);
    put_word(&mut header[SH_LINK..], section.link);
    put_word(&mut header[SH_INFO..], section.info);
    put_xword(&mut header[SH_ADDRALIGN..], section.alignment);
    put_xword(&mut header[SH_ENTSIZE..], section.entry_size);
    header
}

/// The section of a group, with the index of the symbol table and the number there of its signature's
/// symbol.
#[tactic(auto, unfolding(crate::specs::Views::section_view))]
pub fn group_section<'a>(symbols: usize, signature: usize, bytes: Vec<u8>) -> FileSection<'a>
    ensures { section_view result ≡ spec.group_section symbols signature bytes.items }
{
    FileSection {
        prefix: b".group",
        name: b"",
        kind: SHT_GROUP,
        flags: 0,
        alignment: 4,
        entry_size: 4,
        link: symbols as u64,
        info: signature as u64,
        body: Body::Bytes(bytes),
    }
}

/// The section of the relocations of the section of these flags, this name and this index, with the
/// index of the symbol table; they are in its group, if it is in one.
#[tactic(auto, unfolding(crate::specs::Views::section_view), using(std::proofs::lemmas::Nat::and_le_r))]
pub fn relocation_section(
    flags: u64,
    symbols: usize,
    index: usize,
    name: &[u8],
    bytes: Vec<u8>,
) -> FileSection<'_>
    ensures { section_view result ≡ spec.relocation_section flags symbols index name.now
        bytes.items }
{
    FileSection {
        prefix: b".rela",
        name,
        kind: SHT_RELA,
        flags: SHF_INFO_LINK + (flags & SHF_GROUP),
        alignment: 8,
        entry_size: RELA_SIZE as u64,
        link: symbols as u64,
        info: index as u64,
        body: Body::Bytes(bytes),
    }
}

/// The section of the symbol table, with the indices of its string table and of the first symbol that is not local.
#[tactic(auto, unfolding(crate::specs::Views::section_view))]
pub fn symbol_section<'a>(strings: usize, first: usize, bytes: Vec<u8>) -> FileSection<'a>
    ensures { section_view result ≡ spec.symbol_section strings first bytes.items }
{
    FileSection {
        prefix: b".symtab",
        name: b"",
        kind: SHT_SYMTAB,
        flags: 0,
        alignment: 8,
        entry_size: SYM_SIZE as u64,
        link: strings as u64,
        info: first as u64,
        body: Body::Bytes(bytes),
    }
}

/// The section of a string table.
#[tactic(auto, unfolding(crate::specs::Views::section_view))]
pub fn string_section<'a>(name: &'static [u8], bytes: Vec<u8>) -> FileSection<'a>
    ensures { section_view result ≡ spec.string_section name.now bytes.items }
{
    FileSection {
        prefix: name,
        name: b"",
        kind: SHT_STRTAB,
        flags: 0,
        alignment: 1,
        entry_size: 0,
        link: 0,
        info: 0,
        body: Body::Bytes(bytes),
    }
}
