//! The bytes of an ELF64 relocatable object file (gABI, chapter 4; psABI for AMD64, chapter 4).

ghost use Rattle.std.specs.Prelude.{◌≡◌, ◌+◌, ◌^◌, ◌<◌, ◌≤◌, ◌++◌, All, map, length, vec_len, IfOk, IfSome, OnOk};
ghost use Rattle.elf_file.specs.Image as spec;
ghost use Rattle.elf_file.specs.Limits.{EntryFits};
ghost use Rattle.elf_file.specs.Pieces.{flat};
ghost use Rattle.elf_file.specs.StringTable.{string_table_of, name_offsets};
ghost use Rattle.elf_file.specs.Views.{section_view, ends_at};

use crate::fields::{put_half, put_word, put_xword};
use crate::file_pieces::{Piece, Pieces};
use crate::offsets::{
    E_EHSIZE, E_MACHINE, E_SHENTSIZE, E_SHNUM, E_SHOFF, E_SHSTRNDX, E_TYPE, E_VERSION, EHDR_SIZE,
    SHDR_SIZE,
};
use crate::sections::{Body, FileSection, section_header, string_section};
use crate::string_table::{put_joined, put_name};
use std::alloc::{AllocError, Global};
use std::marker::Model;

/// The ELF header, where the header table has this offset and count, and the last section has the names (`Elf64_Ehdr`).
#[tactic(auto, unfolding(crate::specs::Image::elf_header, crate::specs::Fields::half, crate::specs::Fields::word, crate::specs::Fields::xword))]
fn elf_header(offset: usize, count: usize) -> [u8; 64]
    requires { 0 < count }
    ensures { result ≡ spec.elf_header offset count }
{
    let mut header = [0; 64];
    // e_ident: the magic bytes, 64 bits, low byte first, version 1
    header[..7].copy_from_slice(b"\x7fELF\x02\x01\x01");
    put_half(&mut header[E_TYPE..], 1); // ET_REL
    put_half(&mut header[E_MACHINE..], 62); // EM_X86_64
    put_word(&mut header[E_VERSION..], 1);
    put_xword(&mut header[E_SHOFF..], offset as u64);
    put_half(&mut header[E_EHSIZE..], EHDR_SIZE as u64);
    put_half(&mut header[E_SHENTSIZE..], SHDR_SIZE as u64);
    put_half(&mut header[E_SHNUM..], count as u64);
    put_half(&mut header[E_SHSTRNDX..], (count - 1) as u64);
    header
}

/// The least multiple of the alignment that is not below the position, if there is one below 2^64.
fn next_multiple(position: usize, alignment: u64) -> Option<usize>
    ensures value { IfSome result (λ end. end ≡ spec.next_multiple alignment position) }
    ensures within { IfSome result (λ end. position ≤ end) }
{
    position.checked_next_multiple_of(alignment.max(1) as usize)
}

/// What stands behind the ELF header, as far as it is laid out, and the header table so far.
#[derive(Drop)]
struct Laid {
    pieces: Pieces,
    /// Where the last piece ends in the file, in bytes.
    end: usize,
    headers: Vec<u8>,
}

impl Laid {
    ghost use Rattle.std.specs.Prelude.{◌≡◌, ◌+◌, ◌++◌, length, OnOk};
    ghost use Rattle.elf_file.specs.Image as spec;
    ghost use Rattle.elf_file.specs.Limits.{EntryFits};
    ghost use Rattle.elf_file.specs.Pieces.{piece_bytes, flat};
    ghost use Rattle.elf_file.specs.Sections.{content_size, file_bytes};
    ghost use Rattle.elf_file.specs.Views.{section_view, content_view, ends_at};

    /// Appends zeros up to a multiple of the alignment.
    fn put_gap(&mut self, alignment: u64) -> Result<(), AllocError>
        requires { ends_at self.old.end self.old.pieces }
        ensures pieces { OnOk result (self.new.pieces
            ≡ self.old.pieces ++ spec.gap alignment self.old.end) }
        ensures end { OnOk result (self.new.end ≡ spec.next_multiple alignment self.old.end) }
        ensures ends { OnOk result (ends_at self.new.end self.new.pieces) }
        ensures kept { self.new.headers.items ≡ self.old.headers.items }
    {
        // No file has 2^64 bytes.
        let end = next_multiple(self.end, alignment).ok_or(AllocError)?;
        self.pieces.put_zeros((end - self.end) as u64)?;
        self.end = end;
        Ok(())
    }

    /// Appends a piece of this size.
    fn put_piece(&mut self, piece: Piece, size: usize) -> Result<(), AllocError>
        requires ends { ends_at self.old.end self.old.pieces }
        requires size { size ≡ length (piece_bytes piece) }
        ensures pieces { OnOk result (self.new.pieces ≡ self.old.pieces ++ piece_bytes piece) }
        ensures ends { OnOk result (ends_at self.new.end self.new.pieces) }
        ensures kept { self.new.headers.items ≡ self.old.headers.items }
    {
        let end = self.end.checked_add(size).ok_or(AllocError)?;
        self.pieces.put(piece)?;
        self.end = end;
        Ok(())
    }

    /// Appends what a section of this size holds in the file.
    fn put_body(&mut self, body: Body, size: u64) -> Result<(), AllocError>
        requires ends { ends_at self.old.end self.old.pieces }
        requires size { size ≡ content_size (content_view body) }
        ensures pieces { OnOk result (self.new.pieces
            ≡ self.old.pieces ++ file_bytes (content_view body)) }
        ensures ends { OnOk result (ends_at self.new.end self.new.pieces) }
        ensures kept { self.new.headers.items ≡ self.old.headers.items }
    {
        match body {
            Body::Bytes(bytes) => self.put_piece(Piece::Bytes(bytes), size as usize),
            Body::Mixed(held) => self.put_piece(Piece::Mixed(held), size as usize),
            Body::NoBits(_) => Ok(()),
        }
    }

    /// Appends the body and the header of a section, whose name stands at this offset.
    #[tactic(auto, unfolding(crate::specs::Views::section_view))]
    fn put(&mut self, name: usize, section: FileSection) -> Result<(), AllocError>
        requires { ends_at self.old.end self.old.pieces }
        ensures pieces { OnOk result (self.new.pieces
            ≡ self.old.pieces
            ++ spec.body_from self.old.end (section_view section.entry)) }
        ensures headers { OnOk result (self.new.headers.items
            ≡ self.old.headers.items
            ++ spec.header_from self.old.end name (section_view section.entry)) }
        ensures ends { OnOk result (ends_at self.new.end self.new.pieces) }
        ensures numbers { EntryFits (section_view section.entry) }
    {
        self.put_gap(section.alignment)?;
        let size = section.body.size().ok_or(AllocError)?;
        let header = section_header(name, self.end as u64, size, &section);
        self.headers.extend_from_slice(&header)?;
        self.put_body(section.body, size)
    }
}

/// The bodies up to the header table, and that table, of sections whose names stand at these offsets.
#[tactic(auto, unfolding(crate::specs::Image::header_table, crate::specs::Image::null_header))]
fn lay_out(alloc: Global, names: &[usize], sections: Vec<FileSection>) -> Result<Laid, AllocError>
    requires { length names.now ≡ vec_len sections }
    ensures pieces { IfOk result (λ l. l.pieces
        ≡ spec.bodies_from spec.header_end (map section_view sections.entry.items)) }
    ensures headers { IfOk result (λ l. l.headers.items
        ≡ spec.header_table names.now (map section_view sections.entry.items)) }
    ensures ends { IfOk result (λ l. ends_at l.end l.pieces) }
    ensures numbers { OnOk result (All EntryFits (map section_view sections.entry.items)) }
{
    let mut laid = Laid {
        pieces: Pieces::new(alloc),
        end: EHDR_SIZE,
        headers: vec![in alloc; 0; 64]?,
    };
    let mut index = 0;
    for section in sections {
        laid.put(names[index], section)?;
        index += 1;
    }
    laid.put_gap(8)?;
    Ok(laid)
}

/// The string table of the sections' names, that of this table last, and where each name stands.
#[derive(Drop)]
struct NameTable {
    bytes: Vec<u8>,
    offsets: Vec<usize>,
}

/// The names of the sections, and last that of their table.
#[tactic(auto, unfolding(crate::specs::Image::all_names, crate::specs::Sections::section_names, crate::specs::StringTable::string_table_of, crate::specs::StringTable::name_offsets, crate::specs::Views::section_view))]
fn name_table(alloc: Global, sections: &[FileSection]) -> Result<NameTable, AllocError>
    ensures bytes { IfOk result (λ t. t.bytes.items
        ≡ string_table_of (spec.all_names (map section_view sections.now))) }
    ensures offsets { IfOk result (λ t. t.offsets.items
        ≡ name_offsets (spec.all_names (map section_view sections.now))) }
    ensures count { IfOk result (λ t. vec_len t.offsets ≡ length sections.now + 1) }
{
    let mut bytes = vec![in alloc; 0; 1]?;
    let mut offsets = Vec::with_capacity(alloc, sections.len())?;
    for section in sections {
        let offset = put_joined(&mut bytes, section.prefix, section.name)?;
        offsets.push(offset)?;
    }
    let offset = put_name(&mut bytes, b".shstrtab")?;
    offsets.push(offset)?;
    Ok(NameTable { bytes, offsets })
}

/// An ELF64 relocatable object file.
#[derive(Drop)]
pub struct ElfFile {
    pub(crate) header: [u8; 64],
    pub(crate) pieces: Vec<Piece>,
    /// How many bytes it has.
    size: u64,
}

impl Model for ElfFile {
    ghost use Rattle.std.specs.Prelude.{◌≡◌, ℕ, List, ◌++◌, length};
    ghost use Rattle.elf_file.specs.Pieces.{flat};

    ghost Value = { List ℕ };

    ghost view = { λ f. f.header ++ flat f.pieces.items };

    ghost invariant = { λ f. f.size ≡ length (f.header ++ flat f.pieces.items) };
}

impl ElfFile {
    ghost use Rattle.std.specs.Prelude.{◌≡◌, length};

    /// How many bytes the file has.
    pub fn len(&self) -> u64
        ensures { result ≡ length self.now }
    {
        self.size
    }
}

/// The file of these sections, and last the table of their names.
#[tactic(auto, unfolding(crate::specs::Image::file_of, crate::specs::Image::with_names))]
pub fn laid_file(alloc: Global, sections: Vec<FileSection>) -> Result<ElfFile, AllocError>
    ensures file { IfOk result (λ f. f ≡ spec.file_with (map section_view sections.entry.items)) }
    ensures numbers { OnOk result (All EntryFits (map section_view sections.entry.items)) }
    ensures size { IfOk result (λ f. length f < 2 ^ 64) }
{
    let mut sections = sections;
    let names = name_table(alloc, &sections)?;
    sections.push(string_section(b".shstrtab", names.bytes))?;
    let count = sections.len() + 1;
    let laid = lay_out(alloc, &names.offsets, sections)?;
    // No file has 2^64 bytes.
    let size = laid.end.checked_add(laid.headers.len()).ok_or(AllocError)?;
    let header = elf_header(laid.end, count);
    let mut pieces = laid.pieces;
    pieces.put(Piece::Bytes(laid.headers))?;
    Ok(ElfFile {
        header,
        pieces: pieces.into_list(),
        size: size as u64,
    })
}
