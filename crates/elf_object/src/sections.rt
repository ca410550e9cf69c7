//! The sections of an object with their relocations, and the indices of their headers (gABI, chapter 4, "Sections").

ghost use Rattle.std.specs.Prelude.{◌≡◌, ◌+◌, ◌*◌, ◌^◌, ◌<◌, ◌≤◌, [], ◌++◌, map, flat_map, length, IfOk, OnOk};
ghost use Rattle.asm_frags.specs.Groups.{groups_of};
ghost use Rattle.elf_file.specs.Fields.{word};
ghost use Rattle.elf_file.specs.Sections.{group_bytes};
ghost use Rattle.elf_file.specs.Views.{section_view};
ghost use Rattle.elf_symbols.specs.Views.{numbers_view};
ghost use Rattle.elf_object.specs.GroupLists.{with_member};
ghost use Rattle.elf_object.specs.Sections as spec;
ghost use Rattle.elf_object.specs.Views.{held_entry, relocations_in, source_of};

use crate::contents::HeldSection;
use crate::relocations::{Relocation, relocation_entry};
use asm_frags::{Laid, Sections};
use bitflags::Flags;
use elf_file::{FileSection, RELA_SIZE, group_section, relocation_section};
use elf_symbols::Numbers;
use std::alloc::{AllocError, Global};

/// The entries of relocations, by the numbers of their symbols.
fn relocation_bytes(
    alloc: Global,
    numbers: &Numbers,
    relocations: &[Relocation],
) -> Result<Vec<u8>, AllocError>
    ensures { IfOk result (λ bytes. bytes.items
        ≡ spec.relocation_bytes (numbers_view numbers.now) relocations.now) }
{
    let room = relocations.len().saturating_mul(RELA_SIZE);
    let mut out = Vec::with_capacity(alloc, room)?;
    for relocation in relocations {
        let number = numbers.of(relocation.target);
        out.extend_from_slice(&relocation_entry(number, relocation))?;
    }
    Ok(out)
}

/// A section of the source.
#[tactic(auto, unfolding(elf_file::specs::Views::section_view, crate::specs::Views::held_entry))]
fn plain_section<'a>(held: HeldSection<'a>) -> FileSection<'a>
    ensures { section_view result ≡ held_entry held.entry }
{
    let source = held.source;
    FileSection {
        prefix: b"",
        name: source.name(),
        kind: source.kind(),
        flags: source.flags().bits(),
        alignment: source.alignment(),
        entry_size: source.entry_size(),
        link: 0,
        info: 0,
        body: held.body,
    }
}

/// Appends a section of the source, and its relocations behind it, where it has any; its header has this index.
#[tactic(auto, unfolding(crate::specs::Views::held_entry))]
fn put_section<'a>(
    alloc: Global,
    out: &mut Vec<FileSection<'a>>,
    numbers: &Numbers,
    symbols: usize,
    index: usize,
    held: HeldSection<'a>,
) -> Result<(), AllocError>
    ensures { OnOk result (map section_view out.new.items ≡ map section_view out.old.items
        ++ spec.with_relocations (numbers_view numbers.now) symbols index (held_entry held.entry)
        (relocations_in held.entry)) }
{
    let name = held.source.name();
    if held.relocations.is_empty() {
        return Ok(out.push(plain_section(held))?);
    }
    let flags = held.source.flags().bits();
    let bytes = relocation_bytes(alloc, numbers, &held.relocations)?;
    out.push(plain_section(held))?;
    Ok(out.push(relocation_section(flags, symbols, index, name, bytes))?)
}

/// How many headers a section with these relocations has.
fn header_count(relocations: &[Relocation]) -> usize
    ensures { result ≡ spec.header_count relocations.now }
{
    if relocations.is_empty() { 1 } else { 2 }
}

/// The index of the header of each section, and that of the header behind them.
#[derive(Drop)]
pub(crate) struct Headers {
    pub(crate) indices: Vec<usize>,
    pub(crate) next: usize,
}

/// The index of the header of the first section of the source; the header at index 0 is that of no
/// section, and those of groups stand behind it.
pub(crate) fn first_header(sections: &Sections<Laid>) -> usize
    ensures value { result ≡ spec.first_header sections.now }
    ensures within { length sections.now + result ≤ 30006 }
{
    1 + sections.group_count()
}

/// The indices of the headers of these sections, of which the first is this one.
pub(crate) fn headers_of(
    alloc: Global,
    first: usize,
    held: &[HeldSection],
) -> Result<Headers, AllocError>
    requires { first ≤ 2 ^ 16 }
    ensures indices { IfOk result (λ h. h.indices.items
        ≡ spec.header_indices_from first (map relocations_in held.now)) }
    ensures next { IfOk result (λ h. h.next
        ≡ spec.next_header first (map relocations_in held.now)) }
    ensures within { IfOk result (λ h. h.next ≤ first + 2 * length held.now) }
{
    let mut indices = Vec::with_capacity(alloc, held.len())?;
    let mut next = first;
    for section in held {
        indices.push(next)?;
        next += header_count(&section.relocations);
    }
    Ok(Headers { indices, next })
}

/// Appends the sections of the source with their relocations, of whose headers the first has the index
/// `first`; the header of the symbol table has the index `symbols`.
pub(crate) fn put_sections<'a>(
    alloc: Global,
    numbers: &Numbers,
    symbols: usize,
    first: usize,
    held: Vec<HeldSection<'a>>,
    out: &mut Vec<FileSection<'a>>,
) -> Result<(), AllocError>
    requires { first ≤ 2 ^ 16 }
    ensures { OnOk result (map section_view out.new.items ≡ map section_view out.old.items
        ++ spec.entries_from (numbers_view numbers.now) symbols first
        (map held_entry held.entry.items) (map relocations_in held.entry.items)) }
{
    let mut index = first;
    for section in held {
        let count = header_count(&section.relocations);
        put_section(alloc, out, numbers, symbols, index, section)?;
        index += count;
    }
    Ok(())
}

/// Appends the indices of the headers of a section and of its relocations, of which the first is this
/// one, to what its group lists.
#[tactic(auto, unfolding(elf_file::specs::Fields::word))]
fn put_headers(
    list: &mut Vec<u8>,
    index: usize,
    relocations: &[Relocation],
) -> Result<(), AllocError>
    requires { index + 1 < 2 ^ 32 }
    ensures { OnOk result (list.new.items
        ≡ list.old.items ++ flat_map word (spec.own_headers index relocations.now)) }
{
    list.extend_from_slice(&(index as u32).to_le_bytes())?;
    if !relocations.is_empty() {
        list.extend_from_slice(&(index as u32 + 1).to_le_bytes())?;
    }
    Ok(())
}

/// Appends the indices of the headers of a section to what its group lists, if it is in one.
fn put_member(
    lists: &mut Vec<Vec<u8>>,
    sections: &Sections<Laid>,
    index: usize,
    held: &HeldSection,
) -> Result<(), AllocError>
    requires index { index + 1 < 2 ^ 32 }
    requires long { length lists.old.items ≡ length (groups_of sections.now) }
    ensures { let bytes = flat_map word (spec.own_headers index (relocations_in held.now)) in
        OnOk result (map (λ list. list.items) lists.new.items
        ≡ with_member (map (λ list. list.items) lists.old.items) (groups_of sections.now)
        (source_of held.now).group bytes) }
{
    let Some(group) = held.source.group() else {
        return Ok(());
    };
    if let Some(place) = sections.group_index(group.signature.as_bytes()) {
        put_headers(&mut lists[place], index, &held.relocations)?;
    }
    Ok(())
}

/// The first word of a group.
#[tactic(auto, unfolding(elf_file::specs::Fields::word))]
fn first_word(comdat: bool) -> [u8; 4]
    ensures { result ≡ group_bytes comdat [] }
{
    u32::from(comdat).to_le_bytes()
}

/// The first word of each group.
fn begun_groups(alloc: Global, sections: &Sections<Laid>) -> Result<Vec<Vec<u8>>, AllocError>
    ensures { IfOk result (λ lists. map (λ list. list.items) lists.items
        ≡ map (λ group. group_bytes group.comdat []) (groups_of sections.now)) }
{
    let mut lists = Vec::with_capacity(alloc, sections.group_count())?;
    for index in 0..sections.group_count() {
        let (_, comdat) = sections.group(index);
        lists.push(Vec::from_slice(alloc, &first_word(comdat))?)?;
    }
    Ok(lists)
}

/// What each group lists; the first section has the header of this index.
fn group_lists(
    alloc: Global,
    sections: &Sections<Laid>,
    first: usize,
    held: &[HeldSection],
) -> Result<Vec<Vec<u8>>, AllocError>
    requires within { length sections.now + first ≤ 30006 }
    requires sources { map source_of held.now ≡ sections.now }
    ensures { let found = map relocations_in held.now in
        IfOk result (λ lists. map (λ list. list.items) lists.items
        ≡ map (λ group. group_bytes group.comdat
        (spec.members_from group.signature first sections.now found)) (groups_of sections.now)) }
{
    let mut lists = begun_groups(alloc, sections)?;
    let mut index = first;
    for section in held {
        put_member(&mut lists, sections, index, section)?;
        index += header_count(&section.relocations);
    }
    Ok(lists)
}

/// The sections of groups; the header of the symbol table has the index `symbols`, and that of the first
/// section the index `first`.
pub(crate) fn group_sections<'a>(
    alloc: Global,
    numbers: &Numbers,
    symbols: usize,
    first: usize,
    sections: &Sections<Laid>,
    held: &[HeldSection],
) -> Result<Vec<FileSection<'a>>, AllocError>
    requires first { first ≡ spec.first_header sections.now }
    requires within { length sections.now + first ≤ 30006 }
    requires sources { map source_of held.now ≡ sections.now }
    ensures { IfOk result (λ out. map section_view out.items
        ≡ spec.group_entries (numbers_view numbers.now) symbols sections.now
        (map relocations_in held.now) 0 (groups_of sections.now)) }
{
    let lists = group_lists(alloc, sections, first, held)?;
    // Those of the source come behind them, and three tables.
    let mut out = Vec::with_capacity(alloc, symbols.saturating_add(2))?;
    let mut index = 0;
    for list in lists {
        out.push(group_section(symbols, numbers.of_group(index), list))?;
        index += 1;
    }
    Ok(out)
}
