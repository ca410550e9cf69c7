//! What the sections of an object hold: plain bytes with the values of fields in place, the bytes of
//! items between them, and the relocations of the other fields.

ghost use Rattle.std.specs.Prelude.{◌≡◌, ℕ, List, ◌+◌, ◌≤◌, [], ◌++◌, None, false, All, drop, filter_map, length, map, replicate, slice_range, take, unwrap_or, IfErr, IfOk, OnOk};
ghost use Rattle.std.specs.Option.{option_to_list};
ghost use Rattle.asm_frags.specs.Fields.{low_bytes, width};
ghost use Rattle.asm_frags.specs.Groups.{IsFlagged};
ghost use Rattle.asm_frags.specs.PlainBytes.{field_end};
ghost use Rattle.elf_object.specs.Contents as spec;
ghost use Rattle.elf_object.specs.Faults.{IsDue, IsLostAt, fields_fault, field_fault_in, field_fault_from};
ghost use Rattle.elf_file.specs.Pieces.{mixed_bytes};
ghost use Rattle.elf_object.specs.Relocations.{field_relocation};
ghost use Rattle.elf_file.specs.Sections.{stored};
ghost use Rattle.elf_object.specs.Sections.{source_section};
ghost use Rattle.elf_file.specs.Views.{content_view};
ghost use Rattle.elf_object.specs.Views.{held_entry, relocations_in, source_of};

use crate::faults::{ObjectCause, ObjectFault};
use crate::mixing::Mixing;
use crate::references::field_relocation;
use crate::relocations::Relocation;
use asm_frags::{Field, FieldSize, Frag, Laid, SHT_NOBITS, Section};
use asm_relax::{has_value, held_value, section_size};
use elf_file::{Body, Mixed};
use elf_symbols::Placement;
use item_contents::{Content, put_bytes};
use std::alloc::{AllocError, Global};

/// The plain bytes of a section with the values of its fields, and the relocations of the others.
#[derive(Drop)]
pub(crate) struct Filed {
    pub(crate) bytes: Vec<u8>,
    pub(crate) relocations: Vec<Relocation>,
}

/// Puts the low bytes of a value at this offset.
#[tactic(auto, unfolding(asm_frags::specs::Fields::low_bytes))]
fn put_low(bytes: &mut [u8], offset: usize, size: FieldSize, value: u64)
    requires { offset + width size ≤ length bytes.old }
    ensures { bytes.new ≡ take offset bytes.old
        ++ (low_bytes size value ++ drop (offset + width size) bytes.old) }
{
    let low = value.to_le_bytes();
    let end = offset + size.bytes();
    bytes[offset..end].copy_from_slice(&low[..size.bytes()]);
}

/// Puts the value of a field in place, unless it stands in an item.
fn put_value(bytes: &mut [u8], field: &Field, value: u64)
    requires { field_end field.now ≤ length bytes.old }
    ensures { bytes.new ≡ take field.now.offset bytes.old
        ++ (spec.held_bytes field.now value ++ drop (field_end field.now) bytes.old) }
{
    if !field.in_item {
        put_low(bytes, field.offset, field.size, value);
    }
}

/// Puts the value of a field of the section of this number in place, or appends its relocation.
fn put_field(
    alloc: Global,
    at: Placement,
    number: usize,
    section: &Section<Laid>,
    field: &Field,
    out: &mut Filed,
) -> Result<(), ObjectFault>
    requires within { field_end field.now ≤ length out.old.bytes.items }
    requires blank { slice_range out.old.bytes.items field.now.offset (field_end field.now)
        ≡ spec.held_bytes field.now 0 }
    ensures bytes { OnOk result (out.new.bytes.items ≡ take field.now.offset out.old.bytes.items
        ++ (spec.field_bytes at.entry.symbols.now at.entry.sections.now field.now
        ++ drop (field_end field.now) out.old.bytes.items)) }
    ensures relocations { OnOk result (out.new.relocations.items ≡ out.old.relocations.items
        ++ option_to_list (field_relocation at.entry.symbols.now at.entry.sections.now number
        section.now field.now)) }
    ensures whole { OnOk result (spec.is_lost at.entry.symbols.now at.entry.sections.now number
        section.now field.now ≡ false) }
    ensures err { IfErr result
        (λ fault. IsLostAt field.now.pos (spec.is_lost at.entry.symbols.now at.entry.sections.now
        number section.now field.now) fault) }
{
    if field.in_item && has_value(at.symbols, at.sections, field) {
        return Ok(());
    }
    if let Some(value) = held_value(at.symbols, at.sections, field) {
        put_value(&mut out.bytes, field, value);
        return Ok(());
    }
    match field_relocation(alloc, at, number, section, field)? {
        Some(found) => Ok(out.relocations.push(found)?),
        None => Err(ObjectFault::Fault(ObjectCause::NoRelocation(field.pos))),
    }
}

/// The plain bytes of the section of this number with the values of its fields in place, and the
/// relocations of the others.
#[tactic(auto, unfolding(crate::specs::Faults::fields_fault))]
fn file_fields(
    alloc: Global,
    at: Placement,
    number: usize,
    section: &Section<Laid>,
) -> Result<Filed, ObjectFault>
    ensures bytes { IfOk result (λ filed. filed.bytes.items
        ≡ spec.plain_bytes at.entry.symbols.now at.entry.sections.now section.now) }
    ensures relocations { IfOk result (λ filed. filed.relocations.items
        ≡ filter_map (field_relocation at.entry.symbols.now at.entry.sections.now number
        section.now) section.now.fields) }
    ensures whole { OnOk result (fields_fault at.entry.symbols.now at.entry.sections.now number
        section.now section.now.fields ≡ None) }
    ensures err { IfErr result
        (λ fault. IsDue fault (fields_fault at.entry.symbols.now at.entry.sections.now number
        section.now section.now.fields)) }
{
    let fields = section.fields();
    let mut out = Filed {
        bytes: Vec::from_slice(alloc, section.bytes())?,
        relocations: Vec::with_capacity(alloc, fields.len())?,
    };
    for field in fields {
        put_field(alloc, at, number, section, field, &mut out)?;
    }
    Ok(out)
}

/// The value that an item of this section holds, if it holds any.
fn item_value(at: Placement, section: &Section<Laid>, content: &Content) -> u64
    ensures { result ≡ spec.item_value at.entry.symbols.now at.entry.sections.now section.now
        content.now }
{
    let Some(index) = content.field() else {
        return 0;
    };
    match section.fields().get(index) {
        Some(field) => held_value(at.symbols, at.sections, field).unwrap_or(0),
        None => 0,
    }
}

/// The plain bytes with the bytes of the items of this section between them.
#[tactic(auto, unfolding(crate::specs::Contents::interleaved))]
fn interleaved(
    alloc: Global,
    at: Placement,
    section: &Section<Laid>,
    bytes: Vec<u8>,
) -> Result<Mixed, AllocError>
    requires { length bytes.items ≡ length section.now.bytes }
    ensures { IfOk result (λ all. mixed_bytes all ≡ spec.interleaved
        (spec.item_bytes at.entry.symbols.now at.entry.sections.now section.now) bytes.items 0
        section.now.items) }
{
    let items = section.items();
    let mut mixing = Mixing::new(alloc, bytes.len().saturating_add(8 * items.len()))?;
    let mut upto = 0;
    for item in items {
        let next = upto.max(item.offset);
        mixing.hold(&bytes[upto..next])?;
        upto = next;
        let value = item_value(at, section, &item.content);
        put_bytes(&item.content, item.size, value, &mut mixing)?;
    }
    mixing.hold(&bytes[upto..])?;
    Ok(mixing.into_mixed())
}

/// Whether no item but one run is there, so that the plain bytes are all.
fn is_one_run(items: &[Frag<Laid>]) -> bool
    ensures { result ≡ spec.is_one_run items.now }
{
    match items {
        [] => true,
        [item] => item.content.is_run(),
        _ => false,
    }
}

/// What a section holds that has these plain bytes.
fn with_items(
    alloc: Global,
    at: Placement,
    section: &Section<Laid>,
    bytes: Vec<u8>,
) -> Result<Body, AllocError>
    requires { length bytes.items ≡ length section.now.bytes }
    ensures { IfOk result (λ body. content_view body ≡ stored (spec.interleaved
        (spec.item_bytes at.entry.symbols.now at.entry.sections.now section.now) bytes.items 0
        section.now.items)) }
{
    if is_one_run(section.items()) {
        return Ok(Body::Bytes(bytes));
    }
    Ok(Body::Mixed(interleaved(alloc, at, section, bytes)?))
}

/// A section of the source with what it holds, and its relocations.
#[derive(Drop)]
pub(crate) struct HeldSection<'a> {
    pub(crate) source: &'a Section<Laid>,
    pub(crate) body: Body,
    pub(crate) relocations: Vec<Relocation>,
}

/// The section of this number with what it holds; one that takes no bytes in the file has a size
/// alone.
#[tactic(auto, unfolding(crate::specs::Contents::section_bytes, crate::specs::Faults::fields_fault, crate::specs::Views::held_entry))]
fn held_section<'a>(
    alloc: Global,
    at: Placement,
    number: usize,
    section: &'a Section<Laid>,
) -> Result<HeldSection<'a>, ObjectFault>
    ensures entry { IfOk result (λ held. held_entry held
        ≡ source_section at.entry.symbols.now at.entry.sections.now section.now) }
    ensures source { IfOk result (λ held. source_of held ≡ section.now) }
    ensures relocations { IfOk result (λ held. relocations_in held
        ≡ spec.section_relocations at.entry.symbols.now at.entry.sections.now number section.now) }
    ensures whole { OnOk result (field_fault_in at.entry.symbols.now at.entry.sections.now number
        section.now ≡ None) }
    ensures err { IfErr result
        (λ fault. IsDue fault (field_fault_in at.entry.symbols.now at.entry.sections.now number
        section.now)) }
{
    if section.kind() == SHT_NOBITS {
        return Ok(HeldSection {
            source: section,
            body: Body::NoBits(section_size(section)),
            relocations: Vec::new(alloc),
        });
    }
    let Filed {
        bytes,
        mut relocations,
    } = file_fields(alloc, at, number, section)?;
    // Most fields have values and leave no relocation: their room is given back before the object takes some.
    relocations.shrink_to_fit();
    Ok(HeldSection {
        source: section,
        body: with_items(alloc, at, section, bytes)?,
        relocations,
    })
}

/// All sections with what they hold.
pub(crate) fn held_sections<'a>(
    alloc: Global,
    at: Placement<'a>,
) -> Result<Vec<HeldSection<'a>>, ObjectFault>
    ensures entries { IfOk result (λ held. map held_entry held.items
        ≡ map (source_section at.entry.symbols.now at.entry.sections.now) at.entry.sections.now) }
    ensures flagged { OnOk result (All IsFlagged at.entry.sections.now) }
    ensures sources { IfOk result (λ held. map source_of held.items
        ≡ at.entry.sections.now) }
    ensures relocations { IfOk result (λ held. map relocations_in held.items
        ≡ spec.relocations_of at.entry.symbols.now at.entry.sections.now) }
    ensures whole { OnOk result (field_fault_from at.entry.symbols.now at.entry.sections.now 0
        at.entry.sections.now ≡ None) }
    ensures err { IfErr result
        (λ fault. IsDue fault (field_fault_from at.entry.symbols.now at.entry.sections.now 0
        at.entry.sections.now)) }
{
    let sections = at.sections.as_slice();
    let mut held = Vec::with_capacity(alloc, sections.len())?;
    for (number, section) in sections.iter().enumerate() {
        held.push(held_section(alloc, at, number, section)?)?;
    }
    Ok(held)
}
