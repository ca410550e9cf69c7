//! The object of sections and symbols.

ghost use Rattle.std.specs.Prelude.{◌≡◌, All, map, IfOk, OnOk};
ghost use Rattle.asm_frags.specs.Groups.{IsFlagged};
ghost use Rattle.asm_base.specs.Refusals.{Returns};
ghost use Rattle.assigned_forms.specs.Expanding.{AreExpansions};
ghost use Rattle.elf_object.specs.Image.{image_with};
ghost use Rattle.elf_object.specs.Limits.{NumbersFit, NumbersFitWith};
ghost use Rattle.elf_object.specs.Objects.{object_of};
ghost use Rattle.elf_object.specs.Sections.{source_section};
ghost use Rattle.elf_object.specs.Views.{held_entry, relocations_in, source_of};

use crate::contents::{HeldSection, held_sections};
use crate::faults::ObjectFault;
use crate::naming::named_by;
use crate::searching::{size_fault, undefined_fault};
use crate::sections::{first_header, group_sections, headers_of, put_sections};
use asm_base::{Failed, NoMemory, Output};
use asm_frags::{Laid, Sections};
use asm_symbols::Symbols;
use assigned_forms::Expansions;
use elf_file::{ElfFile, laid_file, string_section, symbol_section};
use elf_symbols::{Placement, list_symbols, symbol_table};
use std::alloc::Global;
use std::marker::Model;

/// A relocatable object file.
#[derive(Drop)]
pub struct Object {
    file: ElfFile,
}

impl Model for Object {
    ghost use Rattle.std.specs.Prelude.{ℕ, List};

    ghost Value = { List ℕ };

    ghost view = { λ o. o.file };
}

/// The file of the sections with what they hold, and the symbols.
#[tactic(auto, unfolding(crate::specs::Image::before_names, crate::specs::Image::image_with))]
fn image<'a>(
    alloc: Global,
    at: Placement<'a>,
    expansions: &Expansions,
    held: Vec<HeldSection<'a>>,
) -> Result<ElfFile, NoMemory>
    requires expanded { AreExpansions at.symbols.now expansions.now }
    requires entries { map held_entry held.items
        ≡ map (source_section at.symbols.now at.sections.now) at.sections.now }
    requires flagged { All IsFlagged at.sections.now }
    requires sources { map source_of held.items ≡ at.sections.now }
    ensures file { IfOk result (λ f. f
        ≡ image_with at.entry.symbols.now at.entry.sections.now (map relocations_in
        held.entry.items)) }
    ensures numbers { OnOk result (NumbersFitWith at.entry.symbols.now at.entry.sections.now
        (map relocations_in held.entry.items)) }
{
    let named = named_by(alloc, &held, at.symbols.len())?;
    let first = first_header(at.sections);
    let headers = headers_of(alloc, first, &held)?;
    let listing = list_symbols(alloc, at, expansions, &named)?;
    let table = symbol_table(alloc, &headers.indices, &listing.symbols)?;
    let numbers = &listing.numbers;
    let mut sections = group_sections(alloc, numbers, headers.next, first, at.sections, &held)?;
    put_sections(alloc, numbers, headers.next, first, held, &mut sections)?;
    sections.push(symbol_section(headers.next + 1, listing.first_other, table.entries))?;
    sections.push(string_section(b".strtab", table.strings))?;
    laid_file(alloc, sections)
}

/// The object of sections and symbols, or the first fault.
#[inline(never)]
#[tactic(auto, unfolding(crate::specs::Faults::object_fault, crate::specs::Image::image_of))]
fn made(alloc: Global, at: Placement) -> Result<Object, ObjectFault>
    ensures object { Returns result (object_of at.entry.symbols.now at.entry.sections.now) }
    ensures numbers { OnOk result (NumbersFit at.entry.symbols.now at.entry.sections.now) }
{
    if let Some(fault) = undefined_fault(at) {
        return Err(ObjectFault::Fault(fault));
    }
    let held = held_sections(alloc, at)?;
    let expansions = Expansions::new(alloc, at.symbols)?;
    if let Some(fault) = size_fault(alloc, at, &expansions)? {
        return Err(ObjectFault::Fault(fault));
    }
    let file = image(alloc, at, &expansions, held)?;
    Ok(Object { file })
}

impl Object {
    ghost use Rattle.std.specs.Prelude.{◌≡◌, ℕ, ◌≤◌, length, take, OnOk, option_map};
    ghost use Rattle.asm_base.specs.Counts.{HasCause};
    ghost use Rattle.asm_base.specs.Output.{after_write};
    ghost use Rattle.asm_base.specs.Refusals.{Returns};
    ghost use Rattle.elf_object.specs.Limits.{NumbersFit};
    ghost use Rattle.elf_object.specs.Objects.{object_of};

    /// The object of sections that are laid out and of their symbols, or the first fault.
    pub fn new(
        alloc: Global,
        sections: Sections<Laid>,
        symbols: &Symbols,
    ) -> Result<Object, ObjectFault>
        ensures object { Returns result (object_of symbols.now sections) }
        ensures numbers { OnOk result (NumbersFit symbols.now sections) }
    {
        let at = Placement {
            symbols,
            sections: &sections,
        };
        made(alloc, at)
    }

    /// How many bytes the file has.
    pub fn len(&self) -> u64
        ensures { result ≡ length self.now }
    {
        self.file.len()
    }

    /// Writes the bytes to the file that the output makes: all of them, or a front of them where the output fails.
    /// It takes no memory.
    pub fn write_to<O: Output>(&self, obj: &mut O) -> Result<(), Failed>
        ensures ok { OnOk result (O.made obj.new
            ≡ option_map (after_write self.now) (O.made obj.old)) }
        ensures prefix { (n : ℕ) × (n ≤ length self.now) × (O.made obj.new
            ≡ option_map (after_write (take n self.now)) (O.made obj.old)) }
        ensures cause { HasCause (O.faults obj.old) (O.faults obj.new) result }
    {
        self.file.write_to(obj)
    }
}
