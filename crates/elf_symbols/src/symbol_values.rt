//! Where symbols stand at the end, and how they are bound (gABI, chapter 4, "Symbol Table").

ghost use Rattle.std.specs.Prelude.{◌≡◌, IfOk};
ghost use Rattle.asm_expr.specs.Knowledge.{told_by};
ghost use Rattle.assigned_forms.specs.Expanding.{AreExpansions};
ghost use Rattle.asm_relax.specs.Final.{field_value};
ghost use Rattle.elf_symbols.specs.FileLocals.{is_file_local};
ghost use Rattle.elf_symbols.specs.SymbolValues as spec;

use asm_base::NoMemory;
use asm_expr::{Known, Linear, Look, Name};
use asm_frags::{Laid, Section, SectionFlags, Sections};
use asm_relax::{FinalView, address_of, end_value, final_form};
use asm_symbols::{Binding, Meaning, Spot, Symbols};
use assigned_forms::Expansions;
use bitflags::Flags;
use std::alloc::Global;

/// What values are made of: the symbols, and the sections with the addresses of their items.
#[derive(Clone, Copy)]
pub struct Placement<'a> {
    pub symbols: &'a Symbols,
    pub sections: &'a Sections<Laid>,
}

/// What a symbol's value counts from.
#[derive(Clone, Copy)]
pub enum SymbolSection {
    /// Another object defines it.
    Undefined,
    /// The value is a number.
    Absolute,
    /// The linker finds space for it; the value is its alignment.
    Common,
    /// The section of this number.
    InSection(u64),
    /// The group of this index.
    InGroup(u32),
}

/// Where a symbol stands: `st_shndx` and `st_value`.
#[derive(Clone, Copy)]
pub struct SymbolValue {
    pub section: SymbolSection,
    pub value: u64,
}

/// A label and a number.
fn label_value(look: Look, more: u64) -> Option<SymbolValue>
    ensures { result ≡ spec.label_value (told_by look.entry) more }
{
    match look {
        Look::Label { stretch, at } => Some(SymbolValue {
            section: SymbolSection::InSection(stretch),
            value: at.wrapping_add(more),
        }),
        _ => None,
    }
}

/// What a form stands for at the end: a number, or a label and a number.
fn final_value(at: Placement, form: &Linear) -> Option<SymbolValue>
    ensures { result ≡ spec.final_value at.entry.symbols.now at.entry.sections.now form.now }
{
    match form.terms() {
        [] => Some(SymbolValue {
            section: SymbolSection::Absolute,
            value: form.constant(),
        }),
        [term] if term.coefficient == 1 => {
            let view = FinalView {
                symbols: at.symbols,
                sections: at.sections,
            };
            label_value(view.look(term.symbol), form.constant())
        }
        _ => None,
    }
}

/// Where a place of the source stands.
fn spot_value(at: Placement, spot: Spot) -> SymbolValue
    ensures { result ≡ spec.spot_value at.entry.sections.now spot }
{
    SymbolValue {
        section: SymbolSection::InSection(u64::from(spot.place.section)),
        value: address_of(
            at.sections,
            spot.place.section,
            spot.place.place.item,
            spot.place.place.offset,
        ),
    }
}

/// Where a symbol stands, by what it is.
pub(crate) fn symbol_value_of(
    alloc: Global,
    at: Placement,
    expansions: &Expansions,
    meaning: &Meaning,
) -> Result<Option<SymbolValue>, NoMemory>
    requires { AreExpansions at.symbols.now expansions.now }
    ensures { IfOk result (λ there. there
        ≡ spec.symbol_value_of at.entry.symbols.now at.entry.sections.now meaning.now) }
{
    match meaning {
        Meaning::Undefined => Ok(Some(SymbolValue {
            section: SymbolSection::Undefined,
            value: 0,
        })),
        Meaning::Label(spot) | Meaning::Space(spot) => Ok(Some(spot_value(at, *spot))),
        Meaning::Common { align, .. } => Ok(Some(SymbolValue {
            section: SymbolSection::Common,
            value: *align,
        })),
        Meaning::Assigned(form) => {
            let made = final_form(alloc, expansions, at.symbols, at.sections, form.as_form())?;
            Ok(final_value(at, &made))
        }
    }
}

/// The value of a size, if it has one.
pub fn size_value(
    alloc: Global,
    at: Placement,
    expansions: &Expansions,
    size: &Linear,
) -> Result<Option<u64>, NoMemory>
    requires { AreExpansions at.symbols.now expansions.now }
    ensures { IfOk result (λ value. value
        ≡ field_value at.entry.symbols.now at.entry.sections.now size.now) }
{
    end_value(alloc, expansions, at.symbols, at.sections, size)
}

/// A symbol for which the linker finds a place is weak where that is said, and else global.
fn linked_binding(said: Option<Binding>) -> Binding
    ensures { result ≡ spec.linked_binding said }
{
    match said {
        Some(Binding::Weak) => Binding::Weak,
        _ => Binding::Global,
    }
}

/// A symbol that stands in this object is local where nothing is said.
pub fn binding_of(meaning: &Meaning, said: Option<Binding>) -> Binding
    ensures { result ≡ spec.binding_of meaning.now said }
{
    match meaning {
        Meaning::Undefined | Meaning::Common { .. } => linked_binding(said),
        Meaning::Label(_) | Meaning::Space(_) | Meaning::Assigned(_) => {
            said.unwrap_or(Binding::Local)
        }
    }
}

pub fn is_local(binding: Binding) -> bool
    ensures { result ≡ spec.is_local binding }
{
    matches!(binding, Binding::Local)
}

/// Whether the section has the flag.
pub fn has_flag(section: &Section<Laid>, flag: SectionFlags) -> bool
    ensures { result ≡ spec.has_flag flag.0 section.now }
{
    section.flags().contains(flag)
}

/// Whether a symbol that stands there is each thread's own.
pub(crate) fn is_thread_local(sections: &Sections<Laid>, section: SymbolSection) -> bool
    ensures { result ≡ spec.is_thread_local sections.now section }
{
    match section {
        SymbolSection::InSection(number) => match sections.as_slice().get(number as usize) {
            Some(section) => has_flag(section, SectionFlags::TLS),
            None => false,
        },
        _ => false,
    }
}

/// Whether the name is local to the file.
pub fn is_file_local(name: &Name) -> bool
    ensures { result ≡ is_file_local name.now }
{
    match name {
        Name::Plain(text) => text.as_bytes().starts_with(b".L"),
        _ => true,
    }
}
