//! What relocations refer to: the forms of fields that the linker can work out.

ghost use Rattle.std.specs.Prelude.{◌≡◌, None, IfOk};
ghost use Rattle.asm_expr.specs.Knowledge.{told_by};
ghost use Rattle.asm_expr.specs.Settled.{settled};
ghost use Rattle.asm_relax.specs.FieldValues.{held_value};
ghost use Rattle.elf_object.specs.Relocations as spec;

use crate::relocations::{Relocation, kind_for};
use asm_base::NoMemory;
use asm_expr::{Linear, Look, SymId, Term, copied_form, settled};
use asm_frags::{Field, Laid, Section, SectionFlags};
use asm_relax::{FieldView, address_in, address_of, counted, look_beside};
use asm_symbols::{Meaning, Spot, Symbol};
use elf_symbols::{Placement, Target, binding_of, has_flag, is_local};
use item_rows::is_suffixed;
use std::alloc::{AllocError, Global};

/// What a relocation names for a symbol, and what that lacks of the symbol's address.
#[derive(Clone, Copy)]
pub struct SymbolReference {
    pub target: Target,
    pub addend: u64,
    /// Whether the symbol is local.
    pub local: bool,
}

/// S + A, or, where it is relative, S + A - P.
#[derive(Clone, Copy)]
pub struct Reference {
    pub target: Target,
    pub relative: bool,
    /// Whether the symbol is local.
    pub local: bool,
    pub addend: u64,
}

/// A local symbol is named by its section, unless the linker may move what stands there, or is asked
/// for something of the symbol itself.
#[inline(always)]
fn label_reference(
    at: Placement,
    itself: bool,
    index: usize,
    local: bool,
    spot: Spot,
) -> Option<SymbolReference>
    ensures { result ≡ spec.label_reference itself at.entry.sections.now index local spot }
{
    match at.sections.as_slice().get(spot.place.section as usize) {
        Some(section) => {
            if local && !(itself || has_flag(section, SectionFlags::MERGE)) {
                Some(SymbolReference {
                    target: Target::OfSection(spot.place.section as usize),
                    addend: address_of(
                        at.sections,
                        spot.place.section,
                        spot.place.place.item,
                        spot.place.place.offset,
                    ),
                    local,
                })
            } else {
                Some(SymbolReference {
                    target: Target::OfSymbol(index),
                    addend: 0,
                    local,
                })
            }
        }
        None => None,
    }
}

/// What a relocation names for the symbol at this index. An assigned one is a weak alias.
#[inline(always)]
fn reference_at(
    at: Placement,
    itself: bool,
    index: usize,
    symbol: &Symbol,
) -> Option<SymbolReference>
    ensures { result ≡ spec.reference_at itself at.entry.sections.now index symbol.now }
{
    let local = is_local(binding_of(&symbol.meaning, symbol.binding));
    match &symbol.meaning {
        Meaning::Undefined | Meaning::Common { .. } => Some(SymbolReference {
            target: Target::OfSymbol(index),
            addend: 0,
            local,
        }),
        Meaning::Label(spot) | Meaning::Space(spot) => {
            label_reference(at, itself, index, local, *spot)
        },
        Meaning::Assigned(_) if local => None,
        Meaning::Assigned(_) => Some(SymbolReference {
            target: Target::OfSymbol(index),
            addend: 0,
            local,
        }),
    }
}

/// What a relocation of the field names for this symbol, if it is there. A suffix asks for something
/// of the symbol itself.
#[inline(always)]
#[tactic(auto, unfolding(crate::specs::Relocations::reference_found))]
fn reference_found(at: Placement, field: &Field, id: SymId) -> Option<SymbolReference>
    ensures { result ≡ spec.reference_found at.entry.symbols.now at.entry.sections.now field.now id }
{
    let index = id.index() as usize;
    match at.symbols.as_slice().get(index) {
        Some(symbol) => reference_at(at, is_suffixed(field.role.suffix), index, symbol),
        None => None,
    }
}

/// The address of a label of this section.
#[inline(always)]
fn own_address(section: usize, look: Look) -> Option<u64>
    ensures { result ≡ spec.own_address section (told_by look.entry) }
{
    match look {
        Look::Label { stretch, at } if stretch == section as u64 => Some(at),
        _ => None,
    }
}

/// The reference to a symbol or section, with a number added.
#[inline(always)]
fn reference_to(relative: bool, number: u64, to: SymbolReference) -> Reference
    ensures { result ≡ spec.reference relative number to }
{
    Reference {
        target: to.target,
        relative,
        local: to.local,
        addend: number.wrapping_add(to.addend),
    }
}

/// S + c.
#[inline(always)]
fn direct(at: Placement, field: &Field, id: SymId, number: u64) -> Option<Reference>
    ensures { result ≡ spec.direct at.entry.symbols.now at.entry.sections.now field.now id number }
{
    match reference_found(at, field, id) {
        Some(to) => Some(reference_to(false, number, to)),
        None => None,
    }
}

/// S + c - L, where L is a label of the section that the field stands in.
#[inline(always)]
fn relative(
    at: Placement,
    section: usize,
    place: u64,
    field: &Field,
    id: SymId,
    from: SymId,
    constant: u64,
) -> Option<Reference>
    ensures { result ≡ spec.relative at.entry.symbols.now at.entry.sections.now section place
        field.now id from constant }
{
    let from = look_beside(at.symbols, at.sections, field, from);
    let address = own_address(section, from)?;
    let number = constant.wrapping_add(place).wrapping_sub(address);
    match reference_found(at, field, id) {
        Some(to) => Some(reference_to(true, number, to)),
        None => None,
    }
}

/// Whether the term stands for its symbol.
fn is_plus(term: &Term) -> bool
    ensures { result ≡ spec.is_plus term.now }
{
    term.coefficient == 1
}

/// Whether the term's symbol is taken away.
fn is_minus(term: &Term) -> bool
    ensures { result ≡ spec.is_minus term.now }
{
    term.coefficient == u64::MAX
}

/// What two terms and a number refer to.
#[inline(always)]
fn pair(
    at: Placement,
    section: usize,
    place: u64,
    field: &Field,
    one: &Term,
    other: &Term,
    constant: u64,
) -> Option<Reference>
    ensures { result ≡ spec.pair at.entry.symbols.now at.entry.sections.now section place field.now
        one.now other.now constant }
{
    if is_plus(one) && is_minus(other) {
        relative(
            at,
            section,
            place,
            field,
            one.symbol,
            other.symbol,
            constant,
        )
    } else if is_minus(one) && is_plus(other) {
        relative(
            at,
            section,
            place,
            field,
            other.symbol,
            one.symbol,
            constant,
        )
    } else {
        None
    }
}

/// What is left of the form of a field, at this place of the section of this number, where a relocation can say it.
#[inline(always)]
fn reference_by(
    at: Placement,
    section: usize,
    place: u64,
    field: &Field,
    form: &Linear,
) -> Option<Reference>
    ensures { result ≡ spec.reference_of at.entry.symbols.now at.entry.sections.now section place
        field.now form.now }
{
    match form.terms() {
        [term] if is_plus(term) => direct(at, field, term.symbol, form.constant()),
        [one, other] => pair(at, section, place, field, one, other, form.constant()),
        _ => None,
    }
}

/// What is left of the form of a field in which labels may still cancel, where a relocation can say
/// it.
#[inline(never)]
fn settled_reference(
    alloc: Global,
    at: Placement,
    section: usize,
    place: u64,
    field: &Field,
) -> Result<Option<Reference>, NoMemory>
    ensures { IfOk result (λ found. found
        ≡ spec.final_reference at.entry.symbols.now at.entry.sections.now section place field.now) }
{
    let view = FieldView {
        symbols: at.symbols,
        sections: at.sections,
        field,
    };
    match settled(alloc, &view, copied_form(alloc, &field.form)?) {
        Ok(made) => Ok(reference_by(at, section, place, field, &made)),
        Err(_) => Err(AllocError),
    }
}

/// Whether no label can cancel in a form of these terms that has no value: a symbol stands alone,
/// or another one is taken away from it.
fn stays(terms: &[Term]) -> bool
    ensures { result ≡ spec.stays terms.now }
{
    match terms {
        [term] => is_plus(term),
        [one, other] => is_plus(one) && is_minus(other),
        _ => false,
    }
}

/// What is left of the form of a field that has no value, where a relocation can say it. In the
/// common cases nothing cancels, and the form is not copied.
#[tactic(auto, using(crate::proofs::KeptForms::kept))]
fn reference_of(
    alloc: Global,
    at: Placement,
    section: usize,
    place: u64,
    field: &Field,
) -> Result<Option<Reference>, NoMemory>
    requires { held_value at.symbols.now at.sections.now field.now ≡ None }
    ensures { IfOk result (λ found. found
        ≡ spec.final_reference at.entry.symbols.now at.entry.sections.now section place field.now) }
{
    if stays(field.form.terms()) {
        return Ok(reference_by(at, section, place, field, &field.form));
    }
    settled_reference(alloc, at, section, place, field)
}

/// The relocation of this field at this offset, if it has a kind. A distance counts from the end of
/// the instruction.
#[inline(always)]
fn relocation_of(place: u64, field: &Field, found: Reference) -> Option<Relocation>
    ensures { result ≡ spec.relocation place field.now found }
{
    match kind_for(found.relative, field.role, found.local, field.size) {
        Some(kind) => Some(Relocation {
            offset: place,
            kind,
            target: found.target,
            addend: counted(field.size, field.role, found.addend),
        }),
        None => None,
    }
}

/// The address of a field in its section: that of its place, or, where the field stands in an item,
/// of the last bytes of that, which end at its place.
fn field_place(section: &Section<Laid>, field: &Field) -> u64
    ensures { result ≡ spec.field_place section.now field.now }
{
    let place = address_in(section, field.item as u64, field.offset as u64);
    if field.in_item {
        place.wrapping_sub(field.size.bytes() as u64)
    } else {
        place
    }
}

/// The relocation of a field of the section of this number, which has no value.
#[tactic(auto, unfolding(crate::specs::Relocations::field_relocation))]
pub(crate) fn field_relocation(
    alloc: Global,
    at: Placement,
    number: usize,
    section: &Section<Laid>,
    field: &Field,
) -> Result<Option<Relocation>, NoMemory>
    requires { held_value at.symbols.now at.sections.now field.now ≡ None }
    ensures { IfOk result (λ found. found
        ≡ spec.field_relocation at.entry.symbols.now at.entry.sections.now number section.now
        field.now) }
{
    let place = field_place(section, field);
    match reference_of(alloc, at, number, place, field)? {
        Some(found) => Ok(relocation_of(place, field, found)),
        None => Ok(None),
    }
}
