//! The values of fields in a layout.

ghost use Rattle.std.specs.Prelude.{◌≡◌, ◌==◌, [], ◌∷◌, true, false, IfSome, IsTrue, Some, is_some, slice_get};
ghost use Rattle.asm_expr.specs.Forms.{is_kept};
ghost use Rattle.asm_expr.specs.Knowledge.{label, told_by};
ghost use Rattle.asm_expr.specs.Settled.{constant_left, settled};
ghost use Rattle.item_rows.specs.Links.{is_linked};
ghost use Rattle.asm_relax.specs.FieldValues.{field_address, place_label, place_told, told_beside, told_in_field, counted_bytes, counted, held_value, IsNearPair};
ghost use Rattle.asm_relax.specs.Final.{address_of, final_meaning, final_told, spot_told};
ghost use Rattle.asm_relax.specs.Settling.{LaidSections};

use crate::finals::{beside_label, cannot_cancel, constant_left, final_look};
use crate::places::{address_in, address_of};
use asm_expr::{Known, Linear, Look, SymId, Term, Written, settled_value};
use asm_frags::{Field, FieldRole, FieldSize, Laid, Section, Sections, own_place};
use asm_symbols::{Meaning, Spot, Symbols};
use item_rows::{is_linked, is_linked_pair};

/// What symbols are known as in the form of a field.
#[derive(Clone, Copy)]
pub struct FieldView<'a> {
    pub symbols: &'a Symbols,
    pub sections: &'a Sections<Laid>,
    pub field: &'a Field,
}

/// The address of a field: that of its place, or, where the field stands in an item, of the last
/// bytes of that, which end at its place.
#[inline(always)]
pub fn field_address(sections: &Sections<Laid>, field: &Field) -> u64
    ensures { result ≡ field_address sections.now field.now }
{
    let place = address_of(
        sections,
        field.section,
        u64::from(field.item),
        field.offset as u64,
    );
    if field.in_item {
        place.wrapping_sub(field.size.bytes() as u64)
    } else {
        place
    }
}

/// The place of a field, as a label of its section.
#[inline(always)]
fn place_label<'a>(sections: &Sections<Laid>, field: &Field) -> Look<'a>
    ensures { told_by result ≡ place_label sections.now field.now }
{
    Look::Label {
        stretch: u64::from(field.section),
        at: field_address(sections, field),
    }
}

/// What the place of a field is known as.
#[inline(never)]
fn place_look<'a>(symbols: &Symbols, sections: &Sections<Laid>, field: &Field) -> Look<'a>
    ensures { told_by result ≡ place_told symbols.now sections.now field.now }
{
    if is_linked(symbols, field) {
        return Look::Absent;
    }
    place_label(sections, field)
}

/// What the symbol is known as where the place of the field is one of the labels.
#[tactic(auto, unfolding(crate::specs::FieldValues::told_beside))]
pub fn look_beside<'a>(
    symbols: &Symbols,
    sections: &Sections<Laid>,
    field: &Field,
    symbol: SymId,
) -> Look<'a>
    ensures { told_by result ≡ told_beside symbols.now sections.now field.now symbol }
{
    if symbol.index() == own_place().index() {
        return place_label(sections, field);
    }
    final_look(symbols, sections, symbol)
}

impl Known for FieldView<'_> {
    ghost use Rattle.asm_relax.specs.FieldValues.{told_in_field};

    ghost told = { λ view symbol. told_in_field view.symbols.now view.sections.now view.field.now symbol };

    ghost meant = { λ _ _. 0 };

    ghost place = { λ _. 0 };

    #[tactic(auto, unfolding(crate::specs::FieldValues::told_in_field))]
    fn look(&self, symbol: SymId) -> Look<'_> {
        if symbol.index() == own_place().index() {
            return place_look(self.symbols, self.sections, self.field);
        }
        final_look(self.symbols, self.sections, symbol)
    }

    fn symbol(&self, _written: &Written) -> SymId {
        SymId::new(0)
    }

    fn here(&self) -> SymId {
        SymId::new(0)
    }
}

/// How many bytes stand from a field to what its value counts from.
#[inline(always)]
fn counted_bytes(size: FieldSize, role: FieldRole) -> u64
    ensures { result ≡ counted_bytes size role }
{
    if role.is_distance() {
        size.bytes() as u64 + u64::from(role.behind)
    } else {
        0
    }
}

/// A value less what the field's kind counts from.
#[inline(always)]
pub fn counted(size: FieldSize, role: FieldRole, value: u64) -> u64
    ensures { result ≡ counted size role value }
{
    if role.is_distance() {
        value.wrapping_sub(counted_bytes(size, role))
    } else {
        value
    }
}

/// The value of the form of a field that has many terms.
#[inline(never)]
fn many_in_field(symbols: &Symbols, sections: &Sections<Laid>, field: &Field) -> Option<u64>
    ensures { result ≡ constant_left (settled (told_in_field symbols.now sections.now field.now)
        field.now.form) }
{
    let view = FieldView {
        symbols,
        sections,
        field,
    };
    settled_value(&view, &field.form)
}

/// What the place of a field is known as whose form has these two terms.
#[inline(always)]
fn place_beside<'a>(
    symbols: &Symbols,
    sections: &Sections<Laid>,
    field: &Field,
    one: &Term,
    other: &Term,
) -> Look<'a>
    requires { field.now.form.terms ≡ one.now ∷ other.now ∷ [] }
    ensures { told_by result ≡ place_told symbols.now sections.now field.now }
{
    if is_linked_pair(symbols, field, one, other) {
        return Look::Absent;
    }
    place_label(sections, field)
}

/// What the symbol is known as in the form of a field that has these two terms.
#[tactic(auto, unfolding(crate::specs::FieldValues::told_in_field))]
#[inline(always)]
fn look_in_pair<'a>(
    symbols: &Symbols,
    sections: &Sections<Laid>,
    field: &Field,
    one: &Term,
    other: &Term,
    symbol: SymId,
) -> Look<'a>
    requires { field.now.form.terms ≡ one.now ∷ other.now ∷ [] }
    ensures { told_by result ≡ told_in_field symbols.now sections.now field.now symbol }
{
    if symbol.index() == own_place().index() {
        return place_beside(symbols, sections, field, one, other);
    }
    final_look(symbols, sections, symbol)
}

/// Whether the terms are a symbol less the place of the field, which cancel in one section.
#[inline(always)]
pub(crate) fn is_near_pair(symbols: &Symbols, field: &Field, one: &Term, other: &Term) -> bool
    requires { field.now.form.terms ≡ one.now ∷ other.now ∷ [] }
    ensures { result ≡ true → IsNearPair symbols.now field.now one.now other.now }
{
    one.coefficient == 1
        && other.coefficient == u64::MAX
        && one.symbol.index() != own_place().index()
        && other.symbol.index() == own_place().index()
        && !is_linked_pair(symbols, field, one, other)
}

/// Where a symbol of this meaning stands.
#[inline(always)]
fn spot_of(meaning: &Meaning) -> Option<Spot>
    ensures { IfSome result (λ spot. (sections : LaidSections)
        → final_meaning sections meaning.now ≡ spot_told sections spot) }
{
    match meaning {
        Meaning::Label(spot) | Meaning::Space(spot) => Some(*spot),
        Meaning::Undefined | Meaning::Common { .. } | Meaning::Assigned(_) => None,
    }
}

/// Where the symbol stands, if that is in this section.
#[inline(always)]
#[tactic(auto, unfolding(crate::specs::Final::final_told))]
pub(crate) fn spot_within(symbols: &Symbols, section: u32, symbol: SymId) -> Option<Spot>
    ensures { IfSome result (λ spot. (sections : LaidSections) → final_told symbols.now sections symbol
        ≡ label section (address_of sections section spot.place.place.item spot.place.place.offset)) }
{
    let found = symbols.as_slice().get(symbol.index() as usize)?;
    let spot = spot_of(&found.meaning)?;
    if spot.place.section != section {
        return None;
    }
    Some(spot)
}

/// The address of a field of this section, which has the number that the field says.
#[inline(always)]
#[tactic(auto, unfolding(crate::specs::Final::address_of))]
fn address_within(section: &Section<Laid>, field: &Field) -> u64
    ensures { (sections : LaidSections) → slice_get sections field.now.section ≡ Some section.now
        → result ≡ field_address sections field.now }
{
    let place = address_in(section, u64::from(field.item), field.offset as u64);
    if field.in_item {
        place.wrapping_sub(field.size.bytes() as u64)
    } else {
        place
    }
}

/// The value of the form of a field that has these two terms, if they are a symbol of its section less its place: the
/// short way for jumps, on which the symbol and the section are looked up once.
#[inline(always)]
fn near_value(
    symbols: &Symbols,
    sections: &Sections<Laid>,
    field: &Field,
    one: &Term,
    other: &Term,
) -> Option<u64>
    requires terms { field.now.form.terms ≡ one.now ∷ other.now ∷ [] }
    requires kept { IsTrue (is_kept one.now) }
    ensures { IfSome result (λ value. Some value
        ≡ constant_left (settled (told_in_field symbols.now sections.now field.now) field.now.form)) }
{
    if !is_near_pair(symbols, field, one, other) {
        return None;
    }
    let spot = spot_within(symbols, field.section, one.symbol)?;
    let section = sections.as_slice().get(field.section as usize)?;
    let at = address_in(section, spot.place.place.item, spot.place.place.offset);
    let known = Look::Label {
        stretch: u64::from(field.section),
        at: address_within(section, field),
    };
    let (number, count, others) = (field.form.constant(), one.coefficient, other.coefficient);
    beside_label(number, count, at, u64::from(field.section), others, known)
}

/// The value of the form of a field that has these two terms.
#[inline(always)]
fn pair_in_field(
    symbols: &Symbols,
    sections: &Sections<Laid>,
    field: &Field,
    one: &Term,
    other: &Term,
) -> Option<u64>
    requires terms { field.now.form.terms ≡ one.now ∷ other.now ∷ [] }
    requires kept { IsTrue (is_kept one.now) }
    ensures { result ≡ constant_left (settled (told_in_field symbols.now sections.now field.now)
        field.now.form) }
{
    match near_value(symbols, sections, field, one, other) {
        Some(value) => Some(value),
        None => any_pair_in_field(symbols, sections, field, one, other),
    }
}

/// The same, where the terms are any two.
#[inline(never)]
fn any_pair_in_field(
    symbols: &Symbols,
    sections: &Sections<Laid>,
    field: &Field,
    one: &Term,
    other: &Term,
) -> Option<u64>
    requires terms { field.now.form.terms ≡ one.now ∷ other.now ∷ [] }
    requires kept { IsTrue (is_kept one.now) }
    ensures { result ≡ constant_left (settled (told_in_field symbols.now sections.now field.now)
        field.now.form) }
{
    match look_in_pair(symbols, sections, field, one, other, one.symbol) {
        Look::Label { stretch, at } => {
            let known = look_in_pair(symbols, sections, field, one, other, other.symbol);
            let (count, others) = (one.coefficient, other.coefficient);
            beside_label(field.form.constant(), count, at, stretch, others, known)
        }
        _ => None,
    }
}

/// The value of the form of a field, where all of its symbols cancel. It does not look at a symbol
/// that stands alone, which never cancels.
#[inline(always)]
fn form_value(symbols: &Symbols, sections: &Sections<Laid>, field: &Field) -> Option<u64>
    ensures { result ≡ constant_left (settled (told_in_field symbols.now sections.now field.now)
        field.now.form) }
{
    let terms = field.form.terms();
    if let [one, other] = terms {
        return pair_in_field(symbols, sections, field, one, other);
    }
    if cannot_cancel(terms) {
        return constant_left(&field.form);
    }
    many_in_field(symbols, sections, field)
}

/// The value in a layout of a field whose form is expanded, where all of its symbols cancel. It
/// takes no memory.
#[tactic(auto, unfolding(crate::specs::FieldValues::held_value))]
#[inline(always)]
pub fn held_value(symbols: &Symbols, sections: &Sections<Laid>, field: &Field) -> Option<u64>
    ensures { result ≡ held_value symbols.now sections.now field.now }
{
    match form_value(symbols, sections, field) {
        Some(value) => Some(counted(field.size, field.role, value)),
        None => None,
    }
}

/// Whether the field has a value in a layout: the same, of which no address is worked out.
#[inline(always)]
pub fn has_value(symbols: &Symbols, sections: &Sections<Laid>, field: &Field) -> bool
    ensures { result ≡ is_some (held_value symbols.now sections.now field.now) }
{
    held_value(symbols, sections, field).is_some()
}
