//! Bytes up to a place (GNU as manual, ".org").

ghost use Rattle.std.specs.Prelude.{◌≡◌, map, IfSome, IsTrue, ◌≤◌, ◌^◌};
ghost use Rattle.asm_base.specs.Refusals.{GivesBy};
ghost use Rattle.asm_base.specs.Tokens.{spelled};
ghost use Rattle.asm_items.specs.Orgs as spec;
ghost use Rattle.asm_operands.specs.UpToThreeTrees.{trees_in};
ghost use Rattle.asm_values.specs.PlacedBy.{placed_by, PlacesBy};

use asm_base::{Pos, Token};
use asm_expr::{Expr, Linear, SymId};
use asm_frags::{Loose, Section, Sections};
use asm_operands::{Operands, PlaceCause, PlaceFault, UpToThree, constant_if, up_to_three_trees};
use asm_symbols::{Meaning, Spot};
use asm_uses::{Naming, up_to_three_forms};
use asm_values::Assembler;
use asm_words::org_of;

/// A place that an `.org` counts from: how many items and how many plain bytes of the section stand
/// before it.
#[derive(Clone, Copy)]
pub struct Origin {
    pub from: u32,
    pub offset: u64,
}

/// Whether so many items and so many plain bytes of the section stand before a place of it.
fn has_place(section: &Section<Loose>, item: u64, offset: u64) -> bool
    ensures value { result ≡ spec.has_place item offset section.now }
    ensures few { IsTrue result → item ≤ 2 ^ 28 }
    ensures small { IsTrue result → offset ≤ 2 ^ 33 }
{
    item <= section.items().len() as u64 && offset <= section.bytes().len() as u64
}

/// Whether the place is one of the section of this number.
#[tactic(auto, unfolding(crate::specs::Orgs::is_place_in))]
fn is_place_in(sections: &Sections, number: u32, spot: &Spot) -> bool
    ensures value { result ≡ spec.is_place_in sections.now number spot.now }
    ensures few { IsTrue result → spot.now.place.place.item ≤ 2 ^ 28 }
    ensures small { IsTrue result → spot.now.place.place.offset ≤ 2 ^ 33 }
{
    match sections.as_slice().get(number as usize) {
        Some(section) => spot.place.section == number
            && has_place(section, spot.place.place.item, spot.place.place.offset),
        None => false,
    }
}

/// The place, if it is one of the section of this number.
fn origin_at(sections: &Sections, number: u32, spot: &Spot) -> Option<Origin>
    ensures origin { result ≡ spec.origin_at sections.now number spot.now }
    ensures within { IfSome result (λ origin. origin.offset ≤ 2 ^ 33) }
{
    if is_place_in(sections, number, spot) {
        Some(Origin {
            from: spot.place.place.item as u32,
            offset: spot.place.place.offset,
        })
    } else {
        None
    }
}

/// Where a symbol of this meaning stands, if it stands in the section of this number.
fn origin_meant(sections: &Sections, number: u32, meaning: &Meaning) -> Option<Origin>
    ensures origin { result ≡ spec.origin_meant sections.now number meaning.now }
    ensures within { IfSome result (λ origin. origin.offset ≤ 2 ^ 33) }
{
    match meaning {
        Meaning::Label(spot) | Meaning::Space(spot) => origin_at(sections, number, spot),
        Meaning::Undefined | Meaning::Common { .. } | Meaning::Assigned(_) => None,
    }
}

/// The place of the statement, or that of the symbol, if it stands in the current section.
#[tactic(auto, unfolding(crate::specs::Orgs::origin_of))]
fn origin_of(assembler: &Assembler, symbol: SymId) -> Option<Origin>
    ensures origin { result ≡ spec.origin_of (placed_by assembler.now) symbol }
    ensures within { IfSome result (λ origin. origin.offset ≤ 2 ^ 33) }
{
    let view = assembler.view();
    let sections = &assembler.sections;
    if symbol.index() == view.place {
        return origin_at(sections, assembler.current, &view.spot);
    }
    match view.symbols.as_slice().get(symbol.index() as usize) {
        Some(found) => origin_meant(sections, assembler.current, &found.meaning),
        None => None,
    }
}

/// What the form counts from: the beginning of the section, or a place of it.
#[tactic(auto, unfolding(crate::specs::Orgs::origin_by))]
fn origin_by(assembler: &Assembler, form: &Linear) -> Option<Origin>
    ensures origin { result ≡ spec.origin_by (placed_by assembler.now) form.now.terms }
    ensures within { IfSome result (λ origin. origin.offset ≤ 2 ^ 33) }
{
    match form.terms() {
        [] => Some(Origin { from: 0, offset: 0 }),
        [term] if term.coefficient == 1 => origin_of(assembler, term.symbol),
        _ => None,
    }
}

/// Bytes up to the place of the first form, of the value of the second one, or zeros.
fn org_by(
    assembler: &mut Assembler,
    pos: Pos,
    naming: Naming,
    forms: &UpToThree<Linear>,
) -> Result<(), PlaceFault>
    ensures placed { PlacesBy (spec.org_by pos naming forms.now) assembler.old assembler.new result }
    ensures kept { assembler.new.notes ≡ assembler.old.notes }
{
    let Some(origin) = origin_by(assembler, &forms.first) else {
        return Err(PlaceFault::Fault(PlaceCause::ValueNotKnown));
    };
    let fill = constant_if(&forms.second)?.unwrap_or(0);
    let item = org_of(origin.from, origin.offset, forms.first.constant(), fill)?;
    assembler.push_named(pos, naming, item)
}

/// The same by expressions whose names have symbols.
fn org_named(
    assembler: &mut Assembler,
    pos: Pos,
    exprs: &UpToThree<Expr>,
    naming: Naming,
) -> Result<(), PlaceFault>
    ensures placed { PlacesBy (spec.org_named pos (trees_in exprs.now) naming)
        assembler.old assembler.new result }
    ensures kept { assembler.new.notes ≡ assembler.old.notes }
{
    let forms = up_to_three_forms(assembler.alloc, assembler.view(), exprs)?;
    org_by(assembler, pos, naming, &forms)
}

/// `.org`: bytes up to a place, which is a number or counts from an earlier place of the section.
#[tactic(auto, unfolding(crate::specs::Orgs::place_org))]
pub fn place_org(assembler: &mut Assembler, pos: Pos, tokens: &[Token]) -> Result<(), PlaceFault>
    ensures placed { PlacesBy (spec.place_org pos (map spelled tokens.now))
        assembler.old assembler.new result }
    ensures kept { assembler.new.notes ≡ assembler.old.notes }
{
    let exprs = up_to_three_trees(assembler.alloc, 2, &mut Operands::new(tokens))?;
    let naming = assembler.table.intern_up_to_three(pos, &exprs)?;
    org_named(assembler, pos, &exprs, naming)
}
