//! The meaning of symbols and the values of forms at the addresses of a layout.

ghost use Rattle.std.specs.Prelude.{◌≡◌, [], ◌∷◌, IfOk, IsTrue};
ghost use Rattle.asm_expr.specs.Forms.{is_kept};
ghost use Rattle.asm_expr.specs.Knowledge.{told_by};
ghost use Rattle.asm_expr.specs.Settled.{cannot_cancel, constant_left};
ghost use Rattle.assigned_forms.specs.Expanding.{AreExpansions};
ghost use Rattle.asm_relax.specs.Final.{spot_told, final_meaning, final_told, final_form, beside_label, laid_value, field_value};

use crate::places::address_of;
use asm_base::NoMemory;
use asm_expr::{Known, Linear, Look, SymId, Term, Written, copied_form, settled, settled_value};
use asm_frags::{Laid, Sections};
use asm_symbols::{Meaning, Spot, Symbols};
use assigned_forms::{Expansions, expansions_are_exact};
use std::alloc::{AllocError, Global};

/// What the symbols are known as in a layout.
#[derive(Clone, Copy)]
pub struct FinalView<'a> {
    pub symbols: &'a Symbols,
    pub sections: &'a Sections<Laid>,
}

/// A place, known as a label of its section at its address.
fn spot_look<'a>(sections: &Sections<Laid>, spot: &Spot) -> Look<'a>
    ensures { told_by result ≡ spot_told sections.now spot.now }
{
    Look::Label {
        stretch: u64::from(spot.place.section),
        at: address_of(
            sections,
            spot.place.section,
            spot.place.place.item,
            spot.place.place.offset,
        ),
    }
}

/// What a symbol of this meaning is known as.
fn look_of<'a>(sections: &Sections<Laid>, meaning: &Meaning) -> Look<'a>
    ensures { told_by result ≡ final_meaning sections.now meaning.now }
{
    match meaning {
        Meaning::Label(spot) | Meaning::Space(spot) => spot_look(sections, spot),
        Meaning::Undefined | Meaning::Common { .. } | Meaning::Assigned(_) => Look::Absent,
    }
}

/// What the symbol is known as.
#[tactic(auto, unfolding(crate::specs::Final::final_told))]
pub(crate) fn final_look<'a>(
    symbols: &Symbols,
    sections: &Sections<Laid>,
    symbol: SymId,
) -> Look<'a>
    ensures { told_by result ≡ final_told symbols.now sections.now symbol }
{
    match symbols.as_slice().get(symbol.index() as usize) {
        Some(found) => look_of(sections, &found.meaning),
        None => Look::Absent,
    }
}

impl Known for FinalView<'_> {
    ghost use Rattle.asm_relax.specs.Final.{final_told};

    ghost told = { λ view symbol. final_told view.symbols.now view.sections.now symbol };

    ghost meant = { λ _ _. 0 };

    ghost place = { λ _. 0 };

    fn look(&self, symbol: SymId) -> Look<'_> {
        final_look(self.symbols, self.sections, symbol)
    }

    fn symbol(&self, _written: &Written) -> SymId {
        SymId::new(0)
    }

    fn here(&self) -> SymId {
        SymId::new(0)
    }
}

/// The form in a layout: assigned symbols are expanded, and labels of one section that cancel are replaced by their
/// addresses.
#[tactic(auto, unfolding(crate::specs::Final::final_form))]
pub fn final_form(
    alloc: Global,
    expansions: &Expansions,
    symbols: &Symbols,
    sections: &Sections<Laid>,
    form: &Linear,
) -> Result<Linear, NoMemory>
    requires { AreExpansions symbols.now expansions.now }
    ensures { IfOk result (λ made. made ≡ final_form symbols.now sections.now form.now) }
{
    let known = FinalView { symbols, sections };
    let mut expanded = copied_form(alloc, form)?;
    expansions.expand(alloc, symbols, &mut expanded)?;
    match settled(alloc, &known, expanded) {
        Ok(made) => Ok(made),
        Err(_) => Err(AllocError),
    }
}

/// The value of a number, a label that counts so often, and another symbol that is known as this and counts so often:
/// both cancel where that is a label of the same stretch, and the one counts as often as minus the other.
#[inline(always)]
pub(crate) fn beside_label(
    number: u64,
    count: u64,
    at: u64,
    stretch: u64,
    other: u64,
    known: Look,
) -> Option<u64>
    ensures { result ≡ beside_label number count at stretch other (told_by known.entry) }
{
    let Look::Label {
        stretch: others,
        at: origin,
    } = known
    else {
        return None;
    };
    if others != stretch || count.wrapping_add(other) != 0 {
        return None;
    }
    let first = number.wrapping_add(count.wrapping_mul(at));
    Some(first.wrapping_add(other.wrapping_mul(origin)))
}

/// The value in a layout of a form of these two terms.
fn pair_value(
    symbols: &Symbols,
    sections: &Sections<Laid>,
    form: &Linear,
    one: &Term,
    other: &Term,
) -> Option<u64>
    requires terms { form.now.terms ≡ one.now ∷ other.now ∷ [] }
    requires kept { IsTrue (is_kept one.now) }
    ensures { result ≡ laid_value symbols.now sections.now form.now }
{
    match final_look(symbols, sections, one.symbol) {
        Look::Label { stretch, at } => {
            let known = final_look(symbols, sections, other.symbol);
            let (count, others) = (one.coefficient, other.coefficient);
            beside_label(form.constant(), count, at, stretch, others, known)
        }
        _ => None,
    }
}

/// The value in a layout of a form of many terms.
#[tactic(auto, unfolding(crate::specs::Final::laid_value))]
#[inline(never)]
fn many_value(symbols: &Symbols, sections: &Sections<Laid>, form: &Linear) -> Option<u64>
    ensures { result ≡ laid_value symbols.now sections.now form.now }
{
    settled_value(&FinalView { symbols, sections }, form)
}

/// Whether nothing can cancel in the terms: there is none, or one that counts.
pub(crate) fn cannot_cancel(terms: &[Term]) -> bool
    ensures { result ≡ cannot_cancel terms.now }
{
    match terms {
        [] => true,
        [only] => only.coefficient != 0,
        _ => false,
    }
}

/// The constant of a form, if no symbol is left in it.
pub(crate) fn constant_left(form: &Linear) -> Option<u64>
    ensures { result ≡ constant_left form.now }
{
    if form.terms().is_empty() {
        Some(form.constant())
    } else {
        None
    }
}

/// The value in a layout of an expanded form, where all of its symbols cancel. It takes no memory, and does not look
/// at a symbol that stands alone, which never cancels.
#[tactic(auto, unfolding(crate::specs::Final::laid_value))]
pub fn laid_value(symbols: &Symbols, sections: &Sections<Laid>, form: &Linear) -> Option<u64>
    ensures { result ≡ laid_value symbols.now sections.now form.now }
{
    let terms = form.terms();
    if let [one, other] = terms {
        return pair_value(symbols, sections, form, one, other);
    }
    if cannot_cancel(terms) {
        return constant_left(form);
    }
    many_value(symbols, sections, form)
}

/// The value of a form at the end, where it has one: assigned symbols are expanded in it. A number
/// is not copied.
pub fn end_value(
    alloc: Global,
    expansions: &Expansions,
    symbols: &Symbols,
    sections: &Sections<Laid>,
    form: &Linear,
) -> Result<Option<u64>, NoMemory>
    requires { AreExpansions symbols.now expansions.now }
    ensures { IfOk result (λ value. value
        ≡ field_value symbols.now sections.now form.now) }
{
    expansions_are_exact();
    let [_, ..] = form.terms() else {
        return Ok(laid_value(symbols, sections, form));
    };
    let mut expanded = copied_form(alloc, form)?;
    expansions.expand(alloc, symbols, &mut expanded)?;
    Ok(laid_value(symbols, sections, &expanded))
}
