//! What distances lead from and to, and the labels that name places in forms.

ghost use Rattle.std.specs.Prelude.{◌≡◌, OnOk, IfOk, IfErr};
ghost use Rattle.asm_base.specs.declared.refusals.Refusal.TheVariants.{NoMemory};
ghost use Rattle.asm_symbols.specs.Interning.{number_of};
ghost use Rattle.table_pieces.specs.Marks as spec;

use asm_base::SectionPlace;
use asm_expr::{Linear, Name, plus_times, symbol_and_number, symbol_form};
use asm_frags::{FragFault, own_place};
use asm_symbols::{Definition, Spot, SymId, Symbols};
use std::alloc::Global;

/// What a distance leads from or to.
#[derive(Clone, Copy, PartialEq, Eq, Debug)]
pub enum Mark {
    /// The place of the field itself that holds the distance.
    Here,
    /// A place of a section.
    At(SectionPlace),
}

/// How far it is from one mark to another.
#[derive(Clone, Copy, PartialEq, Eq, Debug)]
pub struct Distance {
    pub to: Mark,
    pub from: Mark,
    /// So many bytes more, modulo 2^64.
    pub plus: u64,
}

impl Distance {
    ghost use Rattle.std.specs.Prelude.{◌≡◌};

    /// The distance to one mark from another, and so many bytes more, modulo 2^64.
    pub fn new(to: Mark, from: Mark, plus: u64) -> Distance
        ensures { result ≡ record { to = to; from = from; plus = plus } }
    {
        Distance { to, from, plus }
    }
}

/// The name of a place.
fn place_name(at: SectionPlace) -> Name
    ensures { result ≡ spec.place_name at }
{
    Name::Place {
        section: at.section,
        item: at.place.item,
        offset: at.place.offset,
    }
}

/// The spot of a label that is made when all statements stand: its stretch is its own.
fn spot_of(at: SectionPlace, number: u32) -> Spot
    ensures { result ≡ spec.spot_of at number }
{
    Spot {
        place: at,
        stretch: (1 << 63) + number as u64,
        at: 0,
    }
}

/// The label of a place, which is put last if there is none. One symbol more than there may be is
/// refused as want of memory.
#[tactic(auto, using(crate::proofs::LabelLemmas::label_known, crate::proofs::LabelLemmas::label_made, crate::proofs::LabelLemmas::label_number))]
fn label(symbols: &mut Symbols, at: SectionPlace) -> Result<SymId, FragFault>
    ensures ok { OnOk result (symbols.new ≡ spec.with_label symbols.old at) }
    ensures id { IfOk result (λ id. id ≡ number_of symbols.old (spec.place_name at)) }
    ensures memory { IfErr result (λ fault. fault ≡ NoMemory) }
{
    let known = symbols.len();
    let Ok(id) = symbols.name_of(&place_name(at)) else {
        return Err(FragFault::NoMemory);
    };
    if (id.index() as usize) < known {
        return Ok(id);
    }
    match symbols.define(id, Definition::Label(spot_of(at, id.index()))) {
        Ok(()) => Ok(id),
        Err(_) => Err(FragFault::NoMemory),
    }
}

/// The form of the address of a place, which has a label from now on.
pub(crate) fn address_form(
    alloc: Global,
    symbols: &mut Symbols,
    at: SectionPlace,
) -> Result<Linear, FragFault>
    ensures ok { OnOk result (symbols.new ≡ spec.with_label symbols.old at) }
    ensures form { IfOk result (λ form. form ≡ spec.address_form symbols.old at) }
    ensures memory { IfErr result (λ fault. fault ≡ NoMemory) }
{
    let label = label(symbols, at)?;
    Ok(symbol_form(alloc, label)?)
}

/// The symbol of a mark.
fn mark_symbol(symbols: &mut Symbols, mark: Mark) -> Result<SymId, FragFault>
    ensures ok { OnOk result (symbols.new ≡ spec.with_mark symbols.old mark) }
    ensures id { IfOk result (λ id. id ≡ spec.mark_number symbols.old mark) }
    ensures memory { IfErr result (λ fault. fault ≡ NoMemory) }
{
    match mark {
        Mark::Here => Ok(own_place()),
        Mark::At(at) => label(symbols, at),
    }
}

/// The form of a distance. Its places have labels from now on.
pub(crate) fn distance_form(
    alloc: Global,
    symbols: &mut Symbols,
    distance: Distance,
) -> Result<Linear, FragFault>
    ensures ok { OnOk result (symbols.new ≡ spec.with_marks symbols.old distance) }
    ensures form { IfOk result (λ form. form ≡ spec.distance_form symbols.old distance) }
    ensures memory { IfErr result (λ fault. fault ≡ NoMemory) }
{
    let to = mark_symbol(symbols, distance.to)?;
    let from = mark_symbol(symbols, distance.from)?;
    let form = symbol_and_number(alloc, to, distance.plus)?;
    Ok(plus_times(form, u64::MAX, &symbol_form(alloc, from)?)?)
}
