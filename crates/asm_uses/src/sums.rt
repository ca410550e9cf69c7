//! Sums of one or two numbers, symbols or places, and their forms: they need no tree.

ghost use Rattle.std.specs.Prelude.{◌≡◌, true, Ok, IfOk, IfSome};
ghost use Rattle.asm_base.specs.Refusals.{Returns};
ghost use Rattle.asm_expr.specs.Forms.{symbol_form, signed};
ghost use Rattle.asm_uses.specs.KnownIn.{known_in};
ghost use Rattle.asm_uses.specs.declared.sums.Added.TheVariants.{Plus, Minus};
ghost use Rattle.asm_uses.specs.SumForms as spec;

use crate::places::View;
use crate::tables::{Naming, SymbolUses};
use asm_base::{NoMemory, Pos};
use asm_expr::{
    ExprFault, Known, Linear, Look, SymId, constant_form, form_of, settled_difference, settled_sum,
    symbol_and_number, symbol_form,
};
use asm_operands::{Addend, PlaceFault, Sum, Summand};
use std::alloc::Global;

/// A summand whose name, if it is one, has been looked up.
#[derive(Clone, Copy)]
pub enum Operand {
    Number(u64),
    /// The index of the symbol that the name means.
    Symbol(u32),
    /// `.`: the place of the statement.
    Here,
}

/// What is added to an operand, or taken off, if there is something.
#[derive(Clone, Copy)]
pub enum Added {
    Nothing,
    Plus(Operand),
    Minus(Operand),
}

/// A sum whose names are symbols.
#[derive(Clone, Copy)]
pub struct SymbolSum {
    pub first: Operand,
    pub second: Added,
}

impl SymbolUses {
    ghost use Rattle.std.specs.Prelude.{◌≡◌, ◌≤◌, ◌&&◌, [], ◌∷◌, length, OnOk, IfOk};
    ghost use Rattle.asm_operands.specs.Sums.{summand_tree, sum_tree};
    ghost use Rattle.asm_uses.specs.Tables.{with_tree, with_trees, is_meant, naming_of};
    ghost use Rattle.asm_uses.specs.SymbolSums.{with_addend, is_addend_meant, IsOperand, IsAdded, IsNamed};

    /// Whether the summand is no `Nb`, or one that means a label that came before.
    #[inline(always)]
    #[tactic(auto, unfolding(crate::specs::Tables::is_meant))]
    fn is_summand_meant(&self, summand: Summand) -> bool
        ensures { result ≡ is_meant self.now.symbols.counts (summand_tree summand.entry) }
    {
        match summand {
            Summand::Back(number) => self.symbols().count(number) != 0,
            _ => true,
        }
    }

    /// What the summand names is a symbol's from now on, whatever room there is. Answers what the
    /// summand stands for.
    #[inline(always)]
    #[tactic(auto, unfolding(crate::specs::Tables::with_tree))]
    fn intern_summand(&mut self, pos: Pos, summand: Summand) -> Result<Operand, NoMemory>
        ensures ok { OnOk result (self.new ≡ with_tree pos (summand_tree summand.entry) self.old) }
        ensures operand { IfOk result (λ operand.
            IsOperand self.new.symbols summand.entry operand) }
        ensures counts { OnOk result (self.new.symbols.counts ≡ self.old.symbols.counts) }
        ensures grows { OnOk result
            (length self.old.symbols.symbols ≤ length self.new.symbols.symbols) }
    {
        match summand {
            Summand::Number(number) => Ok(Operand::Number(number)),
            Summand::Here => Ok(Operand::Here),
            Summand::Name(token) => {
                let id = self.intern_text(pos, token.bytes)?;
                Ok(Operand::Symbol(id.index()))
            }
            Summand::Back(number) => {
                let id = self.intern_back(pos, number)?;
                Ok(Operand::Symbol(id.index()))
            }
            Summand::Next(number) => {
                let id = self.intern_next(pos, number)?;
                Ok(Operand::Symbol(id.index()))
            }
        }
    }

    /// Whether what is added is no `Nb`, or one that means a label that came before.
    #[inline(always)]
    pub(crate) fn is_addend_meant(&self, addend: Addend) -> bool
        ensures { result ≡ is_addend_meant self.now.symbols.counts addend.entry }
    {
        match addend {
            Addend::Nothing => true,
            Addend::Plus(summand) | Addend::Minus(summand) => self.is_summand_meant(summand),
        }
    }

    /// What is added names symbols from now on, whatever room there is. Answers what it stands for.
    #[inline(always)]
    pub(crate) fn intern_addend(&mut self, pos: Pos, addend: Addend) -> Result<Added, NoMemory>
        ensures ok { OnOk result (self.new ≡ with_addend pos addend.entry self.old) }
        ensures added { IfOk result (λ added. IsAdded self.new.symbols addend.entry added) }
        ensures counts { OnOk result (self.new.symbols.counts ≡ self.old.symbols.counts) }
        ensures grows { OnOk result
            (length self.old.symbols.symbols ≤ length self.new.symbols.symbols) }
    {
        match addend {
            Addend::Nothing => Ok(Added::Nothing),
            Addend::Plus(summand) => Ok(Added::Plus(self.intern_summand(pos, summand)?)),
            Addend::Minus(summand) => Ok(Added::Minus(self.intern_summand(pos, summand)?)),
        }
    }

    /// Whether each `Nb` of the sum means a label that came before.
    #[inline(always)]
    #[tactic(auto, using(crate::proofs::SumNames::sum_meant))]
    pub(crate) fn is_sum_meant(&self, sum: &Sum) -> bool
        ensures { result ≡ is_meant self.now.symbols.counts (sum_tree sum.now) }
    {
        self.is_summand_meant(sum.first) & self.is_addend_meant(sum.second)
    }

    /// Each name of the sum has a symbol from now on, whatever room there is. Answers the sum by
    /// its symbols.
    #[inline(always)]
    pub(crate) fn intern_sum(&mut self, pos: Pos, sum: &Sum) -> Result<SymbolSum, NoMemory>
        ensures ok { OnOk result (self.new ≡ with_tree pos (sum_tree sum.now) self.old) }
        ensures named { IfOk result (λ named. IsNamed self.new.symbols sum.now named) }
        ensures counts { OnOk result (self.new.symbols.counts ≡ self.old.symbols.counts) }
        ensures grows { OnOk result
            (length self.old.symbols.symbols ≤ length self.new.symbols.symbols) }
    {
        let first = self.intern_summand(pos, sum.first)?;
        let second = self.intern_addend(pos, sum.second)?;
        Ok(SymbolSum { first, second })
    }

    /// Each name of one sum has a symbol from now on, whatever room there is.
    #[inline(always)]
    #[tactic(auto, unfolding(crate::specs::Tables::with_trees, crate::specs::Tables::are_meant))]
    pub fn intern_one(&mut self, pos: Pos, sum: &Sum) -> Result<(Naming, SymbolSum), NoMemory>
        ensures ok { OnOk result (self.new ≡ with_trees pos (sum_tree sum.now ∷ []) self.old) }
        ensures naming { IfOk result (λ made.
            made.0 ≡ naming_of (sum_tree sum.now ∷ []) self.old) }
        ensures named { IfOk result (λ made. IsNamed self.new.symbols sum.now made.1) }
    {
        let before = self.symbols().len();
        let meant = self.is_sum_meant(sum);
        let named = self.intern_sum(pos, sum)?;
        Ok((Naming { before, meant }, named))
    }

    /// Each name of two sums has a symbol from now on, whatever room there is.
    #[inline(always)]
    #[tactic(auto, unfolding(crate::specs::Tables::with_trees, crate::specs::Tables::are_meant))]
    pub fn intern_two(
        &mut self,
        pos: Pos,
        sum: &Sum,
        other: &Sum,
    ) -> Result<(Naming, SymbolSum, SymbolSum), NoMemory>
        ensures ok { OnOk result (self.new
            ≡ with_trees pos (sum_tree sum.now ∷ sum_tree other.now ∷ []) self.old) }
        ensures naming { IfOk result (λ made.
            made.0 ≡ naming_of (sum_tree sum.now ∷ sum_tree other.now ∷ []) self.old) }
        ensures one { IfOk result (λ made. IsNamed self.new.symbols sum.now made.1) }
        ensures other { IfOk result (λ made. IsNamed self.new.symbols other.now made.2) }
    {
        let before = self.symbols().len();
        let meant = self.is_sum_meant(sum) & self.is_sum_meant(other);
        let one = self.intern_sum(pos, sum)?;
        let another = self.intern_sum(pos, other)?;
        Ok((Naming { before, meant }, one, another))
    }
}

/// The symbol that an operand is, if it is not a number.
#[inline(always)]
fn operand_symbol(view: View, operand: Operand) -> Option<SymId>
    ensures { result ≡ spec.operand_symbol (known_in view.entry) operand }
{
    match operand {
        Operand::Number(_) => None,
        Operand::Symbol(index) => Some(SymId::new(index)),
        Operand::Here => Some(SymId::new(view.place)),
    }
}

/// Whether the symbol is known as nothing or a label: then it stands for itself.
#[inline(always)]
fn stands_for_itself(view: View, symbol: SymId) -> bool
    ensures { result ≡ spec.stands_for_itself ((known_in view.entry).told symbol) }
{
    match view.look(symbol) {
        Look::Absent | Look::Label { .. } => true,
        _ => false,
    }
}

/// The form of an operand.
fn operand_form(alloc: Global, view: View, operand: Operand) -> Result<Linear, ExprFault>
    ensures { Returns result (Ok (spec.operand_form (known_in view.entry) operand)) }
{
    match operand {
        Operand::Number(number) => Ok(constant_form(alloc, number)),
        Operand::Symbol(index) => form_of(alloc, &view, SymId::new(index)),
        Operand::Here => form_of(alloc, &view, SymId::new(view.place)),
    }
}

/// The form with one operand more, if there is one.
pub(crate) fn added_form(
    alloc: Global,
    view: View,
    made: Linear,
    added: Added,
) -> Result<Linear, ExprFault>
    ensures { Returns result (Ok (spec.added_form (known_in view.entry) made added)) }
{
    match added {
        Added::Nothing => Ok(made),
        Added::Plus(operand) => {
            let other = operand_form(alloc, view, operand)?;
            settled_sum(alloc, &view, false, made, other)
        }
        Added::Minus(operand) => {
            let other = operand_form(alloc, view, operand)?;
            settled_sum(alloc, &view, true, made, other)
        }
    }
}

/// Minus the number.
#[inline(always)]
pub(crate) fn negated(number: u64) -> u64
    ensures { result ≡ signed true number }
{
    0u64.wrapping_sub(number)
}

/// The form of a symbol that stands for itself and of what is added to it, if that is a number.
#[inline(always)]
#[tactic(auto, using(crate::proofs::SumLemmas::number_more))]
fn symbol_plus(
    alloc: Global,
    view: View,
    symbol: SymId,
    operand: Operand,
) -> Result<Option<Linear>, NoMemory>
    ensures { IfOk result (λ found. IfSome found (λ made.
        made ≡ spec.added_form (known_in view.entry) (symbol_form symbol) (Plus operand))) }
{
    match operand {
        Operand::Number(number) => Ok(Some(symbol_and_number(alloc, symbol, number)?)),
        _ => Ok(None),
    }
}

/// The form of a symbol that stands for itself and of what is taken off, if that is a number, or
/// such a symbol.
#[inline(always)]
#[tactic(auto, using(crate::proofs::SumLemmas::number_less, crate::proofs::SumLemmas::symbol_alone))]
fn symbol_minus(
    alloc: Global,
    view: View,
    symbol: SymId,
    operand: Operand,
) -> Result<Option<Linear>, NoMemory>
    ensures { IfOk result (λ found. IfSome found (λ made.
        made ≡ spec.added_form (known_in view.entry) (symbol_form symbol) (Minus operand))) }
{
    if let Operand::Number(number) = operand {
        return Ok(Some(symbol_and_number(alloc, symbol, negated(number))?));
    }
    let Some(other) = operand_symbol(view, operand) else {
        return Ok(None);
    };
    if !stands_for_itself(view, other) {
        return Ok(None);
    }
    Ok(Some(settled_difference(alloc, &view, symbol, other)?))
}

/// The form of a symbol that stands for itself and of what is added to it, if that is simple.
#[inline(always)]
fn short_form(
    alloc: Global,
    view: View,
    symbol: SymId,
    added: Added,
) -> Result<Option<Linear>, NoMemory>
    ensures { IfOk result (λ found. IfSome found (λ made.
        made ≡ spec.added_form (known_in view.entry) (symbol_form symbol) added)) }
{
    match added {
        Added::Nothing => Ok(Some(symbol_form(alloc, symbol)?)),
        Added::Plus(operand) => symbol_plus(alloc, view, symbol, operand),
        Added::Minus(operand) => symbol_minus(alloc, view, symbol, operand),
    }
}

/// The form of any sum.
#[inline(never)]
#[tactic(auto, unfolding(crate::specs::SumForms::sum_form))]
fn any_form(alloc: Global, view: View, sum: &SymbolSum) -> Result<Linear, ExprFault>
    ensures { Returns result (Ok (spec.sum_form (known_in view.entry) sum.now)) }
{
    let first = operand_form(alloc, view, sum.first)?;
    added_form(alloc, view, first, sum.second)
}

/// The form of a sum.
#[inline(always)]
#[tactic(auto, unfolding(crate::specs::SumForms::sum_form), using(crate::proofs::SumLemmas::symbol_alone))]
pub(crate) fn sum_form(alloc: Global, view: View, sum: &SymbolSum) -> Result<Linear, ExprFault>
    ensures { Returns result (Ok (spec.sum_form (known_in view.entry) sum.now)) }
{
    match operand_symbol(view, sum.first) {
        Some(symbol) if stands_for_itself(view, symbol) => {
            match short_form(alloc, view, symbol, sum.second)? {
                Some(form) => Ok(form),
                None => any_form(alloc, view, sum),
            }
        }
        _ => any_form(alloc, view, sum),
    }
}

/// The form of a sum in a statement.
#[inline(always)]
pub fn sum_form_in(alloc: Global, view: View, sum: &SymbolSum) -> Result<Linear, PlaceFault>
    ensures { Returns result (Ok (spec.sum_form (known_in view.entry) sum.now)) }
{
    sum_form(alloc, view, sum).map_err(ExprFault::raise)
}
