//! Sums of up to three numbers, symbols or places, and their forms: they need no tree.

ghost use Rattle.std.specs.Prelude.{◌≡◌, Ok, IfOk};
ghost use Rattle.asm_base.specs.Refusals.{Returns};
ghost use Rattle.asm_symbols.specs.Looking.{told};
ghost use Rattle.asm_uses.specs.KnownIn.{known_in};
ghost use Rattle.asm_uses.specs.LongSums.{FindsMoved, FindsLongPlain, long_plain_form};
ghost use Rattle.asm_uses.specs.LongSums as spec;

use crate::places::View;
use crate::plain_sums::{Plain, plain_form, plain_of};
use crate::sums::{Added, Operand, SymbolSum, added_form, negated, sum_form};
use crate::tables::{Naming, SymbolUses};
use asm_base::{NoMemory, Pos};
use asm_expr::{ExprFault, Linear, constant_form, plus_times};
use asm_operands::{LongSum, PlaceFault};
use asm_symbols::Symbols;
use std::alloc::Global;

/// A sum of up to three summands whose names are symbols.
#[derive(Clone, Copy)]
pub struct LongSymbolSum {
    pub front: SymbolSum,
    pub third: Added,
}

impl SymbolUses {
    ghost use Rattle.std.specs.Prelude.{◌≡◌, ◌≤◌, [], ◌∷◌, length, OnOk, IfOk};
    ghost use Rattle.asm_operands.specs.Sums.{long_tree};
    ghost use Rattle.asm_uses.specs.LongSums.{IsLongNamed};
    ghost use Rattle.asm_uses.specs.Tables.{with_tree, with_trees, is_meant, naming_of};

    /// Whether each `Nb` of the sum means a label that came before.
    #[inline(always)]
    #[tactic(auto, using(crate::proofs::LongSumLemmas::long_meant))]
    fn is_long_meant(&self, sum: &LongSum) -> bool
        ensures { result ≡ is_meant self.now.symbols.counts (long_tree sum.now) }
    {
        self.is_sum_meant(&sum.front) & self.is_addend_meant(sum.third)
    }

    /// Each name of the sum has a symbol from now on, whatever room there is. Answers the sum by
    /// its symbols.
    #[inline(always)]
    fn intern_long(&mut self, pos: Pos, sum: &LongSum) -> Result<LongSymbolSum, NoMemory>
        ensures ok { OnOk result (self.new ≡ with_tree pos (long_tree sum.now) self.old) }
        ensures named { IfOk result (λ named. IsLongNamed self.new.symbols sum.now named) }
        ensures counts { OnOk result (self.new.symbols.counts ≡ self.old.symbols.counts) }
        ensures grows { OnOk result
            (length self.old.symbols.symbols ≤ length self.new.symbols.symbols) }
    {
        let front = self.intern_sum(pos, &sum.front)?;
        let third = self.intern_addend(pos, sum.third)?;
        Ok(LongSymbolSum { front, third })
    }

    /// Each name of one sum has a symbol from now on, whatever room there is.
    #[inline(always)]
    #[tactic(auto, unfolding(crate::specs::Tables::with_trees, crate::specs::Tables::are_meant))]
    pub fn intern_one_long(
        &mut self,
        pos: Pos,
        sum: &LongSum,
    ) -> Result<(Naming, LongSymbolSum), NoMemory>
        ensures ok { OnOk result (self.new ≡ with_trees pos (long_tree sum.now ∷ []) self.old) }
        ensures naming { IfOk result (λ made.
            made.0 ≡ naming_of (long_tree sum.now ∷ []) self.old) }
        ensures named { IfOk result (λ made. IsLongNamed self.new.symbols sum.now made.1) }
    {
        let before = self.symbols().len();
        let meant = self.is_long_meant(sum);
        let named = self.intern_long(pos, sum)?;
        Ok((Naming { before, meant }, named))
    }

    /// Each name of two sums has a symbol from now on, whatever room there is.
    #[inline(always)]
    #[tactic(auto, unfolding(crate::specs::Tables::with_trees, crate::specs::Tables::are_meant))]
    pub fn intern_two_long(
        &mut self,
        pos: Pos,
        sum: &LongSum,
        other: &LongSum,
    ) -> Result<(Naming, LongSymbolSum, LongSymbolSum), NoMemory>
        ensures ok { OnOk result (self.new
            ≡ with_trees pos (long_tree sum.now ∷ long_tree other.now ∷ []) self.old) }
        ensures naming { IfOk result (λ made.
            made.0 ≡ naming_of (long_tree sum.now ∷ long_tree other.now ∷ []) self.old) }
        ensures one { IfOk result (λ made. IsLongNamed self.new.symbols sum.now made.1) }
        ensures other { IfOk result (λ made. IsLongNamed self.new.symbols other.now made.2) }
    {
        let before = self.symbols().len();
        let meant = self.is_long_meant(sum) & self.is_long_meant(other);
        let one = self.intern_long(pos, sum)?;
        let another = self.intern_long(pos, other)?;
        Ok((Naming { before, meant }, one, another))
    }
}

/// The form of a sum.
#[inline(always)]
#[tactic(auto, unfolding(crate::specs::LongSums::long_form))]
fn long_form(alloc: Global, view: View, sum: &LongSymbolSum) -> Result<Linear, ExprFault>
    ensures { Returns result (Ok (spec.long_form (known_in view.entry) sum.now)) }
{
    let front = sum_form(alloc, view, &sum.front)?;
    added_form(alloc, view, front, sum.third)
}

/// The form of a sum in a statement.
#[inline(always)]
pub fn long_form_in(alloc: Global, view: View, sum: &LongSymbolSum) -> Result<Linear, PlaceFault>
    ensures { Returns result (Ok (spec.long_form (known_in view.entry) sum.now)) }
{
    long_form(alloc, view, sum).map_err(ExprFault::raise)
}

/// A number that is added, if there is one.
#[derive(Clone, Copy)]
pub enum Moved {
    Not,
    By(u64),
}

/// The number that is added, if it is one or nothing.
#[inline(always)]
fn moved_by(added: Added) -> Option<Moved>
    ensures { FindsMoved added result }
{
    match added {
        Added::Nothing => Some(Moved::Not),
        Added::Plus(Operand::Number(number)) => Some(Moved::By(number)),
        Added::Minus(Operand::Number(number)) => Some(Moved::By(negated(number))),
        _ => None,
    }
}

/// The form with a number more, if there is one.
#[inline(always)]
#[tactic(auto, unfolding(asm_expr::specs::Forms::plus_times, asm_expr::specs::Forms::with_terms))]
fn moved_form(alloc: Global, form: Linear, moved: Moved) -> Result<Linear, NoMemory>
    ensures { IfOk result (λ made. made ≡ spec.moved_form form moved) }
{
    let number = match moved {
        Moved::Not => return Ok(form),
        Moved::By(number) => number,
    };
    if form.terms().is_empty() {
        Ok(constant_form(alloc, form.constant().wrapping_add(number)))
    } else {
        Ok(plus_times(form, 1, &constant_form(alloc, number))?)
    }
}

/// A form that is the same wherever a statement stands, and a number that is added to it.
#[derive(Clone, Copy)]
pub struct LongPlain {
    pub plain: Plain,
    pub moved: Moved,
}

/// The form of a sum, if it is the same wherever a statement stands. None says nothing of the sum.
#[inline(always)]
pub fn long_plain(symbols: &Symbols, sum: &LongSymbolSum) -> Option<LongPlain>
    ensures { FindsLongPlain symbols.now sum.now result }
{
    let moved = moved_by(sum.third)?;
    let plain = plain_of(symbols, &sum.front)?;
    Some(LongPlain { plain, moved })
}

/// The form itself.
#[inline(always)]
pub fn long_plain_form(
    alloc: Global,
    symbols: &Symbols,
    found: LongPlain,
) -> Result<Linear, NoMemory>
    ensures { IfOk result (λ form. form ≡ long_plain_form (told symbols.now) found) }
{
    let front = plain_form(alloc, symbols, found.plain)?;
    moved_form(alloc, front, found.moved)
}
