//! Sums whose forms are the same wherever a statement stands: the place is not looked up for them.

ghost use Rattle.std.specs.Prelude.{◌≡◌, true, IfOk};
ghost use Rattle.asm_symbols.specs.Looking.{told};
ghost use Rattle.asm_uses.specs.declared.sums.Operand.TheVariants.{Symbol};
ghost use Rattle.asm_uses.specs.declared.sums.Added.TheVariants.{Nothing, Plus, Minus};
ghost use Rattle.asm_uses.specs.SumForms.{stands_for_itself};
ghost use Rattle.asm_uses.specs.PlainSums.{plain_form, FindsPlain};

use crate::sums::{Added, Operand, SymbolSum, negated};
use asm_base::NoMemory;
use asm_expr::{
    Known, Linear, Look, SymId, Written, constant_form, settled_difference, symbol_and_number,
};
use asm_symbols::Symbols;
use std::alloc::Global;

/// What is known of symbols that are not the place.
#[derive(Clone, Copy)]
struct Labels<'a> {
    symbols: &'a Symbols,
}

impl<'a> Known for Labels<'a> {
    ghost use Rattle.asm_symbols.specs.Counting.{meant_name};
    ghost use Rattle.asm_symbols.specs.Interning.{number_of};
    ghost use Rattle.asm_symbols.specs.Looking.{told};

    ghost told = { λ labels. told labels.symbols.now };

    ghost meant = { λ labels written.
        number_of labels.symbols.now (meant_name labels.symbols.now.counts written) };

    ghost place = { λ labels. 0 };

    fn look(&self, symbol: SymId) -> Look<'_> {
        self.symbols.look(symbol)
    }

    fn symbol(&self, written: &Written) -> SymId {
        self.symbols.meant(written)
    }

    fn here(&self) -> SymId {
        SymId::new(0)
    }
}

/// A form that is the same wherever a statement stands.
#[derive(Clone, Copy)]
pub enum Plain {
    Number(u64),
    /// A symbol and a number.
    Moved(SymId, u64),
    /// One symbol less another.
    Apart(SymId, SymId),
}

/// Whether the symbol is known as nothing or a label: then it stands for itself.
#[inline(always)]
fn stands_for_itself(symbols: &Symbols, symbol: SymId) -> bool
    ensures { result ≡ stands_for_itself (told symbols.now symbol) }
{
    match symbols.look(symbol) {
        Look::Absent | Look::Label { .. } => true,
        _ => false,
    }
}

/// The number that is known of a symbol, if nothing is added.
#[inline(always)]
#[tactic(auto, using(crate::proofs::PlainLemmas::number_alone))]
fn plain_number(symbols: &Symbols, symbol: SymId, added: Added) -> Option<Plain>
    ensures { FindsPlain symbols.now (Symbol symbol) added result }
{
    match (symbols.look(symbol), added) {
        (Look::Constant(number), Added::Nothing) => Some(Plain::Number(number)),
        _ => None,
    }
}

/// A symbol that stands for itself and what is added to it.
#[inline(always)]
#[tactic(auto, using(crate::proofs::PlainLemmas::number_more))]
fn plain_plus(symbols: &Symbols, symbol: SymId, operand: Operand) -> Option<Plain>
    requires { stands_for_itself (told symbols.now symbol) ≡ true }
    ensures { FindsPlain symbols.now (Symbol symbol) (Plus operand) result }
{
    match operand {
        Operand::Number(number) => Some(Plain::Moved(symbol, number)),
        _ => None,
    }
}

/// A symbol that stands for itself, and what is taken off.
#[inline(always)]
#[tactic(auto, using(crate::proofs::PlainLemmas::number_less, crate::proofs::PlainLemmas::symbol_less))]
fn plain_minus(symbols: &Symbols, symbol: SymId, operand: Operand) -> Option<Plain>
    requires { stands_for_itself (told symbols.now symbol) ≡ true }
    ensures { FindsPlain symbols.now (Symbol symbol) (Minus operand) result }
{
    match operand {
        Operand::Number(number) => Some(Plain::Moved(symbol, negated(number))),
        Operand::Symbol(index) if stands_for_itself(symbols, SymId::new(index)) => {
            Some(Plain::Apart(symbol, SymId::new(index)))
        }
        _ => None,
    }
}

/// A symbol that stands for itself, and what is added to it, if there is something.
#[inline(always)]
#[tactic(auto, using(crate::proofs::PlainLemmas::symbol_alone))]
fn plain_symbol(symbols: &Symbols, symbol: SymId, added: Added) -> Option<Plain>
    requires { stands_for_itself (told symbols.now symbol) ≡ true }
    ensures { FindsPlain symbols.now (Symbol symbol) added result }
{
    match added {
        Added::Nothing => Some(Plain::Moved(symbol, 0)),
        Added::Plus(operand) => plain_plus(symbols, symbol, operand),
        Added::Minus(operand) => plain_minus(symbols, symbol, operand),
    }
}

/// The form of a sum, if it is the same wherever a statement stands. None says nothing of the sum.
#[inline(always)]
pub fn plain_of(symbols: &Symbols, sum: &SymbolSum) -> Option<Plain>
    ensures { FindsPlain symbols.now sum.now.first sum.now.second result }
{
    let Operand::Symbol(index) = sum.first else {
        return None;
    };
    let symbol = SymId::new(index);
    if stands_for_itself(symbols, symbol) {
        plain_symbol(symbols, symbol, sum.second)
    } else {
        plain_number(symbols, symbol, sum.second)
    }
}

/// The form itself.
#[inline(always)]
pub fn plain_form(alloc: Global, symbols: &Symbols, plain: Plain) -> Result<Linear, NoMemory>
    ensures { IfOk result (λ form. form ≡ plain_form (told symbols.now) plain) }
{
    match plain {
        Plain::Number(number) => Ok(constant_form(alloc, number)),
        Plain::Moved(symbol, number) => Ok(symbol_and_number(alloc, symbol, number)?),
        Plain::Apart(one, other) => {
            Ok(settled_difference(alloc, &Labels { symbols }, one, other)?)
        }
    }
}
