//! What counts and conditions know where they stand.

ghost use Rattle.std.specs.Prelude.{◌≡◌, map};
ghost use Rattle.std.specs.List.{position_or_len};
ghost use Rattle.asm_base.specs.Refusals.{GivesBy, Raises, Returns};
ghost use Rattle.asm_base.specs.Tokens.{spelled};
ghost use Rattle.asm_expr.specs.Linear.{known_now};
ghost use Rattle.asm_expr.specs.NamesOf as tree;
ghost use Rattle.asm_expr.specs.Trees.{tree_of};
ghost use Rattle.asm_symbols.specs.SymbolMap.{names, index_of};
ghost use Rattle.asm_symbols.specs.Counting.{meant_name};
ghost use Rattle.asm_operands.specs.ExprFaults.{in_statement};
ghost use Rattle.asm_uses.specs.KnownIn.{known_in};
ghost use Rattle.asm_values.specs.PlacedBy.{placed_by};
ghost use Rattle.asm_front.specs.Knowing as spec;
ghost use Rattle.asm_front.specs.Knowing.{is_defined_by, is_defined_in, same_written, own_number, symbol_named};

use asm_base::{Refusal, Token};
use asm_expr::{Expr, ExprFault, Known, Look, Spelling, SymId, Written, known_value, names_of};
use asm_operands::{PlaceCause, PlaceFault, constant_operand, expression_of, is_dot, symbol_name};
use asm_symbols::{Meaning, Symbols};
use asm_uses::View;
use asm_values::Assembler;
use macro_words::MacroCause;
use std::alloc::Global;

/// A fault of the operands of a line of expansion.
fn line_cause(cause: PlaceCause) -> MacroCause
    ensures { result ≡ spec.line_cause cause }
{
    match cause {
        PlaceCause::BadExpression => MacroCause::BadExpression,
        PlaceCause::NumberTooWide => MacroCause::NumberTooWide,
        PlaceCause::ExpressionTooDeep => MacroCause::ExpressionTooDeep,
        PlaceCause::DivisionByZero => MacroCause::DivisionByZero,
        PlaceCause::ValueNotKnown => MacroCause::ValueNotKnown,
        PlaceCause::NotASumOfSymbols => MacroCause::NotASumOfSymbols,
        _ => MacroCause::BadMacroLine,
    }
}

/// The refusal of operands as one of expansion.
fn in_line(refusal: PlaceFault) -> Refusal<MacroCause>
    ensures { Raises (λ cause raised. raised ≡ spec.line_cause cause) refusal result }
{
    match refusal {
        Refusal::Fault(cause) => Refusal::Fault(line_cause(cause)),
        Refusal::NoMemory => Refusal::NoMemory,
    }
}

/// Whether both are one name as it is written.
fn same_written(one: &Written, other: &Written) -> bool
    ensures { result ≡ same_written one.now other.now }
{
    match (one, other) {
        (Written::Plain(text), Written::Plain(other)) => text.as_bytes() == other.as_bytes(),
        (Written::Back(number), Written::Back(other)) => number == other,
        (Written::Next(number), Written::Next(other)) => number == other,
        _ => false,
    }
}

/// Where the expression with these names names this one first.
fn place_of(written: &[Written], name: &Written) -> usize
    ensures { result ≡ position_or_len (same_written name.now) written.now }
{
    for (at, other) in written.iter().enumerate() {
        if same_written(name, other) {
            return at;
        }
    }
    written.len()
}

/// The number of a name that has no symbol.
fn own_number(written: &[Written], name: &Written) -> u32
    ensures { result ≡ own_number written.now name.now }
{
    match u32::try_from(place_of(written, name)) {
        Ok(place) => u32::MAX - place,
        Err(_) => 0,
    }
}

/// The symbol of the name.
fn found(symbols: &Symbols, name: &Written) -> Option<SymId>
    ensures { result ≡ index_of (meant_name symbols.now.counts name.now)
        (names symbols.now.symbols) }
{
    match name {
        Written::Plain(text) => symbols.find_text(text.as_bytes()),
        Written::Back(number) => symbols.find_numeric(*number, symbols.count(*number)),
        Written::Next(number) => {
            symbols.find_numeric(*number, symbols.count(*number).saturating_add(1))
        }
    }
}

/// What is known of an expression that is only evaluated: its names become no symbols.
#[derive(Clone, Copy)]
struct Evaluated<'a> {
    view: View<'a>,
    written: &'a [Written],
}

impl<'a> Known for Evaluated<'a> {
    ghost use Rattle.asm_uses.specs.Places.{told_at};
    ghost use Rattle.asm_front.specs.Knowing.{meant_among};

    ghost told = { λ known index.
        told_at known.view.symbols.now known.view.place known.view.spot index };

    ghost meant = { λ known name. meant_among known.written.now known.view.symbols.now name };

    ghost place = { λ known. known.view.place };

    fn look(&self, symbol: SymId) -> Look<'_> {
        self.view.look(symbol)
    }

    #[tactic(auto, unfolding(crate::specs::Knowing::meant_among))]
    fn symbol(&self, name: &Written) -> SymId {
        match found(self.view.symbols, name) {
            Some(id) => id,
            None => SymId::new(own_number(self.written, name)),
        }
    }

    fn here(&self) -> SymId {
        self.view.here()
    }
}

/// The value of an expression, which has to be known where this is known of symbols.
fn viewed_value(alloc: Global, view: View, expr: &Expr) -> Result<u64, PlaceFault>
    ensures { Returns result (in_statement (known_now
        (spec.known_with (tree.names_of (tree_of expr.now)) view.entry.symbols.now
        (known_in view.entry)) (tree_of expr.now))) }
{
    let written = names_of(alloc, expr).map_err(ExprFault::raise)?;
    let known = Evaluated {
        view,
        written: written.as_slice(),
    };
    known_value(alloc, expr, &known).map_err(ExprFault::raise)
}

/// The value of an expression, which has to be known.
fn tree_value(assembler: &Assembler, expr: &Expr) -> Result<u64, PlaceFault>
    ensures { Returns result (spec.tree_value (placed_by assembler.now) (tree_of expr.now)) }
{
    viewed_value(assembler.alloc, assembler.view(), expr)
}

/// The value of the one expression that these tokens are.
#[inline(never)]
#[tactic(auto, unfolding(crate::specs::Knowing::value_told))]
fn any_value(assembler: &Assembler, tokens: &[Token]) -> Result<u64, Refusal<MacroCause>>
    ensures { Returns result (spec.value_told (placed_by assembler.now) (map spelled tokens.now)) }
{
    let expr = expression_of(assembler.alloc, tokens).map_err(in_line)?;
    tree_value(assembler, &expr).map_err(in_line)
}

/// The value of the one expression that these tokens are; at once where it is of numbers alone.
#[tactic(auto, unfolding(crate::specs::Knowing::value_told))]
pub(crate) fn value_told(
    assembler: &Assembler,
    tokens: &[Token],
) -> Result<u64, Refusal<MacroCause>>
    ensures { Returns result (spec.value_told (placed_by assembler.now) (map spelled tokens.now)) }
{
    match constant_operand(tokens) {
        Some(value) => Ok(value),
        None => any_value(assembler, tokens),
    }
}

/// Whether a symbol that is this is defined.
fn is_defined_by(meaning: &Meaning) -> bool
    ensures { result ≡ is_defined_by meaning.now }
{
    match meaning {
        Meaning::Undefined => false,
        _ => true,
    }
}

/// Whether the symbol of this name is defined so far.
#[tactic(auto, unfolding(crate::specs::Knowing::is_defined_in))]
fn is_defined_in(symbols: &Symbols, name: &[u8]) -> bool
    ensures { result ≡ is_defined_in symbols.now name.now }
{
    match symbols.find_text(name) {
        Some(id) => is_defined_by(&symbols.symbol(id).meaning),
        None => false,
    }
}

/// The one name that these tokens are.
#[tactic(auto, unfolding(asm_operands::specs::Operands::name_of))]
fn symbol_named(assembler: &Assembler, tokens: &[Token]) -> Result<Spelling, PlaceFault>
    ensures { GivesBy (λ name. name) result (symbol_named (map spelled tokens.now)) }
{
    match tokens {
        [token] if !is_dot(token) => symbol_name(assembler.alloc, token),
        _ => Err(Refusal::Fault(PlaceCause::BadOperand)),
    }
}

/// Whether the one symbol that these tokens name is defined.
#[tactic(auto, unfolding(crate::specs::Knowing::definition_told))]
pub(crate) fn definition_told(
    assembler: &Assembler,
    tokens: &[Token],
) -> Result<bool, Refusal<MacroCause>>
    ensures { Returns result
        (spec.definition_told (placed_by assembler.now) (map spelled tokens.now)) }
{
    let name = symbol_named(assembler, tokens).map_err(in_line)?;
    Ok(is_defined_in(assembler.table.symbols(), name.as_bytes()))
}
