//! What is known of the names of an instruction is a number of the program.

ghost use Rattle.std.specs.Prelude.{◌≡◌, Some};
ghost use Rattle.asm_expr.specs.declared.naming.Name.TheVariants.{Plain};
ghost use Rattle.asm_expr.specs.Trees.{tree_of};
ghost use Rattle.asm_symbols.specs.Looking.{told};
ghost use Rattle.asm_symbols.specs.SymbolMap.{names, index_of};
ghost use Rattle.asm_values.specs.PlacedBy.{placed_by};
ghost use Rattle.asm_values.specs.State.{known_here};
ghost use Rattle.att_operands.specs.Values.{IsFitting, KnowsFitting};
ghost use Rattle.amount_forms.specs.Amounts.{WrittenFits, NameFits, AmountFits, InsnFits, IsSymbolOf};

use asm_expr::{Expr, Known, Look, SymId, Written};
use asm_symbols::Symbols;
use asm_values::{Assembler, texts_are_no_place};
use x86_insn::{Amount, Insn};

/// What is known of a symbol is a number of the program.
#[inline(always)]
fn told_fits(symbols: &Symbols, symbol: SymId)
    ensures { IsFitting (told symbols.now symbol) }
{
    if let Look::Form(form) = symbols.look(symbol) {
        form.constant();
    }
}

/// What is known of a name, which this symbol has, is a number of the program.
#[inline(always)]
fn symbol_fits(assembler: &Assembler, bytes: &[u8], symbol: SymId)
    requires { index_of (Plain bytes.now) (names (placed_by assembler.now).table.symbols.symbols)
        ≡ Some symbol }
    ensures { NameFits (known_here (placed_by assembler.now)) bytes.now }
{
    texts_are_no_place();
    told_fits(assembler.table.symbols(), symbol);
}

/// What is known of any name is a number of the program.
#[inline(never)]
fn name_fits(assembler: &Assembler, bytes: &[u8])
    ensures { NameFits (known_here (placed_by assembler.now)) bytes.now }
{
    let view = assembler.view();
    if let Look::Form(form) = view.look(view.symbols.meant_text(bytes)) {
        form.constant();
    }
}

/// What is known of a name as it is written is a number of the program.
fn written_fits(assembler: &Assembler, written: &Written)
    ensures { WrittenFits (known_here (placed_by assembler.now)) written.now }
{
    let view = assembler.view();
    if let Look::Form(form) = view.look(view.symbol(written)) {
        form.constant();
    }
}

/// So is what is known of each name of a tree.
#[inline(never)]
fn tree_fits(assembler: &Assembler, expr: &Expr)
    ensures { KnowsFitting (known_here (placed_by assembler.now)) (tree_of expr.now) }
{
    match expr {
        Expr::Num(_) => {}
        Expr::Name(written) => written_fits(assembler, written),
        Expr::Here => {}
        Expr::Unary(_, operand) => tree_fits(assembler, operand),
        Expr::Binary(_, left, right) => {
            tree_fits(assembler, left);
            tree_fits(assembler, right);
        }
    }
}

/// What is known of the names of an amount is a number of the program.
#[inline(always)]
fn amount_fits(assembler: &Assembler, amount: &Amount, symbol: Option<SymId>)
    requires { IsSymbolOf (placed_by assembler.now).table.symbols amount.now symbol }
    ensures { AmountFits (known_here (placed_by assembler.now)) amount.now }
{
    match amount {
        Amount::Number(_) => {}
        Amount::Name(bytes, _) => match symbol {
            Some(id) => symbol_fits(assembler, bytes, id),
            None => name_fits(assembler, bytes),
        },
        Amount::Tree(expr) => tree_fits(assembler, expr),
    }
}

/// What is known to `assembler` of the names of both amounts of `insn` is a number of the program; `symbol` is
/// that of the displacement, where it is one name and a number and the symbol is at hand.
#[inline(always)]
pub fn amounts_fit(assembler: &Assembler, insn: &Insn, symbol: Option<SymId>)
    requires { IsSymbolOf (placed_by assembler.now).table.symbols insn.now.displacement.amount symbol }
    ensures { InsnFits (known_here (placed_by assembler.now)) insn.now }
{
    amount_fits(assembler, &insn.immediate.amount, None);
    amount_fits(assembler, &insn.displacement.amount, symbol);
}
