//! The form of an amount where its instruction stands.

ghost use Rattle.std.specs.Prelude.{◌≡◌, Some, Ok, false, IfOk, IfSome};
ghost use Rattle.asm_base.specs.Refusals.{GivesBy};
ghost use Rattle.asm_expr.specs.declared.naming.Name.TheVariants.{Plain};
ghost use Rattle.asm_expr.specs.Trees.{tree_of};
ghost use Rattle.asm_operands.specs.Expressions.{form_in};
ghost use Rattle.asm_symbols.specs.SymbolMap.{names, index_of};
ghost use Rattle.asm_uses.specs.Places.{uses_place};
ghost use Rattle.asm_values.specs.PlacedBy.{placed_by};
ghost use Rattle.asm_values.specs.State.{known_here};
ghost use Rattle.x86_insn.specs.Amounts.{amount_tree, named_tree};
ghost use Rattle.amount_forms.specs.Amounts.{IsSymbolOf};

use asm_base::NoMemory;
use asm_expr::{Expr, Linear, SymId, constant_form};
use asm_operands::PlaceFault;
use asm_symbols::Symbols;
use asm_uses::{Added, Operand, SymbolSum, form_in, plain_form, plain_of, sum_form_in, uses_place};
use asm_values::{Assembler, texts_are_no_place};
use x86_insn::Amount;

/// The form of an amount where its instruction stands.
#[derive(Drop)]
pub struct PlacedForm {
    /// The form.
    pub form: Linear,
    /// Whether the form keeps the place of the instruction.
    pub keeps: bool,
}

/// The form of a tree.
#[inline(never)]
fn tree_form(assembler: &Assembler, expr: &Expr) -> Result<PlacedForm, PlaceFault>
    ensures value { GivesBy (λ made. made.form) result
        (form_in (known_here (placed_by assembler.now)) (tree_of expr.now)) }
    ensures keeps { IfOk result (λ made.
        made.keeps ≡ uses_place (known_here (placed_by assembler.now)).place made.form) }
{
    let view = assembler.view();
    let form = form_in(assembler.alloc, view, expr)?;
    Ok(PlacedForm {
        keeps: uses_place(view.place, &form),
        form,
    })
}

/// The form of a name and a number more.
#[inline(never)]
#[tactic(auto, using(crate::proofs::NamedForms::named_sum))]
fn any_named_form(
    assembler: &Assembler,
    bytes: &[u8],
    number: u64,
) -> Result<PlacedForm, PlaceFault>
    ensures value { GivesBy (λ made. made.form) result
        (form_in (known_here (placed_by assembler.now)) (named_tree bytes.now number)) }
    ensures keeps { IfOk result (λ made.
        made.keeps ≡ uses_place (known_here (placed_by assembler.now)).place made.form) }
{
    let view = assembler.view();
    let sum = SymbolSum {
        first: Operand::Symbol(view.symbols.meant_text(bytes).index()),
        second: Added::Plus(Operand::Number(number)),
    };
    let form = sum_form_in(assembler.alloc, view, &sum)?;
    Ok(PlacedForm {
        keeps: uses_place(view.place, &form),
        form,
    })
}

/// The symbol that the name has, which may be there.
#[inline(always)]
fn found_symbol(symbols: &Symbols, bytes: &[u8], symbol: Option<SymId>) -> Option<SymId>
    requires { IfSome symbol (λ id. index_of (Plain bytes.now) (names symbols.now.symbols) ≡ Some id) }
    ensures { result ≡ index_of (Plain bytes.now) (names symbols.now.symbols) }
{
    match symbol {
        Some(id) => Some(id),
        None => symbols.find_text(bytes),
    }
}

/// The form of the symbol that the name has and a number more, where that is the same wherever the
/// instruction stands. None says nothing of it.
#[inline(always)]
fn plain_named_form(
    assembler: &Assembler,
    bytes: &[u8],
    number: u64,
    symbol: Option<SymId>,
) -> Result<Option<Linear>, NoMemory>
    requires { IfSome symbol (λ id. index_of (Plain bytes.now)
        (names (placed_by assembler.now).table.symbols.symbols) ≡ Some id) }
    ensures value { IfOk result (λ found. IfSome found (λ form.
        form_in (known_here (placed_by assembler.now)) (named_tree bytes.now number) ≡ Ok form)) }
    ensures free { IfOk result (λ found. IfSome found (λ form.
        uses_place (known_here (placed_by assembler.now)).place form ≡ false)) }
{
    texts_are_no_place();
    let symbols = assembler.table.symbols();
    let Some(id) = found_symbol(symbols, bytes, symbol) else {
        return Ok(None);
    };
    let sum = SymbolSum {
        first: Operand::Symbol(id.index()),
        second: Added::Plus(Operand::Number(number)),
    };
    match plain_of(symbols, &sum) {
        Some(plain) => Ok(Some(plain_form(assembler.alloc, symbols, plain)?)),
        None => Ok(None),
    }
}

/// The form of a name and a number more, by the short way where there is one.
#[inline(always)]
fn named_form(
    assembler: &Assembler,
    bytes: &[u8],
    number: u64,
    symbol: Option<SymId>,
) -> Result<PlacedForm, PlaceFault>
    requires { IfSome symbol (λ id. index_of (Plain bytes.now)
        (names (placed_by assembler.now).table.symbols.symbols) ≡ Some id) }
    ensures value { GivesBy (λ made. made.form) result
        (form_in (known_here (placed_by assembler.now)) (named_tree bytes.now number)) }
    ensures keeps { IfOk result (λ made.
        made.keeps ≡ uses_place (known_here (placed_by assembler.now)).place made.form) }
{
    match plain_named_form(assembler, bytes, number, symbol)? {
        Some(form) => Ok(PlacedForm { form, keeps: false }),
        None => any_named_form(assembler, bytes, number),
    }
}

/// The form of `amount` where `assembler` puts next; `symbol` is that of its name, where it is one name and a
/// number and the symbol is at hand.
///
/// # Errors
///
/// The fault of the amount where it has no form there; `NoMemory` where memory is refused.
#[inline(always)]
#[tactic(auto, unfolding(asm_operands::specs::Expressions::form_in, asm_expr::specs::Linear::linear))]
pub fn amount_form(
    assembler: &Assembler,
    amount: &Amount,
    symbol: Option<SymId>,
) -> Result<PlacedForm, PlaceFault>
    requires { IsSymbolOf (placed_by assembler.now).table.symbols amount.now symbol }
    ensures value { GivesBy (λ made. made.form) result
        (form_in (known_here (placed_by assembler.now)) (amount_tree amount.now)) }
    ensures keeps { IfOk result (λ made.
        made.keeps ≡ uses_place (known_here (placed_by assembler.now)).place made.form) }
{
    match amount {
        Amount::Number(value) => Ok(PlacedForm {
            form: constant_form(assembler.alloc, *value),
            keeps: false,
        }),
        Amount::Name(bytes, number) => named_form(assembler, bytes, *number, symbol),
        Amount::Tree(expr) => tree_form(assembler, expr),
    }
}
