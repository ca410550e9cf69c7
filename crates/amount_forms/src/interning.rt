//! The names of an instruction become symbols, in the order of its text.

ghost use Rattle.std.specs.Prelude.{◌≡◌, IfOk, OnOk};
ghost use Rattle.asm_words.specs.declared.directives.Syntax.TheVariants.{Att, Intel};
ghost use Rattle.asm_uses.specs.Tables.{with_tree, with_trees, is_meant, naming_of};
ghost use Rattle.x86_insn.specs.Amounts.{amount_tree};
ghost use Rattle.amount_forms.specs.Amounts.{trees_of, IsSymbolOf};

use asm_base::{NoMemory, Pos};
use asm_expr::SymId;
use asm_uses::{Naming, SymbolUses};
use asm_words::Syntax;
use x86_insn::{Amount, Insn};

/// What came of the names of an amount: whether each `Nb` in it means a label that came before, and the symbol of
/// the amount that is one name and a number.
#[derive(Clone, Copy)]
struct Interned {
    meant: bool,
    symbol: Option<SymId>,
}

/// The name of the amount, if it has one, has a symbol from now on, whatever room there is.
#[inline(always)]
#[tactic(auto, unfolding(asm_uses::specs::Tables::with_tree, asm_uses::specs::Tables::is_meant))]
fn intern_amount(table: &mut SymbolUses, pos: Pos, amount: &Amount) -> Result<Interned, NoMemory>
    ensures ok { OnOk result (table.new ≡ with_tree pos (amount_tree amount.now) table.old) }
    ensures meant { IfOk result (λ made.
        made.meant ≡ is_meant table.old.symbols.counts (amount_tree amount.now)) }
    ensures counts { OnOk result (table.new.symbols.counts ≡ table.old.symbols.counts) }
    ensures symbol { IfOk result (λ made.
        IsSymbolOf table.new.symbols amount.now made.symbol) }
{
    match amount {
        Amount::Number(_) => Ok(Interned {
            meant: true,
            symbol: None,
        }),
        Amount::Name(bytes, _) => {
            let id = table.intern_text(pos, bytes)?;
            Ok(Interned {
                meant: true,
                symbol: Some(id),
            })
        }
        Amount::Tree(expr) => {
            let meant = table.intern_tree(pos, expr)?;
            Ok(Interned {
                meant,
                symbol: None,
            })
        }
    }
}

/// What came of the names of an instruction.
#[derive(Clone, Copy)]
pub struct InsnNames {
    /// How many symbols were there before, and whether each `Nb` means a label that came before.
    pub naming: Naming,
    /// The symbol of a displacement that is one name and a number, where it was at hand.
    pub displacement: Option<SymId>,
}

/// The same where memory stands first: the symbol of the displacement is told where no name follows.
#[inline(never)]
#[tactic(auto, unfolding(asm_uses::specs::Tables::with_tree, asm_uses::specs::Tables::with_trees, asm_uses::specs::Tables::are_meant, asm_uses::specs::Tables::is_meant))]
fn intern_turned(table: &mut SymbolUses, pos: Pos, insn: &Insn) -> Result<InsnNames, NoMemory>
    ensures ok { OnOk result (table.new ≡ with_trees pos (trees_of Intel insn.now) table.old) }
    ensures naming { IfOk result (λ made.
        made.naming ≡ naming_of (trees_of Intel insn.now) table.old) }
    ensures symbol { IfOk result (λ made.
        IsSymbolOf table.new.symbols insn.now.displacement.amount made.displacement) }
{
    let before = table.symbols().len();
    let moved = intern_amount(table, pos, &insn.displacement.amount)?;
    if let Amount::Number(_) = insn.immediate.amount {
        return Ok(InsnNames {
            naming: Naming {
                before,
                meant: moved.meant,
            },
            displacement: moved.symbol,
        });
    }
    let own = intern_amount(table, pos, &insn.immediate.amount)?;
    Ok(InsnNames {
        naming: Naming {
            before,
            meant: moved.meant && own.meant,
        },
        displacement: None,
    })
}

/// The names of an instruction in AT&T syntax have symbols from now on, whatever room there is.
#[tactic(auto, unfolding(asm_uses::specs::Tables::with_trees, asm_uses::specs::Tables::are_meant))]
fn intern_straight(table: &mut SymbolUses, pos: Pos, insn: &Insn) -> Result<InsnNames, NoMemory>
    ensures ok { OnOk result (table.new ≡ with_trees pos (trees_of Att insn.now) table.old) }
    ensures naming { IfOk result (λ made.
        made.naming ≡ naming_of (trees_of Att insn.now) table.old) }
    ensures symbol { IfOk result (λ made.
        IsSymbolOf table.new.symbols insn.now.displacement.amount made.displacement) }
{
    let before = table.symbols().len();
    let own = intern_amount(table, pos, &insn.immediate.amount)?;
    let moved = intern_amount(table, pos, &insn.displacement.amount)?;
    Ok(InsnNames {
        naming: Naming {
            before,
            meant: own.meant && moved.meant,
        },
        displacement: moved.symbol,
    })
}

/// The names of the amounts of `insn`, which stands at `pos` and was read in `syntax`, have symbols in
/// `table` from now on, in the order of its text, whatever room there is.
///
/// # Errors
///
/// `NoMemory` where memory is refused; some of the names may have symbols then.
#[inline(always)]
pub fn intern_amounts(
    table: &mut SymbolUses,
    pos: Pos,
    syntax: Syntax,
    insn: &Insn,
) -> Result<InsnNames, NoMemory>
    ensures ok { OnOk result (table.new ≡ with_trees pos (trees_of syntax insn.now) table.old) }
    ensures naming { IfOk result (λ made.
        made.naming ≡ naming_of (trees_of syntax insn.now) table.old) }
    ensures symbol { IfOk result (λ made.
        IsSymbolOf table.new.symbols insn.now.displacement.amount made.displacement) }
{
    match syntax {
        Syntax::Att => intern_straight(table, pos, insn),
        Syntax::Intel => intern_turned(table, pos, insn),
    }
}
