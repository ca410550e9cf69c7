//! Placing instructions: the names of their values become symbols, and their bytes and the fields over
//! these are put.

ghost use Rattle.std.specs.Prelude.{◌≡◌, ◌∷◌, [], map, option_map, Some, OnOk};
ghost use Rattle.asm_base.specs.Tokens.{spelled};
ghost use Rattle.att_insns.specs.Reading as att;
ghost use Rattle.intel_insns.specs.Reading as intel;
ghost use Rattle.att_insns.specs.InsnTexts.{InsnText, IsInsnOf};
ghost use Rattle.asm_words.specs.declared.directives.Syntax.TheVariants.{Att};
ghost use Rattle.asm_values.specs.State.{with_names, put_bytes};
ghost use Rattle.asm_values.specs.PlacedBy.{placed_by, PlacesBy};
ghost use Rattle.asm_uses.specs.Tables.{naming_of};
ghost use Rattle.x86_insn.specs.Amounts.{amount_tree};
ghost use Rattle.asm_expr.specs.Trees.{number};
ghost use Rattle.amount_forms.specs.Amounts.{trees_of, IsSymbolOf};
ghost use Rattle.asm_place.specs.Coding.{shape_of, insn_of_trees, place_insn, place_text, place_read, lone_code, lone_asked, place_either, place_instruction};
ghost use Rattle.asm_place.specs.Effects.{ShowsAsked, view_here, view_named, view_amounts, view_read, view_lone, view_coded, insn_view};
ghost use Rattle.asm_place.specs.Amounts.{place_amounts, FitsThere};

use crate::code_putting::put_insn;
use crate::codes::{InsnForms, operand_fault};
use crate::watches::Watch;
use amount_forms::{InsnNames, PlacedForm, amount_form, amounts_fit, intern_amounts};
use asm_base::{Pos, Token};
use asm_expr::constant_form;
use asm_operands::PlaceFault;
use asm_uses::Naming;
use asm_values::Assembler;
use asm_words::Syntax;
use att_operands::OperandFault;
use x86_insn::{Amount, Insn};
use x86_lookup::bare_code;

/// An instruction whose names have symbols.
fn place_interned(
    assembler: &mut Assembler,
    pos: Pos,
    insn: &Insn,
    made: InsnNames,
    watch: &mut Watch,
) -> Result<(), PlaceFault>
    requires { IsSymbolOf (placed_by assembler.old).table.symbols insn.now.displacement.amount
        made.displacement }
    ensures placed { PlacesBy (insn_of_trees pos (shape_of insn.now) made.naming
        (amount_tree insn.now.immediate.amount) (amount_tree insn.now.displacement.amount))
        assembler.old assembler.new result }
    ensures shows { OnOk result (ShowsAsked watch.old.asked (view_here (shape_of insn.now)
        (amount_tree insn.now.immediate.amount) (amount_tree insn.now.displacement.amount)
        (placed_by assembler.old)) watch.new.effect) }
    ensures kept { assembler.new.notes ≡ assembler.old.notes }
{
    let spot = assembler.here();
    let InsnNames {
        naming,
        displacement,
    } = made;
    let one = amount_form(assembler, &insn.immediate.amount, None)?;
    let other = amount_form(assembler, &insn.displacement.amount, displacement)?;
    let keeps = one.keeps || other.keeps;
    let forms = InsnForms {
        immediate: one.form,
        displacement: other.form,
    };
    watch.see(insn, &forms);
    put_insn(assembler, pos, insn, forms)?;
    assembler.table.end_naming(pos, naming, spot, keeps)
}

/// An instruction with names.
#[inline(never)]
#[tactic(auto, unfolding(crate::specs::Coding::place_insn))]
fn place_named(
    assembler: &mut Assembler,
    pos: Pos,
    insn: &Insn,
    watch: &mut Watch,
) -> Result<(), PlaceFault>
    ensures placed { PlacesBy (place_amounts pos insn.now) assembler.old assembler.new result }
    ensures fits { FitsThere result pos insn.now (placed_by assembler.old) }
    ensures shows { OnOk result (ShowsAsked watch.old.asked
        (view_amounts pos insn.now (placed_by assembler.old)) watch.new.effect) }
    ensures kept { assembler.new.notes ≡ assembler.old.notes }
{
    let made = intern_amounts(&mut assembler.table, pos, assembler.syntax, insn)?;
    amounts_fit(assembler, insn, made.displacement);
    place_interned(assembler, pos, insn, made, watch)
}

/// An instruction whose values are numbers.
#[tactic(auto, unfolding(crate::specs::Coding::place_insn, asm_expr::specs::Linear::linear, asm_operands::specs::Expressions::form_in, asm_uses::specs::Tables::with_trees, asm_uses::specs::Tables::with_tree, asm_uses::specs::Tables::are_meant, asm_uses::specs::Tables::is_meant, asm_uses::specs::Places::name_here))]
fn place_numbers(
    assembler: &mut Assembler,
    pos: Pos,
    insn: &Insn,
    immediate: u64,
    displacement: u64,
    watch: &mut Watch,
) -> Result<(), PlaceFault>
    ensures placed { PlacesBy (place_insn pos (shape_of insn.now) (number immediate) (number displacement))
        assembler.old assembler.new result }
    ensures shows { OnOk result (ShowsAsked watch.old.asked (view_named pos (shape_of insn.now)
        (number immediate) (number displacement) (placed_by assembler.old)) watch.new.effect) }
    ensures kept { assembler.new.notes ≡ assembler.old.notes }
{
    let naming = Naming {
        before: assembler.table.symbols().len(),
        meant: true,
    };
    let forms = InsnForms {
        immediate: constant_form(assembler.alloc, immediate),
        displacement: constant_form(assembler.alloc, displacement),
    };
    watch.see(insn, &forms);
    put_insn(assembler, pos, insn, forms)?;
    assembler.table.allow(naming)
}

/// An instruction by its amounts.
fn place_insn(
    assembler: &mut Assembler,
    pos: Pos,
    insn: &Insn,
    watch: &mut Watch,
) -> Result<(), PlaceFault>
    ensures placed { PlacesBy (place_amounts pos insn.now) assembler.old assembler.new result }
    ensures fits { FitsThere result pos insn.now (placed_by assembler.old) }
    ensures shows { OnOk result (ShowsAsked watch.old.asked
        (view_amounts pos insn.now (placed_by assembler.old)) watch.new.effect) }
    ensures kept { assembler.new.notes ≡ assembler.old.notes }
{
    match (&insn.immediate.amount, &insn.displacement.amount) {
        (Amount::Number(own), Amount::Number(moved)) => {
            place_numbers(assembler, pos, insn, *own, *moved, watch)
        }
        _ => place_named(assembler, pos, insn, watch),
    }
}

/// The bytes of a mnemonic that stands alone in AT&T syntax, if it has a row without operands.
#[inline(always)]
fn lone_code(tokens: &[Token]) -> Option<&'static [u8]>
    ensures { option_map (λ bytes. bytes.now) result ≡ lone_code Att (map spelled tokens.now) }
{
    match tokens {
        [name] => bare_code(name.bytes),
        _ => None,
    }
}

/// The same where effects are asked for, and none else.
#[inline(always)]
fn lone_asked(asked: bool, tokens: &[Token]) -> Option<&'static [u8]>
    ensures { option_map (λ bytes. bytes.now) result ≡ lone_asked asked (map spelled tokens.now) }
{
    if asked { lone_code(tokens) } else { None }
}

/// Any instruction in AT&T syntax. A mnemonic that stands alone has bytes of its own, and is read where its
/// effect is asked for.
#[inline(never)]
fn place_att(
    assembler: &mut Assembler,
    pos: Pos,
    tokens: &[Token],
    watch: &mut Watch,
) -> Result<(), PlaceFault>
    ensures placed { PlacesBy (place_either pos
        (lone_asked watch.old.asked (map spelled tokens.now)) (att.insn_of (map spelled tokens.now)))
        assembler.old assembler.new result }
    ensures shows { OnOk result (ShowsAsked watch.old.asked (view_coded pos
        (lone_asked watch.old.asked (map spelled tokens.now)) (att.insn_of (map spelled tokens.now))
        (placed_by assembler.old)) watch.new.effect) }
    ensures kept { assembler.new.notes ≡ assembler.old.notes }
{
    match att_insns::read_insn(assembler.alloc, tokens) {
        Ok(insn) => match lone_asked(watch.asked, tokens) {
            None => place_insn(assembler, pos, &insn, watch),
            Some(bytes) => {
                watch.see_alone(&insn);
                assembler.put_bytes(pos, bytes)
            }
        },
        Err(OperandFault::Fault(cause)) => match lone_asked(watch.asked, tokens) {
            None => Err(PlaceFault::Fault(operand_fault(cause))),
            Some(bytes) => {
                watch.see_none();
                assembler.put_bytes(pos, bytes)
            }
        },
        Err(OperandFault::NoMemory) => Err(PlaceFault::NoMemory),
    }
}

/// Any instruction in Intel syntax.
#[inline(never)]
#[tactic(auto, using(crate::proofs::AmountTrees::read_placed, crate::proofs::EffectLemmas::read_shown))]
fn place_intel(
    assembler: &mut Assembler,
    pos: Pos,
    tokens: &[Token],
    watch: &mut Watch,
) -> Result<(), PlaceFault>
    ensures placed { PlacesBy (place_read pos (intel.insn_of (map spelled tokens.now)))
        assembler.old assembler.new result }
    ensures shows { OnOk result (ShowsAsked watch.old.asked (view_read pos
        (intel.insn_of (map spelled tokens.now)) (placed_by assembler.old)) watch.new.effect) }
    ensures kept { assembler.new.notes ≡ assembler.old.notes }
{
    match intel_insns::read_insn(assembler.alloc, tokens) {
        Ok(insn) => place_insn(assembler, pos, &insn, watch),
        Err(OperandFault::Fault(cause)) => Err(PlaceFault::Fault(operand_fault(cause))),
        Err(OperandFault::NoMemory) => Err(PlaceFault::NoMemory),
    }
}

/// A mnemonic that stands alone in AT&T syntax, by its bytes. It is read only where its effect is asked for.
#[inline(always)]
fn place_alone(
    assembler: &mut Assembler,
    pos: Pos,
    tokens: &[Token],
    bytes: &'static [u8],
    watch: &mut Watch,
) -> Result<(), PlaceFault>
    requires { lone_code Att (map spelled tokens.now) ≡ Some bytes.now }
    ensures placed { PlacesBy (put_bytes pos bytes.now) assembler.old assembler.new result }
    ensures shows { OnOk result (ShowsAsked watch.old.asked
        (view_lone (att.insn_of (map spelled tokens.now))) watch.new.effect) }
    ensures kept { assembler.new.notes ≡ assembler.old.notes }
{
    if watch.asked {
        place_att(assembler, pos, tokens, watch)
    } else {
        assembler.put_bytes(pos, bytes)
    }
}

/// A statement that is an instruction, in the syntax that is in force. In Intel syntax all are read.
#[inline(always)]
#[tactic(auto, unfolding(crate::specs::Coding::place_instruction), using(crate::proofs::EffectLemmas::none_asked))]
pub(crate) fn place_instruction(
    assembler: &mut Assembler,
    pos: Pos,
    tokens: &[Token],
    watch: &mut Watch,
) -> Result<(), PlaceFault>
    ensures placed { PlacesBy (place_instruction pos (map spelled tokens.now))
        assembler.old assembler.new result }
    ensures shows { OnOk result (ShowsAsked watch.old.asked (insn_view pos
        (map spelled tokens.now) (placed_by assembler.old)) watch.new.effect) }
    ensures kept { assembler.new.notes ≡ assembler.old.notes }
{
    match assembler.syntax {
        Syntax::Intel => place_intel(assembler, pos, tokens, watch),
        Syntax::Att => match lone_code(tokens) {
            Some(bytes) => place_alone(assembler, pos, tokens, bytes, watch),
            None => place_att(assembler, pos, tokens, watch),
        },
    }
}
