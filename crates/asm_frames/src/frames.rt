//! The `.cfi_` directives, each by what its operands are (GNU as manual, "CFI directives").

ghost use Rattle.std.specs.Prelude.{◌≡◌, map};
ghost use Rattle.asm_base.specs.Tokens.{spelled};
ghost use Rattle.asm_values.specs.PlacedBy.{placed_by, PlacesBy};
ghost use Rattle.asm_operands.specs.OperandParts.{operands_left};
ghost use Rattle.asm_operands.specs.Results.{all_steps};
ghost use Rattle.asm_frames.specs.Placing as spec;

use crate::offsets::{place_offset, place_slot};
use crate::operands::{one_register, register_in, registers, two_registers};
use crate::pointers::place_pointer;
use crate::taking::take_line;
use crate::words::{OffsetWord, RuleWord, SlotWord, rule_row};
use asm_base::{Pos, Token};
use asm_operands::{Operands, PlaceCause, PlaceFault, is_name};
use asm_values::Assembler;
use asm_words::FrameDirective;
use cfi_directives::{CfiLine, DwarfRegister, PointerKind, RowDirective};

/// A directive without operands.
fn place_bare(assembler: &mut Assembler, line: CfiLine, tokens: &[Token]) -> Result<(), PlaceFault>
    ensures placed { PlacesBy (spec.place_bare line (map spelled tokens.now))
        assembler.old assembler.new result }
    ensures kept { assembler.new.notes ≡ assembler.old.notes }
{
    if tokens.is_empty() {
        take_line(assembler, line)
    } else {
        Err(PlaceFault::Fault(PlaceCause::BadOperand))
    }
}

/// `.cfi_sections`: frame tables go into `.eh_frame`, and nowhere else.
fn place_sections(assembler: &Assembler, tokens: &[Token]) -> Result<(), PlaceFault>
    ensures { PlacesBy (spec.place_sections (map spelled tokens.now))
        assembler.now assembler.now result }
{
    match tokens {
        [token] if is_name(token) && token.bytes == b".eh_frame".as_slice() => Ok(()),
        _ => Err(PlaceFault::Fault(PlaceCause::BadOperand)),
    }
}

/// `.cfi_def_cfa_register`: one register.
#[tactic(auto, unfolding(crate::specs::Placing::place_cfa_register))]
fn place_cfa_register(assembler: &mut Assembler, tokens: &[Token]) -> Result<(), PlaceFault>
    ensures placed { PlacesBy (spec.place_cfa_register (map spelled tokens.now))
        assembler.old assembler.new result }
    ensures kept { assembler.new.notes ≡ assembler.old.notes }
{
    let register = one_register(assembler, &mut Operands::new(tokens))?;
    take_line(
        assembler,
        CfiLine::Row(RowDirective::DefCfaRegister(register)),
    )
}

/// `.cfi_register`: two registers.
#[tactic(auto, unfolding(crate::specs::Placing::place_register))]
fn place_register(assembler: &mut Assembler, tokens: &[Token]) -> Result<(), PlaceFault>
    ensures placed { PlacesBy (spec.place_register (map spelled tokens.now))
        assembler.old assembler.new result }
    ensures kept { assembler.new.notes ≡ assembler.old.notes }
{
    let (one, other) = two_registers(assembler, &mut Operands::new(tokens))?;
    take_line(assembler, CfiLine::Row(RowDirective::Register(one, other)))
}

/// Takes what the directive says of a register.
fn take_rule(
    assembler: &mut Assembler,
    word: RuleWord,
    register: DwarfRegister,
) -> Result<(), PlaceFault>
    ensures placed { PlacesBy (spec.take_rule word register) assembler.old assembler.new result }
    ensures kept { assembler.new.notes ≡ assembler.old.notes }
{
    take_line(assembler, CfiLine::Row(rule_row(word, register)))
}

/// A directive of one register.
#[tactic(auto, unfolding(crate::specs::Placing::place_one))]
fn place_one(assembler: &mut Assembler, word: RuleWord, operand: &[Token]) -> Result<(), PlaceFault>
    ensures placed { PlacesBy (spec.place_one word (map spelled operand.now))
        assembler.old assembler.new result }
    ensures kept { assembler.new.notes ≡ assembler.old.notes }
{
    let register = register_in(assembler, operand)?;
    take_rule(assembler, word, register)
}

/// Takes what the directive says of each register, one after the other.
#[tactic(auto, unfolding(asm_operands::specs::Results::all_steps))]
fn take_rules(
    assembler: &mut Assembler,
    word: RuleWord,
    registers: Vec<DwarfRegister>,
) -> Result<(), PlaceFault>
    ensures placed { PlacesBy (all_steps (spec.take_rule word) registers.items)
        assembler.old assembler.new result }
    ensures kept { assembler.new.notes ≡ assembler.old.notes }
{
    for register in registers {
        take_rule(assembler, word, register)?;
    }
    Ok(())
}

/// A directive of any registers: all are read before the first is taken.
#[inline(never)]
#[tactic(auto, unfolding(crate::specs::Placing::place_each))]
fn place_each(
    assembler: &mut Assembler,
    word: RuleWord,
    operands: Operands,
) -> Result<(), PlaceFault>
    ensures placed { PlacesBy (spec.place_each word (operands_left operands.entry))
        assembler.old assembler.new result }
    ensures kept { assembler.new.notes ≡ assembler.old.notes }
{
    let registers = registers(assembler, operands)?;
    take_rules(assembler, word, registers)
}

/// A directive of one or more registers. One alone needs no list.
#[tactic(auto, unfolding(crate::specs::Placing::place_rules))]
fn place_rules(
    assembler: &mut Assembler,
    word: RuleWord,
    tokens: &[Token],
) -> Result<(), PlaceFault>
    ensures placed { PlacesBy (spec.place_rules word (map spelled tokens.now))
        assembler.old assembler.new result }
    ensures kept { assembler.new.notes ≡ assembler.old.notes }
{
    let operands = Operands::new(tokens);
    let mut behind = operands;
    let Some(first) = behind.next() else {
        return Err(PlaceFault::Fault(PlaceCause::BadOperand));
    };
    match behind.next() {
        None => place_one(assembler, word, first),
        Some(_) => place_each(assembler, word, operands),
    }
}

/// A `.cfi_` directive.
#[tactic(auto, unfolding(crate::specs::Placing::place_frame))]
pub fn place_frame(
    assembler: &mut Assembler,
    directive: FrameDirective,
    pos: Pos,
    tokens: &[Token],
) -> Result<(), PlaceFault>
    ensures placed { PlacesBy (spec.place_frame directive pos (map spelled tokens.now))
        assembler.old assembler.new result }
    ensures kept { assembler.new.notes ≡ assembler.old.notes }
{
    use OffsetWord::{AdjustCfaOffset, DefCfaOffset};
    match directive {
        FrameDirective::StartProc => place_bare(assembler, CfiLine::StartProc(pos), tokens),
        FrameDirective::EndProc => place_bare(assembler, CfiLine::EndProc, tokens),
        FrameDirective::Sections => place_sections(assembler, tokens),
        FrameDirective::DefCfa => place_slot(assembler, SlotWord::DefCfa, pos, tokens),
        FrameDirective::DefCfaRegister => place_cfa_register(assembler, tokens),
        FrameDirective::DefCfaOffset => place_offset(assembler, DefCfaOffset, pos, tokens),
        FrameDirective::AdjustCfaOffset => place_offset(assembler, AdjustCfaOffset, pos, tokens),
        FrameDirective::Offset => place_slot(assembler, SlotWord::Offset, pos, tokens),
        FrameDirective::RelOffset => place_slot(assembler, SlotWord::RelOffset, pos, tokens),
        FrameDirective::ValOffset => place_slot(assembler, SlotWord::ValOffset, pos, tokens),
        FrameDirective::Register => place_register(assembler, tokens),
        FrameDirective::RememberState => {
            place_bare(assembler, CfiLine::Row(RowDirective::RememberState), tokens)
        }
        FrameDirective::RestoreState => {
            place_bare(assembler, CfiLine::Row(RowDirective::RestoreState), tokens)
        }
        FrameDirective::Restore => place_rules(assembler, RuleWord::Restore, tokens),
        FrameDirective::Undefined => place_rules(assembler, RuleWord::Undefined, tokens),
        FrameDirective::SameValue => place_rules(assembler, RuleWord::SameValue, tokens),
        FrameDirective::Personality => {
            place_pointer(assembler, PointerKind::Personality, pos, tokens)
        }
        FrameDirective::Lsda => place_pointer(assembler, PointerKind::Lsda, pos, tokens),
    }
}
