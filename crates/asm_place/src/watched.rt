//! Placing statements without labels, and telling what they do: an instruction its effect, an alignment its
//! fill.

ghost use Rattle.std.specs.Prelude.{◌≡◌, false, map, drop, Some, IfOk, OnOk};
ghost use Rattle.asm_base.specs.Tokens.{spelled};
ghost use Rattle.asm_items.specs.Alignments.{place_align};
ghost use Rattle.asm_operands.specs.Operands.{begins_with_label};
ghost use Rattle.asm_values.specs.PlacedBy.{placed_by, PlacesBy};
ghost use Rattle.asm_words.specs.declared.directives.Directive.TheVariants.{Align};
ghost use Rattle.asm_place.specs.declared.bodies.Body.TheVariants.{Directed, Instruction};
ghost use Rattle.asm_place.specs.Bodies.{body_of};
ghost use Rattle.asm_place.specs.Effects.{ShowsAsked, insn_view, fill_said};
ghost use Rattle.asm_place.specs.Placing.{place_tokens};

use crate::instructions::place_instruction;
use crate::place_faults::BoxedFault;
use crate::sources::{StatementPlacer, refused};
use crate::watches::Watch;
use asm_base::{Pos, Refusal, Token};
use asm_items::put_align;
use asm_operands::{Operands, PlaceFault};
use asm_values::Assembler;
use asm_words::AlignedBy;
use insn_effects::Effect;

/// An instruction without labels.
fn place_code(
    assembler: &mut Assembler,
    pos: Pos,
    tokens: &[Token],
    watch: &mut Watch,
) -> Result<(), PlaceFault>
    requires bare { begins_with_label (map spelled tokens.now) ≡ false }
    requires code { body_of (map spelled tokens.now) ≡ Instruction }
    ensures placed { PlacesBy (place_tokens pos (map spelled tokens.now))
        assembler.old assembler.new result }
    ensures shows { OnOk result (ShowsAsked watch.old.asked (insn_view pos
        (map spelled tokens.now) (placed_by assembler.old)) watch.new.effect) }
    ensures kept { assembler.new.notes ≡ assembler.old.notes }
{
    place_instruction(assembler, pos, tokens, watch)
}

/// What stands behind the first token.
fn behind_first<'a, 'b>(tokens: &'a [Token<'b>]) -> &'a [Token<'b>]
    ensures { map spelled result.now ≡ drop 1 (map spelled tokens.now) }
{
    match tokens {
        [_, rest @ ..] => rest,
        [] => &[],
    }
}

/// An alignment of these operands, and its fill as a whole value, if one is said.
#[tactic(auto, unfolding(asm_items::specs::Alignments::place_align))]
fn place_filled(
    assembler: &mut Assembler,
    pos: Pos,
    by: AlignedBy,
    operands: &[Token],
) -> Result<Option<u64>, PlaceFault>
    ensures placed { PlacesBy (place_align pos by (map spelled operands.now))
        assembler.old assembler.new result }
    ensures fill { IfOk result (λ fill.
        fill ≡ fill_said pos (map spelled operands.now) (placed_by assembler.old)) }
    ensures kept { assembler.new.notes ≡ assembler.old.notes }
{
    let given = assembler.known_operands(pos, 3, &mut Operands::new(operands))?;
    let fill = given.values.second;
    put_align(assembler, pos, by, given.naming, given.values)?;
    Ok(fill)
}

/// An alignment without labels, and its fill.
fn place_aligned(
    assembler: &mut Assembler,
    pos: Pos,
    by: AlignedBy,
    tokens: &[Token],
) -> Result<Option<u64>, PlaceFault>
    requires bare { begins_with_label (map spelled tokens.now) ≡ false }
    requires aligns { body_of (map spelled tokens.now) ≡ Directed (Some (Align by)) }
    ensures placed { PlacesBy (place_tokens pos (map spelled tokens.now))
        assembler.old assembler.new result }
    ensures fill { IfOk result (λ fill.
        fill ≡ fill_said pos (drop 1 (map spelled tokens.now)) (placed_by assembler.old)) }
    ensures kept { assembler.new.notes ≡ assembler.old.notes }
{
    place_filled(assembler, pos, by, behind_first(tokens))
}

impl StatementPlacer {
    ghost use Rattle.std.specs.Prelude.{◌≡◌, false, map, drop, Some, IfOk};
    ghost use Rattle.asm_base.specs.Refusals.{Gives};
    ghost use Rattle.asm_base.specs.Tokens.{spelled};
    ghost use Rattle.asm_operands.specs.Operands.{begins_with_label};
    ghost use Rattle.asm_words.specs.declared.directives.Directive.TheVariants.{Align};
    ghost use Rattle.asm_place.specs.declared.bodies.Body.TheVariants.{Directed, Instruction};
    ghost use Rattle.asm_place.specs.Bodies.{body_of};
    ghost use Rattle.asm_place.specs.Effects.{ShowsInsn, insn_view, fill_said};
    ghost use Rattle.asm_place.specs.Sources.{place};

    /// Places an instruction without labels as `place` does, and tells its effect, by the values that
    /// are known where it stands.
    #[tactic(auto, unfolding(crate::specs::Sources::place))]
    pub fn place_watched(
        &mut self,
        pos: Pos,
        tokens: &[Token],
    ) -> Result<Effect, Refusal<BoxedFault>>
        requires bare { begins_with_label (map spelled tokens.now) ≡ false }
        requires code { body_of (map spelled tokens.now) ≡ Instruction }
        ensures placed { Gives self.new result (place
            (record { file = pos.file; line = pos.line; tokens = map spelled tokens.now }) self.old) }
        ensures shows { IfOk result (λ effect.
            ShowsInsn (insn_view pos (map spelled tokens.now) self.old) effect) }
    {
        let mut watch = Watch::asking();
        match place_code(&mut self.assembler, pos, tokens, &mut watch) {
            Ok(()) => Ok(watch.effect),
            Err(refusal) => Err(refused(&mut self.assembler, pos, tokens, refusal)),
        }
    }

    /// Places an alignment without labels as `place` does, and tells its fill as a whole value, if one
    /// is said.
    #[tactic(auto, unfolding(crate::specs::Sources::place))]
    pub fn place_alignment(
        &mut self,
        pos: Pos,
        by: AlignedBy,
        tokens: &[Token],
    ) -> Result<Option<u64>, Refusal<BoxedFault>>
        requires bare { begins_with_label (map spelled tokens.now) ≡ false }
        requires aligns { body_of (map spelled tokens.now) ≡ Directed (Some (Align by)) }
        ensures placed { Gives self.new result (place
            (record { file = pos.file; line = pos.line; tokens = map spelled tokens.now }) self.old) }
        ensures fill { IfOk result (λ fill.
            fill ≡ fill_said pos (drop 1 (map spelled tokens.now)) self.old) }
    {
        match place_aligned(&mut self.assembler, pos, by, tokens) {
            Ok(fill) => Ok(fill),
            Err(refusal) => Err(refused(&mut self.assembler, pos, tokens, refusal)),
        }
    }
}
