//! Placing the statements that are handed out, one after the other.

ghost use Rattle.std.specs.Prelude.{◌≡◌, map, IfOk};
ghost use Rattle.asm_base.specs.Tokens.{spelled};
ghost use Rattle.asm_place.specs.Faults.{statement_fault};
ghost use Rattle.asm_place.specs.Sources.{IsRefusalAt};

use crate::place_faults::{BoxedFault, FaultAt};
use crate::placing::place_tokens;
use crate::remarks::last_string;
use asm_base::{Fault, Notes, Pos, Refusal, SaidText, StatementFault, Token};
use asm_frags::FragFault;
use asm_lines::Placer;
use asm_operands::{PlaceCause, PlaceFault};
use asm_values::{Assembler, Placed};
use std::alloc::{AllocError, Global};
use std::marker::Model;
use std::mem;

/// The fault that placing answers, as one of the statement with these tokens.
fn statement_fault(
    alloc: Global,
    tokens: &[Token],
    fault: PlaceCause,
) -> Result<StatementFault, AllocError>
    ensures { IfOk result (λ stated. stated ≡ statement_fault (map spelled tokens.now) fault) }
{
    Ok(match fault {
        PlaceCause::BadExpression => StatementFault::BadExpression,
        PlaceCause::NumberTooWide => StatementFault::NumberTooWide,
        PlaceCause::ExpressionTooDeep => StatementFault::ExpressionTooDeep,
        PlaceCause::DivisionByZero => StatementFault::DivisionByZero,
        PlaceCause::ValueNotKnown => StatementFault::ValueNotKnown,
        PlaceCause::NotASumOfSymbols => StatementFault::NotASumOfSymbols,
        PlaceCause::ErrorDirective => {
            let text = SaidText::new(alloc, last_string(alloc, tokens)?)?;
            StatementFault::ErrorDirective(text)
        }
        PlaceCause::UnknownMnemonic => StatementFault::UnknownMnemonic,
        PlaceCause::UnknownDirective => StatementFault::UnknownDirective,
        PlaceCause::BadOperand => StatementFault::BadOperand,
        PlaceCause::NoSuchForm => StatementFault::NoSuchForm,
        PlaceCause::UnknownOperandSize => StatementFault::UnknownOperandSize,
        PlaceCause::OutOfRange => StatementFault::OutOfRange,
        PlaceCause::BadSection => StatementFault::BadSection,
        PlaceCause::SymbolAlreadyDefined => StatementFault::SymbolAlreadyDefined,
        PlaceCause::BadSymbolUse => StatementFault::BadSymbolUse,
        PlaceCause::CfiOutsideProcedure => StatementFault::CfiOutsideProcedure,
        PlaceCause::UnbalancedCfiState => StatementFault::UnbalancedCfiState,
        PlaceCause::UnassignedFileNumber => StatementFault::UnassignedFileNumber,
        PlaceCause::FileNumberInUse => StatementFault::FileNumberInUse,
    })
}

/// What the statements so far have placed, for more statements from anywhere.
#[derive(Drop)]
pub struct StatementPlacer {
    pub assembler: Assembler,
}

impl Model for StatementPlacer {
    ghost use Rattle.asm_values.specs.State.{Placed};
    ghost use Rattle.asm_values.specs.PlacedBy.{placed_by};

    ghost Value = { Placed };

    ghost view = { λ placer. placed_by placer.assembler };
}

/// The refusal of the statement at this place, which takes the notes along.
#[inline(never)]
pub(crate) fn refused(
    assembler: &mut Assembler,
    pos: Pos,
    tokens: &[Token],
    refusal: PlaceFault,
) -> Refusal<BoxedFault>
    ensures { IsRefusalAt (record { file = pos.file; line = pos.line; tokens = map spelled tokens.now })
        assembler.old.notes refusal result }
{
    match refusal {
        PlaceFault::NoMemory => Refusal::NoMemory,
        PlaceFault::Fault(cause) => match statement_fault(assembler.alloc, tokens, cause) {
            Err(AllocError) => Refusal::NoMemory,
            Ok(fault) => {
                let notes = mem::replace(&mut assembler.notes, Notes::new(assembler.alloc));
                let fault = Fault::Statement(fault);
                match BoxedFault::new(assembler.alloc, FaultAt { fault, pos, notes }) {
                    Ok(boxed) => Refusal::Fault(boxed),
                    Err(_) => Refusal::NoMemory,
                }
            }
        },
    }
}

impl StatementPlacer {
    ghost use Rattle.std.specs.Prelude.{◌≡◌, IfOk, IfErr};
    ghost use Rattle.asm_base.specs.declared.refusals.Refusal.TheVariants.{NoMemory};
    ghost use Rattle.asm_values.specs.State.{nothing_placed};

    /// Nothing is placed yet.
    pub fn new(alloc: Global, no_warn: bool) -> Result<StatementPlacer, FragFault>
        ensures ok { IfOk result (λ placer. placer ≡ nothing_placed no_warn) }
        ensures memory { IfErr result (λ refusal. refusal ≡ NoMemory) }
    {
        Ok(StatementPlacer {
            assembler: Assembler::new(alloc, no_warn)?,
        })
    }

    /// The sections, the symbols and the notes.
    pub fn into_parts(self) -> Placed
        ensures sections { result.sections ≡ self.sections }
        ensures table { result.table ≡ self.table }
        ensures notes { result.notes ≡ self.notes }
    {
        self.assembler.into_parts()
    }
}

impl Placer for StatementPlacer {
    ghost use Rattle.asm_place.specs.Sources.{place};

    type Fault = BoxedFault;

    ghost placed = { λ before statement. place statement before };

    #[tactic(auto, unfolding(crate::specs::Sources::place))]
    #[inline(always)]
    fn place(&mut self, pos: Pos, tokens: &[Token]) -> Result<(), Refusal<BoxedFault>> {
        match place_tokens(&mut self.assembler, pos, tokens) {
            Ok(()) => Ok(()),
            Err(refusal) => Err(refused(&mut self.assembler, pos, tokens, refusal)),
        }
    }
}
