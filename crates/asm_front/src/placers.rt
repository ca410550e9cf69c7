//! The placer of the statements that expansion hands out.

ghost use Rattle.std.specs.Prelude.{◌≡◌, [], false};

use crate::knowing::{definition_told, value_told};
use asm_base::{NoMemory, Pos, Refusal, Token};
use asm_functions::{
    FollowingPlacer, SeenFunctions, following_is_not_reading, functions_stand_in_order, with_remark,
};
use asm_lines::Placer;
use asm_place::{BoxedFault, FaultAt};
use asm_values::Placed;
use code_functions::Functions;
use macro_words::{KnowingPlacer, MacroCause};
use source_ends::functions_are_ready;
use std::alloc::{AllocError, Global};
use std::marker::Model;

/// A fault of a statement that was handed out: none says that a file is too large.
#[derive(Drop)]
pub(crate) struct StatementRefusal {
    fault: BoxedFault,
}

impl Model for StatementRefusal {
    ghost use Rattle.std.specs.Prelude.{◌≡◌, false};
    ghost use Rattle.asm_place.specs.Faults.{is_file_too_large};
    ghost use Rattle.asm_place.specs.declared.place_faults.FaultAt.{FaultAt};

    ghost Value = { FaultAt };

    ghost view = { λ refusal. refusal.fault };

    ghost invariant = { λ refusal. is_file_too_large refusal.fault.fault ≡ false };
}

impl StatementRefusal {
    ghost use Rattle.std.specs.Prelude.{◌≡◌, false};
    ghost use Rattle.asm_place.specs.Faults.{is_file_too_large};

    /// The fault, its place and the notes before it.
    pub(crate) fn into_fault(self) -> FaultAt
        ensures value { result ≡ self }
        ensures apart { is_file_too_large result.fault ≡ false }
    {
        self.fault.into_fault()
    }
}

/// What the statements so far have placed, the functions that are followed, and what counts and
/// conditions know there.
#[derive(Drop)]
pub(crate) struct SourcePlacer {
    following: FollowingPlacer,
}

impl Model for SourcePlacer {
    ghost use Rattle.asm_functions.specs.FollowedSource.{FollowedSource};
    ghost use Rattle.asm_front.specs.PlacerStates.{IsOrdered};

    ghost Value = { FollowedSource };

    ghost view = { λ placer. placer.following };

    ghost invariant = { λ placer. IsOrdered placer.following };
}

/// No function is followed any more, as nothing is known of where sections end behind a fault.
#[inline(never)]
fn forget(following: &mut FollowingPlacer)
    ensures asked { following.new.asked ≡ false }
    ensures functions { following.new.functions ≡ [] }
{
    following.asked = false;
    following.functions = SeenFunctions {
        functions: Functions::new(following.statements.assembler.alloc),
    };
}

impl SourcePlacer {
    ghost use Rattle.std.specs.Prelude.{◌≡◌, All, IfOk};
    ghost use Rattle.asm_functions.specs.FollowedSource.{nothing_followed, notes_of};
    ghost use Rattle.code_functions.specs.Seen.{all_seen};
    ghost use Rattle.source_ends.specs.Synthesis.{IsReady};

    /// Nothing is placed yet.
    pub(crate) fn new(alloc: Global, no_warn: bool, asked: bool) -> Result<SourcePlacer, NoMemory>
        ensures { IfOk result (λ placer. placer ≡ nothing_followed no_warn asked) }
    {
        match FollowingPlacer::new(alloc, no_warn, asked) {
            Ok(following) => Ok(SourcePlacer { following }),
            Err(_) => Err(AllocError),
        }
    }

    /// The sections, the symbols, the procedures, the lines and all notes; and the functions.
    pub(crate) fn into_parts(self) -> Result<(Placed, Functions), NoMemory>
        ensures sections { IfOk result (λ parts. parts.0.sections ≡ self.placed.sections) }
        ensures table { IfOk result (λ parts. parts.0.table ≡ self.placed.table) }
        ensures procedures { IfOk result (λ parts. parts.0.procedures ≡ self.placed.procedures) }
        ensures lines { IfOk result (λ parts. parts.0.lines ≡ self.placed.lines) }
        ensures notes { IfOk result (λ parts. parts.0.notes ≡ notes_of self) }
        ensures functions { IfOk result (λ parts. all_seen parts.1 ≡ self.functions) }
        ensures ready { IfOk result (λ parts. All (IsReady parts.0.sections) parts.1) }
    {
        functions_stand_in_order();
        functions_are_ready();
        let FollowingPlacer {
            statements,
            functions,
            ignored,
            ..
        } = self.following;
        let alloc = statements.assembler.alloc;
        let no_warn = statements.assembler.no_warn;
        let Placed {
            sections,
            table,
            procedures,
            lines,
            notes,
        } = statements.assembler.into_parts();
        let notes = with_remark(alloc, no_warn, ignored, notes)?;
        let parts = Placed {
            sections,
            table,
            procedures,
            lines,
            notes,
        };
        Ok((parts, functions.functions))
    }
}

impl Placer for SourcePlacer {
    ghost use Rattle.asm_functions.specs.FollowedSource.{place_followed};

    type Fault = StatementRefusal;

    ghost placed = { λ before statement. place_followed statement before };

    #[inline(always)]
    fn place(&mut self, pos: Pos, tokens: &[Token]) -> Result<(), Refusal<StatementRefusal>> {
        match self.following.place(pos, tokens) {
            Ok(()) => Ok(()),
            Err(Refusal::Fault(fault)) => {
                forget(&mut self.following);
                following_is_not_reading();
                Err(Refusal::Fault(StatementRefusal { fault }))
            }
            Err(Refusal::NoMemory) => {
                forget(&mut self.following);
                Err(Refusal::NoMemory)
            }
        }
    }
}

impl KnowingPlacer for SourcePlacer {
    ghost use Rattle.asm_front.specs.Assembly.{told_of};

    ghost told = { told_of };

    fn value(&self, tokens: &[Token]) -> Result<u64, Refusal<MacroCause>> {
        value_told(&self.following.statements.assembler, tokens)
    }

    fn is_defined(&self, tokens: &[Token]) -> Result<bool, Refusal<MacroCause>> {
        definition_told(&self.following.statements.assembler, tokens)
    }
}
