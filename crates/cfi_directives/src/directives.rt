//! The directives of a source, taken one after the other.

ghost use Rattle.std.specs.Prelude.{◌≡◌, All, IsTrue, IsNone, is_some};
ghost use Rattle.cfi_directives.specs.Procedures.{no_procedures, frames_of, cfa_offset};
ghost use Rattle.cfi_directives.specs.Saying as saying;
ghost use Rattle.cfi_directives.specs.Sound.{AreSound, IsSound, IsWhole};
ghost use Rattle.cfi_directives.specs.Taking as spec;
ghost use Rattle.cfi_directives.specs.Writable.{is_writable};

use crate::faults::{CfiCause, CfiFault};
use crate::frames::{Frame, Frames, PlacedOp, Pointer};
use crate::instructions::said;
use crate::lines::{CfiLine, PointerKind};
use crate::procedures::Procedure;
use asm_base::{Pos, SectionPlace};
use cfi_rows::CfiOp;
use std::alloc::Global;
use std::marker::Model;

/// The procedures of the directives so far. Contracts see those that have ended, and the one that is open.
#[derive(Drop)]
pub struct Directives {
    alloc: Global,
    /// Those that have ended, with room for the one that is open.
    closed: Vec<Frame>,
    begun: Option<Procedure>,
}

impl Model for Directives {
    ghost use Rattle.std.specs.Prelude.{◌<◌, All, OnSome, vec_len, vec_capacity};
    ghost use Rattle.cfi_directives.specs.Procedures.{Procedures};
    ghost use Rattle.cfi_directives.specs.Sound.{IsWhole};

    ghost Value = { Procedures };

    ghost view = { λ inside. record { closed = inside.closed.items; begun = inside.begun } };

    ghost invariant = { λ inside. All IsWhole inside.closed.items
        × OnSome inside.begun (vec_len inside.closed < vec_capacity inside.closed) };
}

impl Directives {
    /// No procedure.
    pub fn new(alloc: Global) -> Directives
        ensures { result ≡ no_procedures }
    {
        Directives {
            alloc,
            closed: Vec::new(alloc),
            begun: None,
        }
    }

    /// Whether a procedure is open. Whatever was taken, the procedures are sound.
    pub fn is_open(&self) -> bool
        ensures value { result ≡ is_some self.now.begun }
        ensures sound { AreSound self.now }
    {
        match &self.begun {
            Some(procedure) => procedure.is_open(),
            None => false,
        }
    }

    /// `.cfi_startproc`: a procedure begins, and gets room among those that have ended.
    fn start(&mut self, pos: Pos, at: SectionPlace) -> Result<(), CfiFault>
        ensures { spec.Changes self.old self.new result (spec.started pos at self.old) }
    {
        if self.begun.is_some() {
            return Err(CfiFault::Fault(CfiCause::UnbalancedCfiState));
        }
        self.closed.reserve(1)?;
        self.begun = Some(Procedure::new(self.alloc, pos, at));
        Ok(())
    }

    /// `.cfi_endproc`: the procedure ends.
    fn end(&mut self, at: SectionPlace) -> Result<(), CfiFault>
        ensures { spec.Changes self.old self.new result (spec.ended at self.old) }
    {
        match self.begun.take() {
            None => Err(CfiFault::Fault(CfiCause::CfiOutsideProcedure)),
            Some(procedure) if procedure.section() == at.section => {
                // `start` made room for it.
                self.closed.push(procedure.ended(at.place)).unwrap();
                Ok(())
            }
            Some(procedure) => {
                self.begun = Some(procedure);
                Err(CfiFault::Fault(CfiCause::UnbalancedCfiState))
            }
        }
    }

    /// The CFA's offset in the row in force, where a procedure is open.
    fn cfa_offset(&self) -> Option<i64>
        ensures { result ≡ cfa_offset self.now.begun }
    {
        match &self.begun {
            Some(procedure) => Some(procedure.cfa_offset()),
            None => None,
        }
    }

    /// Puts an instruction into the procedure that is open.
    fn put(&mut self, op: CfiOp, at: SectionPlace) -> Result<(), CfiFault>
        requires { IsTrue (is_writable op) }
        ensures { spec.Changes self.old self.new result (spec.put at op self.old) }
    {
        let Some(procedure) = &mut self.begun else {
            return Err(CfiFault::Fault(CfiCause::CfiOutsideProcedure));
        };
        if procedure.section() != at.section {
            return Err(CfiFault::Fault(CfiCause::UnbalancedCfiState));
        }
        let place = at.place;
        procedure.put(PlacedOp { place, op })
    }

    /// Gives the procedure that is open a pointer, or takes it away.
    fn point(
        &mut self,
        kind: PointerKind,
        pointer: Option<Pointer>,
        at: SectionPlace,
    ) -> Result<(), CfiFault>
        ensures { spec.Changes self.old self.new result (spec.pointed kind pointer at self.old) }
    {
        let Some(procedure) = &mut self.begun else {
            return Err(CfiFault::Fault(CfiCause::CfiOutsideProcedure));
        };
        if procedure.section() != at.section {
            return Err(CfiFault::Fault(CfiCause::UnbalancedCfiState));
        }
        procedure.point(kind, pointer);
        Ok(())
    }

    /// Takes a directive at its place, `at` (GNU as manual, "CFI directives"). `OutOfRange` comes exactly where no form
    /// holds the instruction that it says; else `CfiOutsideProcedure` exactly where no procedure is open and it begins
    /// none; else `UnbalancedCfiState` exactly where a procedure begins within one, the place is in another section than
    /// the procedure, no row is there to be restored, or a 17th would be remembered. Whatever is refused, want of memory
    /// included, changes nothing.
    pub fn take(&mut self, line: CfiLine, at: SectionPlace) -> Result<(), CfiFault>
        ensures { spec.Changes self.old self.new result (spec.taken line at self.old) }
    {
        match line {
            CfiLine::StartProc(pos) => self.start(pos, at),
            CfiLine::EndProc => self.end(at),
            CfiLine::Row(directive) => match said(self.cfa_offset(), directive) {
                Ok(op) => self.put(op, at),
                Err(cause) => Err(CfiFault::Fault(cause)),
            },
            CfiLine::Point(kind, pointer) => self.point(kind, pointer, at),
        }
    }

    /// The procedures so far, the one that is open last and without an end.
    pub fn into_frames(self) -> Frames
        ensures frames { result ≡ frames_of self }
        ensures sound { All IsSound result }
        ensures whole { IsNone self.begun → All IsWhole result }
    {
        let Directives {
            alloc: _,
            mut closed,
            begun,
        } = self;
        if let Some(procedure) = begun {
            // `start` made room for it.
            closed.push(procedure.into_frame()).unwrap();
        }
        Frames::of(closed)
    }
}
