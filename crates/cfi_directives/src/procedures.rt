//! The procedure that is open.

ghost use Rattle.std.specs.Prelude.{◌≡◌, None, Some, IsTrue};
ghost use Rattle.std.specs.Option.{option_map};
ghost use Rattle.cfi_directives.specs.Procedures.{new_frame, with_pointer, with_stop};
ghost use Rattle.cfi_directives.specs.Rows.{rows_after};
ghost use Rattle.cfi_directives.specs.Sound.{IsSound, IsWhole};
ghost use Rattle.cfi_directives.specs.Taking.{with_op, Changes};
ghost use Rattle.cfi_directives.specs.Writable.{is_writable};

use crate::faults::{CfiCause, CfiFault};
use crate::frames::{Frame, PlacedOp, PlacedOps, Pointer};
use crate::lines::PointerKind;
use crate::offsets::CfaOffsets;
use asm_base::{Place, Pos, SectionPlace};
use std::alloc::Global;
use std::marker::Model;

/// A procedure so far, with the CFA's offsets behind its instructions. Contracts see it as its frame.
#[derive(Drop)]
pub(crate) struct Procedure {
    frame: Frame,
    offsets: CfaOffsets,
}

impl Model for Procedure {
    ghost use Rattle.cfi_directives.specs.declared.frames.Frame.{Frame};
    ghost use Rattle.cfi_directives.specs.Tracking.{Tracks};

    ghost Value = { Frame };

    ghost view = { λ inside. inside.frame };

    ghost invariant = { λ inside. Tracks inside.frame inside.offsets };
}

impl Procedure {
    /// A procedure that begins here.
    pub(crate) fn new(alloc: Global, pos: Pos, at: SectionPlace) -> Procedure
        ensures { result ≡ new_frame pos at }
    {
        Procedure {
            frame: Frame {
                pos,
                section: at.section,
                start: at.place,
                stop: None,
                personality: None,
                lsda: None,
                ops: PlacedOps::new(alloc),
            },
            offsets: CfaOffsets::new(),
        }
    }

    /// The number of its section.
    pub(crate) fn section(&self) -> u32
        ensures { result ≡ self.now.section }
    {
        self.frame.section
    }

    /// Whether it has no end, as always.
    pub(crate) fn is_open(&self) -> bool
        ensures value { IsTrue result }
        ensures unended { self.now.stop ≡ None }
        ensures sound { IsSound self.now }
    {
        self.frame.stop.is_none()
    }

    /// The CFA's offset in the row in force.
    pub(crate) fn cfa_offset(&self) -> i64
        ensures { option_map (λ rows. rows.row.offset) (rows_after self.now.ops) ≡ Some result }
    {
        self.offsets.current()
    }

    /// Puts an instruction last. `UnbalancedCfiState` comes exactly where it can't be run.
    pub(crate) fn put(&mut self, placed: PlacedOp) -> Result<(), CfiFault>
        requires { IsTrue (is_writable placed.op) }
        ensures { Changes self.old self.new result (with_op placed self.old) }
    {
        if !self.offsets.can_run(placed.op) {
            return Err(CfiFault::Fault(CfiCause::UnbalancedCfiState));
        }
        self.frame.ops.add(placed)?;
        self.offsets.run(placed.op);
        Ok(())
    }

    /// Gives it a pointer, or takes it away.
    pub(crate) fn point(&mut self, kind: PointerKind, pointer: Option<Pointer>)
        ensures { self.new ≡ with_pointer kind pointer self.old }
    {
        match kind {
            PointerKind::Personality => self.frame.personality = pointer,
            PointerKind::Lsda => self.frame.lsda = pointer,
        }
    }

    /// The frame as it stands.
    pub(crate) fn into_frame(self) -> Frame
        ensures frame { result ≡ self }
        ensures sound { IsSound result }
    {
        self.frame
    }

    /// The frame with its end here.
    pub(crate) fn ended(self, place: Place) -> Frame
        ensures frame { result ≡ with_stop place self }
        ensures whole { IsWhole result }
    {
        let mut frame = self.frame;
        frame.stop = Some(place);
        frame
    }
}
