//! The CFA's offset in the row in force, and in the rows that are remembered. What directives say hangs on nothing else
//! of the rows, so that no row is copied.

ghost use Rattle.std.specs.Prelude.{◌≡◌, Some, IsSome, is_some};
ghost use Rattle.cfi_rows.specs.Rows.{start_rows, common_row};
ghost use Rattle.cfi_directives.specs.Offsets.{moved, offsets_of};

use arrayvec::ArrayVec;
use cfi_rows::CfiOp;
use std::marker::Model;

/// The offset in the row in force, and those in the remembered ones, the latest last.
#[derive(Drop)]
pub(crate) struct CfaOffsets {
    current: i64,
    remembered: ArrayVec<i64, 16>,
}

impl Model for CfaOffsets {
    ghost use Rattle.cfi_directives.specs.Offsets.{Offsets};

    ghost Value = { Offsets };

    ghost view = { λ inside. record {
      current = inside.current;
      remembered = inside.remembered.items;
    } };
}

impl CfaOffsets {
    /// Those where a procedure begins (psABI for AMD64, section 3.7).
    pub(crate) fn new() -> CfaOffsets
        ensures { result ≡ offsets_of (start_rows common_row) }
    {
        CfaOffsets {
            current: 8,
            remembered: ArrayVec::new(),
        }
    }

    /// The offset in the row in force.
    pub(crate) fn current(&self) -> i64
        ensures { result ≡ self.now.current }
    {
        self.current
    }

    /// Whether the instruction can be run: at most 16 rows are remembered, and one is where it is to be restored.
    pub(crate) fn can_run(&self, op: CfiOp) -> bool
        ensures { result ≡ is_some (moved op self.now) }
    {
        match op {
            CfiOp::Remember => !self.remembered.is_full(),
            CfiOp::RestoreState => !self.remembered.is_empty(),
            _ => true,
        }
    }

    /// Runs the instruction.
    pub(crate) fn run(&mut self, op: CfiOp)
        requires { IsSome (moved op self.old) }
        ensures { moved op self.old ≡ Some self.new }
    {
        match op {
            CfiOp::DefCfa(_, offset) => self.current = offset,
            CfiOp::DefCfaOffset(offset) => self.current = offset,
            CfiOp::Remember => self.remembered.push(self.current),
            CfiOp::RestoreState => self.current = self.remembered.pop().unwrap(),
            CfiOp::DefCfaRegister(_) | CfiOp::Set(..) | CfiOp::Restore(_) => {}
        }
    }
}
