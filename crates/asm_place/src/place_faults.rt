//! The first fault of a source.

use asm_base::{Fault, Notes, Pos};
use std::alloc::{AllocError, Global};
use std::marker::Model;

/// The first fault of a source, where it stands, and the notes of what stands before it.
#[derive(Drop)]
pub struct FaultAt {
    pub fault: Fault,
    pub pos: Pos,
    pub notes: Notes,
}

/// The same in a box, so that each result that may be a fault stays small.
#[derive(Drop)]
pub struct BoxedFault {
    fault: Box<FaultAt>,
}

impl Model for BoxedFault {
    ghost use Rattle.asm_place.specs.declared.place_faults.FaultAt.{FaultAt};

    ghost Value = { FaultAt };

    ghost view = { λ boxed. boxed.fault.value };
}

impl BoxedFault {
    ghost use Rattle.std.specs.Prelude.{◌≡◌, IfOk};

    /// This fault in a box.
    pub fn new(alloc: Global, fault: FaultAt) -> Result<BoxedFault, AllocError>
        ensures { IfOk result (λ boxed. boxed ≡ fault) }
    {
        Ok(BoxedFault {
            fault: Box::new(alloc, fault)?,
        })
    }

    /// The fault, out of its box.
    pub fn into_fault(self) -> FaultAt
        ensures { result ≡ self }
    {
        Box::into_inner(self.fault)
    }
}
