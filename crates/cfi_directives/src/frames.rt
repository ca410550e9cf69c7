//! Frames: procedures with the instructions of their frame tables, each at its place.

ghost use Rattle.std.specs.Prelude.{◌≡◌, [], ◌∷◌, ◌++◌, OnOk, OnErr};

use asm_base::{NoMemory, Place, Pos};
use asm_expr::Linear;
use cfi_rows::{CfiOp, PointerEncoding};
use std::alloc::Global;
use std::marker::Model;

/// An instruction, and the place from which on it holds.
#[derive(Clone, Copy, PartialEq, Eq, Debug)]
pub struct PlacedOp {
    /// Where it holds from, in the section of its procedure.
    pub place: Place,
    /// The instruction.
    pub op: CfiOp,
}

/// The instructions of a procedure, in source order.
#[derive(Drop)]
pub struct PlacedOps {
    items: Vec<PlacedOp>,
}

impl Model for PlacedOps {
    ghost use Rattle.std.specs.Prelude.{List};
    ghost use Rattle.cfi_directives.specs.declared.frames.PlacedOp.{PlacedOp};

    ghost Value = { List PlacedOp };

    ghost view = { λ inside. inside.items.items };
}

impl PlacedOps {
    /// No instruction.
    pub fn new(alloc: Global) -> PlacedOps
        ensures { result ≡ [] }
    {
        PlacedOps {
            items: Vec::new(alloc),
        }
    }

    /// Puts an instruction last.
    pub fn add(&mut self, placed: PlacedOp) -> Result<(), NoMemory>
        ensures ok { OnOk result (self.new ≡ self.old ++ placed ∷ []) }
        ensures err { OnErr result (self.new ≡ self.old) }
    {
        self.items.push(placed)?;
        Ok(())
    }

    /// All of them.
    pub fn as_slice(&self) -> &[PlacedOp]
        ensures { result.now ≡ self.now }
    {
        self.items.as_slice()
    }
}

/// A pointer of a procedure: how it is written, and what it leads to.
#[derive(Drop)]
pub struct Pointer {
    pub encoding: PointerEncoding,
    pub target: Linear,
}

/// A procedure with the instructions of its frame table.
#[derive(Drop)]
pub struct Frame {
    /// The line of its beginning, at which faults of what is made for it are told.
    pub pos: Pos,
    /// The number of its section, in which all its places stand.
    pub section: u32,
    /// Where it begins.
    pub start: Place,
    /// Where it ends. None while it is open.
    pub stop: Option<Place>,
    /// The routine that unwinds through it.
    pub personality: Option<Pointer>,
    /// The data for that routine.
    pub lsda: Option<Pointer>,
    /// In source order, each from its place on.
    pub ops: PlacedOps,
}

/// Procedures, one behind the other, in the order that they are put in.
#[derive(Drop)]
pub struct Frames {
    items: Vec<Frame>,
}

impl Model for Frames {
    ghost use Rattle.std.specs.Prelude.{List};
    ghost use Rattle.cfi_directives.specs.declared.frames.Frame.{Frame};

    ghost Value = { List Frame };

    ghost view = { λ inside. inside.items.items };
}

impl Frames {
    /// No procedure.
    pub fn new(alloc: Global) -> Frames
        ensures { result ≡ [] }
    {
        Frames {
            items: Vec::new(alloc),
        }
    }

    /// These procedures.
    pub(crate) fn of(items: Vec<Frame>) -> Frames
        ensures { result ≡ items.items }
    {
        Frames { items }
    }

    /// Puts a procedure last.
    pub fn add(&mut self, frame: Frame) -> Result<(), NoMemory>
        ensures ok { OnOk result (self.new ≡ self.old ++ frame ∷ []) }
        ensures err { OnErr result (self.new ≡ self.old) }
    {
        self.items.push(frame)?;
        Ok(())
    }

    /// All of them.
    pub fn as_slice(&self) -> &[Frame]
        ensures { result.now ≡ self.now }
    {
        self.items.as_slice()
    }
}
