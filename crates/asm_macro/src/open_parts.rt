//! The open files, calls and repeats, each in a box.

use macro_blocks::Frame;
use std::alloc::{AllocError, Global};
use std::marker::Model;

/// An open file, call or repeat, in a box: it moves often, and a frame is long.
#[derive(Drop)]
pub(crate) struct Part {
    frame: Box<Frame>,
}

impl Model for Part {
    ghost use Rattle.macro_blocks.specs.declared.frames.Frame.{Frame};

    ghost Value = { Frame };

    ghost view = { λ part. part.frame.value };
}

impl Part {
    ghost use Rattle.std.specs.Prelude.{◌≡◌, [], ◌∷◌, IfOk};

    /// This frame, in a box of its own.
    pub(crate) fn new(alloc: Global, frame: Frame) -> Result<Part, AllocError>
        ensures { IfOk result (λ part. part ≡ frame) }
    {
        Ok(Part {
            frame: Box::new(alloc, frame)?,
        })
    }

    /// A list of one part, which has this frame.
    pub(crate) fn alone(alloc: Global, frame: Frame) -> Result<Vec<Part>, AllocError>
        ensures { IfOk result (λ parts. parts.items ≡ frame ∷ []) }
    {
        let mut parts = Vec::new(alloc);
        parts.push(Part::new(alloc, frame)?)?;
        Ok(parts)
    }

    /// The part that has this frame.
    pub(crate) fn with_frame(frame: Box<Frame>) -> Part
        ensures { result ≡ frame.value }
    {
        Part { frame }
    }

    /// Its frame.
    pub(crate) fn as_frame(&self) -> &Frame
        ensures { result.now ≡ self.now }
    {
        &self.frame
    }

    /// Its frame, in the box.
    pub(crate) fn into_frame(self) -> Box<Frame>
        ensures { result.value ≡ self }
    {
        self.frame
    }
}
