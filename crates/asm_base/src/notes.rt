//! What a run notes beside its object, each note with its place.

ghost use Rattle.std.specs.Prelude.{◌≡◌, [], ◌∷◌, ◌++◌, OnOk, OnErr};

use crate::faults::Note;
use crate::positions::Pos;
use std::alloc::{AllocError, Global};
use std::marker::Model;

/// A note and where it was made.
#[derive(Drop)]
pub struct Noted {
    pub note: Note,
    pub pos: Pos,
}

/// Notes in the order in which they were made.
#[derive(Drop)]
pub struct Notes {
    items: Vec<Noted>,
}

impl Model for Notes {
    ghost use Rattle.std.specs.Prelude.{List};
    ghost use Rattle.asm_base.specs.declared.notes.Noted.{Noted};

    ghost Value = { List Noted };

    ghost view = { λ n. n.items.items };
}

impl Notes {
    /// No note.
    pub fn new(alloc: Global) -> Notes
        ensures { result ≡ [] }
    {
        Notes {
            items: Vec::new(alloc),
        }
    }

    /// Puts a note last.
    pub fn add(&mut self, noted: Noted) -> Result<(), AllocError>
        ensures ok { OnOk result (self.new ≡ self.old ++ noted ∷ []) }
        ensures err { OnErr result (self.new ≡ self.old) }
    {
        self.items.push(noted)?;
        Ok(())
    }

    /// All of them.
    pub fn as_slice(&self) -> &[Noted]
        ensures { result.now ≡ self.now }
    {
        self.items.as_slice()
    }
}
