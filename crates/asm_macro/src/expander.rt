//! What is open, innermost last, and what is known of macros.

ghost use Rattle.std.specs.Prelude.{◌≤◌, ◌+◌, length};
ghost use Rattle.asm_macro.specs.Expansion.{most_given};
ghost use Rattle.asm_macro.specs.OpenParts.{AreFew, levels_of};

use crate::macros::Macros;
use crate::open_parts::Part;
use asm_base::Files;
use std::alloc::Global;

/// The open files, calls and repeats: the list of statements and end marks.
#[derive(Drop)]
pub struct Expander {
    pub(crate) alloc: Global,
    /// The innermost is the last; one that is at work is not among them.
    pub(crate) frames: Vec<Part>,
    pub(crate) macros: Macros,
    /// How many calls began.
    pub(crate) begun: u64,
    /// How many statements left the head.
    pub(crate) given: u32,
    /// The names of the files that were started.
    pub(crate) files: Files,
    ghost few_given: { given ≤ most_given },
    ghost few_begun: { begun ≤ given },
    ghost few_files: { length files ≤ given + 1 },
    ghost few_parts: { AreFew (levels_of frames.items) },
}

impl Expander {
    ghost use Rattle.std.specs.Prelude.{◌≡◌, ◌≤◌, length};
    ghost use Rattle.asm_macro.specs.Turning.{state_of};

    /// How many files, calls and repeats are open: the end marks of the list that is left.
    #[tactic(auto, using(crate::proofs::ShallowLists::open_parts, crate::proofs::ShallowLists::few_parts))]
    pub fn depth(&self) -> usize
        ensures number { result ≡ length (state_of self.now).levels }
        ensures few { result ≤ 96 }
    {
        self.frames.len()
    }

    /// The names of the files that were started.
    pub(crate) fn into_files(self) -> Files
        ensures { result ≡ self.files }
    {
        let Expander { files, .. } = self;
        files
    }
}
