//! How deep the open files, calls and repeats nest.

ghost use Rattle.std.specs.Prelude.{◌≡◌, ◌∷◌, ◌≤◌, nat_le, count_by, length, vec_len};
ghost use Rattle.macro_blocks.specs.Frames.{level_of};
ghost use Rattle.asm_macro.specs.Expansion.{is_inner_part, is_file_part, is_call_part};
ghost use Rattle.asm_macro.specs.Turning.{state_of};

use crate::expander::Expander;
use crate::open_parts::Part;
use macro_blocks::{Ending, Frame};

/// The most calls and repeats that are open.
const MOST_INNER: usize = 64;

/// The most files that are open.
const MOST_FILES: usize = 32;

/// Whether a file ends behind the frame.
fn is_file(frame: &Frame) -> bool
    ensures { result ≡ is_file_part (level_of frame.now) }
{
    frame.ends() == Ending::File
}

/// Whether a call or a repeat ends behind it.
fn is_inner(frame: &Frame) -> bool
    ensures { result ≡ is_inner_part (level_of frame.now) }
{
    frame.ends() != Ending::File
}

/// Whether a call ends behind it.
pub(crate) fn is_call(frame: &Frame) -> bool
    ensures { result ≡ is_call_part (level_of frame.now) }
{
    frame.ends() == Ending::Call
}

/// How many of these are files.
fn count_files(parts: &[Part]) -> usize
    ensures value { result ≡ count_by (λ frame. is_file_part (level_of frame)) parts.now }
    ensures few { result ≤ length parts.now }
{
    let mut count = 0;
    for part in parts {
        if is_file(part.as_frame()) {
            count += 1;
        }
    }
    count
}

/// How many of these are calls and repeats.
fn count_inner(parts: &[Part]) -> usize
    ensures value { result ≡ count_by (λ frame. is_inner_part (level_of frame)) parts.now }
    ensures few { result ≤ length parts.now }
{
    let mut count = 0;
    for part in parts {
        if is_inner(part.as_frame()) {
            count += 1;
        }
    }
    count
}

impl Expander {
    /// Whether as many calls and repeats are open as may be, the one at work among them.
    #[tactic(auto, using(crate::proofs::Stacks::inner_count))]
    pub(crate) fn is_deep(&self, frame: &Frame) -> bool
        ensures { result ≡ nat_le 64
            (count_by is_inner_part (level_of frame.now ∷ (state_of self.now).levels)) }
    {
        let below = count_inner(&self.frames);
        let open = if is_inner(frame) { below + 1 } else { below };
        open >= MOST_INNER
    }

    /// Whether as many files are open as may be, the one at work among them.
    #[tactic(auto, using(crate::proofs::Stacks::file_count))]
    pub(crate) fn has_most_files(&self, frame: &Frame) -> bool
        ensures { result ≡ nat_le 32
            (count_by is_file_part (level_of frame.now ∷ (state_of self.now).levels)) }
    {
        let below = count_files(&self.frames);
        let open = if is_file(frame) { below + 1 } else { below };
        open >= MOST_FILES
    }
}
