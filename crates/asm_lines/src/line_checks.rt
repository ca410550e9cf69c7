//! The first fault of the lines of a text.

ghost use Rattle.std.specs.Prelude.{◌≡◌, ◌+◌, ◌*◌, ◌≤◌, nat_lt, length, IfOk};
ghost use Rattle.asm_lines.specs.Faults.{nul_offset};
ghost use Rattle.asm_lines.specs.Statements.{statements_of};
ghost use Rattle.asm_lines.specs.NextStatements.{IsLineCheck};
ghost use Rattle.asm_lines.specs.Placing.{IsFaultOfLines};

use crate::cursors::{NextPassed, pass_next};
use crate::faults::LineCause;
use crate::reading::read_statements;
use asm_base::{Refusal, Steps, Text};
use std::alloc::{AllocError, Global};
use std::sync::ledger::Ledger;

/// Whether a byte 0 stands in the source.
pub fn has_nul(source: &[u8]) -> bool
    ensures { result ≡ nat_lt (nul_offset source.now) (length source.now) }
{
    source.contains(&0)
}

/// The first fault of the lines. Only a source that is refused is read for it.
#[inline(never)]
fn line_fault<L: Ledger>(
    alloc: Global,
    text: &Text,
    file: u32,
    steps: &mut Steps<L>,
) -> Result<Option<LineCause>, AllocError>
    ensures looks { steps.new ≤ steps.old + length text.now }
    ensures fault { IfOk result (λ found. IsFaultOfLines found (statements_of file text.now)) }
{
    match read_statements(alloc, text, file, steps) {
        Ok(_) => Ok(None),
        Err(Refusal::NoMemory) => Err(AllocError),
        Err(Refusal::Fault(cause)) => Ok(Some(cause)),
    }
}

/// The first fault of the lines of a text, in one pass over its bytes that keeps no list of
/// statements. A step is a look at what stands at an offset: over a text without a fault at most two a
/// byte and one more, and else as many again as there are bytes.
pub fn counted_fault_of_lines<L: Ledger>(
    alloc: Global,
    text: &Text,
    file: u32,
    steps: &mut Steps<L>,
) -> Result<Option<LineCause>, AllocError>
    ensures check { IfOk result (λ found. IsLineCheck file text.now found) }
    ensures looks { steps.new ≤ steps.old + 3 * length text.now + 1 }
{
    let source = text.as_bytes();
    if has_nul(source) {
        return line_fault(alloc, text, file, steps);
    }
    let mut at = 0;
    let mut line = 1;
    loop {
        match pass_next(source, at, line, steps) {
            NextPassed::Statement(next) => {
                at = next.at;
                line = next.line;
            }
            NextPassed::End => return Ok(None),
            NextPassed::Faulty => return line_fault(alloc, text, file, steps),
        }
    }
}
