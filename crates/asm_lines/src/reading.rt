//! The statements of a source, read interval by interval.

ghost use Rattle.std.specs.Prelude.{◌≡◌, ◌+◌, ◌≤◌, List, length};
ghost use Rattle.std.specs.Option.{option_map};
ghost use Rattle.asm_base.specs.Pieces.{Piece, IsDivision};
ghost use Rattle.asm_base.specs.Refusals.{Returns};
ghost use Rattle.asm_lines.specs.Statements.{statements_in, statements_of};
ghost use Rattle.asm_lines.specs.Seen.{seen};
ghost use Rattle.asm_lines.specs.Scan.{EndsBy, statement_by_span};

use crate::faults::{LineFault, earlier, nul_found};
use crate::intervals::{Span, first_interval};
use crate::statements::{Statement, Statements};
use asm_base::{Pos, Steps, Text, one_division};
use std::alloc::Global;
use std::sync::ledger::Ledger;

/// The statement of an interval, if it holds one.
fn statement_by_span<'a>(source: &'a [u8], file: u32, span: Option<Span>) -> Option<Statement<'a>>
    requires { EndsBy (length source.now) span }
    ensures { option_map seen result ≡ statement_by_span file source.now span }
{
    let span = span?;
    let pos = Pos {
        file,
        line: span.line,
    };
    Some(Statement {
        pos,
        bytes: &source[span.begin..span.end],
    })
}

/// The statements of a source, or its first fault in order of place. A step is a look at a piece or
/// at a run of plain bytes.
pub fn read_statements<'a, L: Ledger>(
    alloc: Global,
    text: &'a Text,
    file: u32,
    steps: &mut Steps<L>,
) -> Result<Statements<'a>, LineFault>
    ensures grammar { (pieces : List Piece) → IsDivision text.now pieces
        → Returns result (statements_in file text.now pieces) }
    ensures value { Returns result (statements_of file text.now) }
    ensures looks { steps.new ≤ steps.old + length text.now }
{
    one_division();
    let source = text.as_bytes();
    let nul = nul_found(source);
    let mut items = Vec::new(alloc);
    let mut at = 0;
    let mut line: u32 = 1;
    while at < source.len() {
        let interval = first_interval(source, at, line, steps);
        if let Some(found) = interval.scan.found() {
            return Err(LineFault::Fault(earlier(nul, found).fault));
        }
        if let Some(statement) = statement_by_span(source, file, interval.scan.span) {
            items.push(statement)?;
        }
        at = interval.next;
        line = interval.line;
    }
    match nul {
        Some(found) => Err(LineFault::Fault(found.fault)),
        None => Ok(Statements { items }),
    }
}
