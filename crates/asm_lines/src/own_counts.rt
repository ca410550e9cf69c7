//! What counts its steps, for callers that do not: with a count of its own.

ghost use Rattle.std.specs.Prelude.{◌≡◌, ◌<◌, ◌≤◌, length, IfOk};
ghost use Rattle.asm_lines.specs.LineNumbers.{line_of};
ghost use Rattle.asm_lines.specs.NextStatements.{IsLineCheck, StandsNext};

use crate::cursors::{NextStatement, counted_next_statement};
use crate::faults::LineCause;
use crate::line_checks::counted_fault_of_lines;
use asm_base::{Steps, Text, Token};
use std::alloc::{AllocError, Global};
use std::marker::Brand;
use std::sync::ledger::{Blank, Ledger};

/// Reads the statement that stands next, with a count of steps of its own.
#[inline(always)]
fn next_of<'a, L: Ledger>(
    source: &'a [u8],
    from: usize,
    line: u32,
    tokens: &mut Vec<Token<'a>>,
    blank: Blank,
) -> Result<NextStatement, AllocError>
    requires name { blank.name ≡ L.name }
    requires parts { blank.parts ≡ L.parts }
    requires some { 0 < blank.parts }
    requires within { from ≤ length source.now }
    requires line { line ≡ line_of source.now from }
    ensures { IfOk result (λ next. StandsNext source.now from tokens.new.items next) }
{
    let mut steps = Steps::<L>::new(blank);
    counted_next_statement(source, from, line, tokens, &mut steps)
}

/// Reads the statement that stands next, from this offset in bytes and its line on, into the first
/// of the tokens, in place of those that are there.
#[inline(always)]
pub fn next_statement<'a>(
    source: &'a [u8],
    from: usize,
    line: u32,
    tokens: &mut Vec<Token<'a>>,
) -> Result<NextStatement, AllocError>
    requires within { from ≤ length source.now }
    requires line { line ≡ line_of source.now from }
    ensures { IfOk result (λ next. StandsNext source.now from tokens.new.items next) }
{
    next_of::<Brand>(source, from, line, tokens, Blank::new(1))
}

/// The first fault of the lines of a text, with a count of steps of its own.
fn fault_of<L: Ledger>(
    alloc: Global,
    text: &Text,
    file: u32,
    blank: Blank,
) -> Result<Option<LineCause>, AllocError>
    requires name { blank.name ≡ L.name }
    requires parts { blank.parts ≡ L.parts }
    requires some { 0 < blank.parts }
    ensures { IfOk result (λ found. IsLineCheck file text.now found) }
{
    let mut steps = Steps::<L>::new(blank);
    counted_fault_of_lines(alloc, text, file, &mut steps)
}

/// The first fault of the lines of a text, in one pass over its bytes that keeps no list of
/// statements.
pub fn fault_of_lines(
    alloc: Global,
    text: &Text,
    file: u32,
) -> Result<Option<LineCause>, AllocError>
    ensures { IfOk result (λ found. IsLineCheck file text.now found) }
{
    fault_of::<Brand>(alloc, text, file, Blank::new(1))
}
