//! A statement is passed in one pass over its bytes that keeps no tokens.

ghost use Rattle.std.specs.Prelude.{◌≡◌, ◌+◌, ◌<◌, ◌≤◌, ℕ, true, IfSome, length};
ghost use Rattle.asm_lines.specs.LineNumbers.{line_of};
ghost use Rattle.asm_lines.specs.Scan.{pieces_at, first_interval};
ghost use Rattle.asm_lines.specs.StatementTokens.{EndsAt, PassesStatement, all_close, own_length_at};

use crate::line_numbers::{line_after, line_behind};
use asm_base::{Steps, one_division};
use asm_lexemes::{Lexeme, lexeme_at};
use std::sync::ledger::Ledger;

/// A statement that was passed: the offset behind its end, the line there, and how many bytes it has, comments not counted.
#[derive(Clone, Copy, Debug)]
pub(crate) struct Passed {
    pub next: usize,
    pub line: u32,
    pub own: usize,
}

/// Passes the statement that begins at this offset; nothing where a string or a comment in it does not close.
/// A step is a look at what stands at an offset.
#[inline(always)]
pub(crate) fn pass_statement<L: Ledger>(
    source: &[u8],
    begin: usize,
    line: u32,
    steps: &mut Steps<L>,
) -> Option<Passed>
    requires within { begin < length source.now }
    requires line { line ≡ line_of source.now begin }
    ensures passes { PassesStatement source.now begin result }
    ensures looks { begin + steps.new ≤ steps.old + length source.now }
    ensures passed { IfSome result (λ passed. begin + steps.new ≤ steps.old + passed.next) }
{
    one_division();
    let mut at = begin;
    let mut line = line;
    let mut comments = 0;
    let mut own = 0;
    while at < source.len() {
        steps.tick();
        match lexeme_at(source, at) {
            Lexeme::LineEnd => {
                return Some(Passed {
                    next: at + 1,
                    line: line_after(line),
                    own,
                });
            }
            Lexeme::StatementEnd => {
                return Some(Passed {
                    next: at + 1,
                    line,
                    own,
                });
            }
            Lexeme::Blank => at += 1,
            Lexeme::LineComment(length) => {
                comments += length;
                at += length;
            }
            Lexeme::BlockComment(length) => {
                line = line_behind(line, &source[at..at + length]);
                comments += length;
                at += length;
            }
            Lexeme::Token(_, length) => {
                at += length;
                own = at - begin - comments;
            }
            Lexeme::Unclosed => return None,
        }
    }
    Some(Passed {
        next: at,
        line,
        own,
    })
}

/// How many bytes the statement has that begins at this offset, comments not counted.
#[inline(never)]
pub(crate) fn own_length<L: Ledger>(
    source: &[u8],
    begin: usize,
    line: u32,
    steps: &mut Steps<L>,
) -> usize
    requires within { begin < length source.now }
    requires line { line ≡ line_of source.now begin }
    ensures value { all_close (first_interval (pieces_at source.now begin)) ≡ true
        → result ≡ own_length_at source.now begin }
    ensures looks { (next : ℕ) → EndsAt source.now begin next
        → begin + steps.new ≤ steps.old + next }
{
    match pass_statement(source, begin, line, steps) {
        Some(passed) => passed.own,
        None => 0,
    }
}
