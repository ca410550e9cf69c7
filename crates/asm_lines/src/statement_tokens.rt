//! The tokens of one statement, read from its first byte to its end.

ghost use Rattle.std.specs.Prelude.{◌≡◌, ◌+◌, ◌<◌, ◌≤◌, length};
ghost use Rattle.asm_lines.specs.StatementTokens.{IsReadTo, ReadsTokens, read_up_to};

use crate::line_numbers::{line_after, line_behind};
use asm_base::{Steps, Token, one_division};
use asm_lexemes::{Lexeme, lexeme_at};
use std::sync::ledger::Ledger;

/// A statement whose tokens are read.
#[derive(Clone, Copy, Debug)]
pub(crate) enum ReadStatement<'a> {
    /// The offset behind its end, the line there, and how many tokens it has.
    Whole(usize, u32, usize),
    /// There is no slot for this token: the offset behind it, and the line there.
    Full(usize, u32, Token<'a>),
    /// A string or a comment in it does not close.
    Unclosed,
}

/// Reads the tokens of the statement that begins at this offset into the slots, once it is read up to
/// another offset and line, and so many slots are taken. A step is a look at what stands at an offset.
#[inline(always)]
pub(crate) fn read_tokens<'a, L: Ledger>(
    source: &'a [u8],
    begin: usize,
    from: usize,
    line: u32,
    count: usize,
    slots: &mut [Token<'a>],
    steps: &mut Steps<L>,
) -> ReadStatement<'a>
    requires within { begin < length source.now }
    requires read { IsReadTo source.now begin slots.old count from line }
    ensures read { ReadsTokens source.now begin slots.new result }
    ensures len { length slots.new ≡ length slots.old }
    ensures looks { from + steps.new ≤ steps.old + read_up_to source.now result }
{
    one_division();
    let mut at = from;
    let mut line = line;
    let mut count = count;
    while at < source.len() {
        steps.tick();
        match lexeme_at(source, at) {
            Lexeme::LineEnd => return ReadStatement::Whole(at + 1, line_after(line), count),
            Lexeme::StatementEnd => return ReadStatement::Whole(at + 1, line, count),
            Lexeme::Blank => at += 1,
            Lexeme::LineComment(length) => at += length,
            Lexeme::BlockComment(length) => {
                line = line_behind(line, &source[at..at + length]);
                at += length;
            }
            Lexeme::Token(kind, length) => {
                if count >= slots.len() {
                    let token = Token {
                        kind,
                        bytes: &source[at..at + length],
                        start: at - begin,
                    };
                    return ReadStatement::Full(at + length, line, token);
                }
                // The fields are written one by one, so that the bytes between them are not.
                let slot = &mut slots[count];
                slot.kind = kind;
                slot.bytes = &source[at..at + length];
                slot.start = at - begin;
                count += 1;
                at += length;
            }
            Lexeme::Unclosed => return ReadStatement::Unclosed,
        }
    }
    ReadStatement::Whole(at, line, count)
}
