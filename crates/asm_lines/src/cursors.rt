//! The statements of a source one after the other, each as its tokens.

ghost use Rattle.std.specs.Prelude.{◌≡◌, ◌+◌, ◌*◌, ◌-◌, ◌<◌, ◌≤◌, ◌++◌, ◌∷◌, [], length, take, nat_lt, true, false, IfOk, IfSome, OnOk};
ghost use Rattle.asm_lines.specs.Faults.{longest_statement};
ghost use Rattle.asm_lines.specs.LineNumbers.{line_of};
ghost use Rattle.asm_lines.specs.Scan.{pieces_at, first_interval};
ghost use Rattle.asm_lines.specs.Skips.{PassesNext, Skips, passed_up_to};
ghost use Rattle.asm_lines.specs.StatementTokens.{EndsAt, all_close, own_length_at};
ghost use Rattle.asm_lines.specs.NextStatements.{StandsNext, bytes_passed};

use crate::intervals::LONGEST_STATEMENT;
use crate::line_numbers::{line_after, line_behind};
use crate::passing::{own_length, pass_statement};
use crate::statement_tokens::{ReadStatement, read_tokens};
use asm_base::{Steps, Token, TokenKind, one_division};
use asm_lexemes::{Lexeme, is_plain, lexeme_at};
use std::alloc::AllocError;
use std::sync::ledger::Ledger;

/// The slots of a list that has none.
const FEW_SLOTS: [Token<'static>; 16] = [Token {
    kind: TokenKind::Other,
    bytes: b"",
    start: 0,
}; 16];

/// An offset of a source, and its line.
#[derive(Clone, Copy, Debug)]
pub(crate) struct Point {
    pub at: usize,
    pub line: u32,
}

/// What stands next in a source.
#[derive(Clone, Copy, Debug)]
pub enum NextStatement {
    /// A statement on this line, the offset behind its end, the line there, and how many tokens it
    /// has.
    Statement(u32, usize, u32, usize),
    /// The end of the source.
    End,
    /// The lines from here on have a fault.
    Faulty,
}

/// Passes spaces and ends of statements, up to the first token; nothing where one does not close.
#[inline(always)]
fn skip<L: Ledger>(source: &[u8], from: usize, line: u32, steps: &mut Steps<L>) -> Option<Point>
    requires within { from ≤ length source.now }
    requires line { line ≡ line_of source.now from }
    ensures skips { Skips source.now from result }
    ensures looks { from + steps.new ≤ steps.old + length source.now }
    ensures passed { IfSome result (λ point. from + steps.new ≤ steps.old + point.at + 1) }
{
    one_division();
    let mut at = from;
    let mut line = line;
    while at < source.len() {
        steps.tick();
        // Most statements begin with a name: its length is of no use here.
        if is_plain(source[at]) {
            return Some(Point { at, line });
        }
        match lexeme_at(source, at) {
            Lexeme::LineEnd => {
                line = line_after(line);
                at += 1;
            }
            Lexeme::StatementEnd => at += 1,
            Lexeme::Blank => at += 1,
            Lexeme::LineComment(length) => at += length,
            Lexeme::BlockComment(length) => {
                line = line_behind(line, &source[at..at + length]);
                at += length;
            }
            Lexeme::Token(_, _) => return Some(Point { at, line }),
            Lexeme::Unclosed => return None,
        }
    }
    Some(Point { at, line })
}

/// Whether the statement between these offsets is too long. Its bytes are only counted where it has
/// as many with its comments.
#[inline(always)]
fn is_too_long<L: Ledger>(
    source: &[u8],
    begin: usize,
    line: u32,
    next: usize,
    steps: &mut Steps<L>,
) -> bool
    requires within { begin < length source.now }
    requires line { line ≡ line_of source.now begin }
    requires later { begin ≤ next }
    ensures long { all_close (first_interval (pieces_at source.now begin)) ≡ true
        → begin + own_length_at source.now begin ≤ next
        → result ≡ nat_lt longest_statement (own_length_at source.now begin) }
    ensures looks { EndsAt source.now begin next → begin + steps.new ≤ steps.old + next }
    ensures short { next ≤ begin + longest_statement → steps.new ≡ steps.old }
    ensures only_long { next ≤ begin + longest_statement → result ≡ false }
{
    if next - begin <= LONGEST_STATEMENT {
        return false;
    }
    own_length(source, begin, line, steps) > LONGEST_STATEMENT
}

/// Makes room for a few tokens, or for twice as many, and puts the token behind those that are there.
#[inline(never)]
fn more_slots<'a>(tokens: &mut Vec<Token<'a>>, token: Token<'a>) -> Result<(), AllocError>
    ensures more { OnOk result (length tokens.old.items < length tokens.new.items) }
    ensures put { OnOk result (take (length tokens.old.items + 1) tokens.new.items
        ≡ tokens.old.items ++ token.entry ∷ []) }
{
    let room = tokens.len();
    if room == 0 {
        tokens.extend_from_slice(&FEW_SLOTS)?;
    } else {
        tokens.resize(room + room, Token::default())?;
    }
    tokens[room] = token;
    Ok(())
}

/// Reads the statement that stands next, from this offset in bytes and its line on, into the first
/// of the tokens, in place of those that are there; where it has more tokens, there are more then. A
/// step is a look at what stands at an offset: one for each byte that is passed and one more, and
/// one more for each where a statement has more bytes with its comments than the longest has.
#[inline(always)]
pub fn counted_next_statement<'a, L: Ledger>(
    source: &'a [u8],
    from: usize,
    line: u32,
    tokens: &mut Vec<Token<'a>>,
    steps: &mut Steps<L>,
) -> Result<NextStatement, AllocError>
    requires within { from ≤ length source.now }
    requires line { line ≡ line_of source.now from }
    ensures stands { IfOk result (λ next. StandsNext source.now from tokens.new.items next) }
    ensures looks { steps.new ≤ steps.old + 2 * (length source.now - from) + 1 }
    ensures passed { IfOk result (λ next.
        steps.new ≤ steps.old + 2 * bytes_passed source.now from next + 1) }
    ensures short { IfOk result (λ next. bytes_passed source.now from next ≤ longest_statement
        → steps.new ≤ steps.old + bytes_passed source.now from next + 1) }
{
    one_division();
    let Some(point) = skip(source, from, line, steps) else {
        return Ok(NextStatement::Faulty);
    };
    if point.at >= source.len() {
        return Ok(NextStatement::End);
    }
    let begin = point.at;
    let mut at = begin;
    let mut line = point.line;
    let mut count = 0;
    loop {
        match read_tokens(source, begin, at, line, count, tokens.as_mut_slice(), steps) {
            ReadStatement::Whole(next, there, count) => {
                if is_too_long(source, begin, point.line, next, steps) {
                    return Ok(NextStatement::Faulty);
                }
                return Ok(NextStatement::Statement(point.line, next, there, count));
            }
            ReadStatement::Full(next, there, token) => {
                count = tokens.len() + 1;
                more_slots(tokens, token)?;
                at = next;
                line = there;
            }
            ReadStatement::Unclosed => return Ok(NextStatement::Faulty),
        }
    }
}

/// What stands next in a source whose statements are only passed.
#[derive(Clone, Copy, Debug)]
pub(crate) enum NextPassed {
    /// A statement; this is the point behind its end.
    Statement(Point),
    /// The end of the source.
    End,
    /// The lines from here on have a fault.
    Faulty,
}

/// Passes the statement that stands next, from this offset in bytes and its line on.
#[inline(always)]
pub(crate) fn pass_next<L: Ledger>(
    source: &[u8],
    from: usize,
    line: u32,
    steps: &mut Steps<L>,
) -> NextPassed
    requires within { from ≤ length source.now }
    requires line { line ≡ line_of source.now from }
    ensures passes { PassesNext source.now from result }
    ensures looks { from + steps.new ≤ steps.old + passed_up_to source.now result + 1 }
{
    let Some(point) = skip(source, from, line, steps) else {
        return NextPassed::Faulty;
    };
    if point.at >= source.len() {
        return NextPassed::End;
    }
    let Some(passed) = pass_statement(source, point.at, point.line, steps) else {
        return NextPassed::Faulty;
    };
    if passed.own > LONGEST_STATEMENT {
        return NextPassed::Faulty;
    }
    NextPassed::Statement(Point {
        at: passed.next,
        line: passed.line,
    })
}
