//! The intervals of a source: what stands between two ends of statements, read piece by piece.

ghost use Rattle.std.specs.Prelude.{◌≡◌, ◌+◌, ◌<◌, ◌≤◌, length};
ghost use Rattle.asm_lines.specs.LineNumbers.{line_of};
ghost use Rattle.asm_lines.specs.Scan as spec;
ghost use Rattle.asm_lines.specs.Scan.{EndsBy, pieces_at, scan_of, nothing_scanned};

use crate::faults::{Found, LineCause, earlier};
use crate::line_numbers::line_behind;
use asm_base::{PieceKind, Steps, first_piece, plain_length};
use std::sync::ledger::Ledger;

/// The most bytes that a statement has.
pub(crate) const LONGEST_STATEMENT: usize = 65536;

/// A piece where it stands in a source, or a run of pieces of the class `Other`.
#[derive(Clone, Copy)]
pub(crate) struct PieceAt {
    pub kind: PieceKind,
    /// The offset of its first byte.
    pub start: usize,
    /// How many bytes it has.
    pub length: usize,
    /// The line on which it begins.
    pub line: u32,
}

/// The statement of an interval, as far as the interval is read.
#[derive(Clone, Copy)]
pub(crate) struct Span {
    /// The offset of its first byte.
    pub begin: usize,
    /// The line of its first byte.
    pub line: u32,
    /// The offset behind its last byte so far.
    pub end: usize,
    /// How many bytes it has up to there, comments not counted.
    pub own: usize,
    /// The same, with the blanks that follow it.
    pub passed: usize,
}

/// What is known of an interval, as far as it is read.
#[derive(Clone, Copy)]
pub(crate) struct Scan {
    pub span: Option<Span>,
    /// A string or a comment that does not close.
    pub unclosed: Option<Found>,
}

/// An interval that is read whole.
#[derive(Clone, Copy)]
pub(crate) struct Interval {
    pub scan: Scan,
    /// The offset behind the end of the interval.
    pub next: usize,
    /// The line of that offset.
    pub line: u32,
}

/// How many bytes the piece adds to its statement.
fn own_by(piece: PieceAt) -> usize
    ensures value { result ≡ spec.own_by piece }
    ensures within { result ≤ piece.length }
{
    if piece.kind.is_comment() {
        0
    } else {
        piece.length
    }
}

/// The fault of a piece that does not close.
fn unclosed_by(piece: PieceAt) -> Option<Found>
    ensures { result ≡ spec.unclosed_by piece.kind piece }
{
    let fault = match piece.kind {
        PieceKind::OpenString => LineCause::UnclosedString(piece.line),
        PieceKind::OpenComment => LineCause::UnclosedComment(piece.line),
        _ => return None,
    };
    Some(Found {
        offset: piece.start,
        fault,
    })
}

/// The span of a statement that begins with this piece.
fn begun(piece: PieceAt) -> Span
    requires { piece.start + piece.length ≤ usize.MAX }
    ensures { result ≡ spec.begun piece }
{
    Span {
        begin: piece.start,
        line: piece.line,
        end: piece.start + piece.length,
        own: piece.length,
        passed: piece.length,
    }
}

/// The span with one piece more.
fn extended(span: Span, piece: PieceAt) -> Span
    requires within { span.passed ≤ piece.start }
    requires piece { piece.start + piece.length ≤ usize.MAX }
    ensures { result ≡ spec.extended span piece }
{
    let passed = span.passed + own_by(piece);
    if piece.kind.is_space() {
        Span { passed, ..span }
    } else {
        Span {
            end: piece.start + piece.length,
            own: passed,
            passed,
            ..span
        }
    }
}

/// The span, if a statement began, with one piece more.
fn with_piece(span: Option<Span>, piece: PieceAt) -> Option<Span>
    requires within { EndsBy piece.start span }
    requires piece { piece.start + piece.length ≤ usize.MAX }
    ensures { result ≡ spec.with_piece span piece }
{
    match span {
        None if piece.kind.is_space() => None,
        None => Some(begun(piece)),
        Some(span) => Some(extended(span, piece)),
    }
}

impl Scan {
    /// What is known with one piece more.
    fn with(self, piece: PieceAt) -> Scan
        requires within { EndsBy piece.start self.span }
        requires piece { piece.start + piece.length ≤ usize.MAX }
        ensures value { result ≡ spec.scanned self piece }
        ensures within { EndsBy (piece.start + piece.length) result.span }
    {
        Scan {
            span: with_piece(self.span, piece),
            unclosed: self.unclosed.or(unclosed_by(piece)),
        }
    }

    /// What the interval is refused for.
    pub fn found(self) -> Option<Found>
        ensures { result ≡ spec.found_by_scan self }
    {
        match self.span {
            Some(span) if span.own > LONGEST_STATEMENT => {
                let fault = LineCause::StatementTooLong(span.line);
                let long = Found {
                    offset: span.begin,
                    fault,
                };
                Some(earlier(self.unclosed, long))
            }
            _ => self.unclosed,
        }
    }
}

/// A run of pieces of one byte each, as one.
fn plain_run(start: usize, length: usize, line: u32) -> PieceAt
    ensures { result ≡ spec.plain_run start length line }
{
    PieceAt {
        kind: PieceKind::Other,
        start,
        length,
        line,
    }
}

/// Reads the first interval from an offset on, which stands on the line. A step is a look at a piece
/// or at a run of plain bytes.
pub(crate) fn first_interval<L: Ledger>(
    source: &[u8],
    from: usize,
    line: u32,
    steps: &mut Steps<L>,
) -> Interval
    requires within { from < length source.now }
    requires line { line ≡ line_of source.now from }
    ensures scan { result.scan
        ≡ scan_of source.now nothing_scanned (spec.first_interval (pieces_at source.now from)) }
    ensures pieces { pieces_at source.now result.next
        ≡ spec.later_pieces (pieces_at source.now from) }
    ensures line { result.line ≡ line_of source.now result.next }
    ensures span { EndsBy result.next result.scan.span }
    ensures next { from < result.next }
    ensures within { result.next ≤ length source.now }
    ensures looks { from + steps.new ≤ steps.old + result.next }
{
    let mut scan = Scan {
        span: None,
        unclosed: None,
    };
    let mut at = from;
    let mut line = line;
    while let Some((first, rest)) = source[at..].split_first() {
        steps.tick();
        // Most bytes are pieces of their own: a run of them is taken at once.
        let plain = plain_length(&source[at..]);
        if plain > 0 {
            scan = scan.with(plain_run(at, plain, line));
            at += plain;
            continue;
        }
        let piece = first_piece(*first, rest);
        let next = at + piece.length;
        let line_there = line_behind(line, &source[at..next]);
        if piece.kind.ends_statement() {
            return Interval {
                scan,
                next,
                line: line_there,
            };
        }
        scan = scan.with(PieceAt {
            kind: piece.kind,
            start: at,
            length: piece.length,
            line,
        });
        at = next;
        line = line_there;
    }
    Interval {
        scan,
        next: at,
        line,
    }
}
