//! The pieces of a text: ends of statements, blanks, comments, strings, characters, and other bytes one by one (GNU as manual, chapter 3, "Syntax").

ghost use Rattle.std.specs.Prelude.{◌≡◌, ◌+◌, ◌<◌, ◌≤◌, ◌==◌, ◌&&◌, length, drop, false};
ghost use Rattle.std.specs.List.{prefix_len};
ghost use Rattle.asm_base.specs.ByteClasses.{begins_with};
ghost use Rattle.asm_base.specs.Pieces.{is_space, is_comment, ends_statement};
ghost use Rattle.asm_base.specs.Dividing.{line_length, comment_length, quoted_length, comment_kind, string_kind, is_plain, piece_kind, piece_length};

use crate::byte_classes::{begins_with, is_blank, line_goes_on};

/// What a piece of a text is.
#[derive(Clone, Copy, PartialEq, Eq, Debug)]
pub enum PieceKind {
    /// A line feed. It ends a line and a statement.
    LineFeed,
    /// A `;`. It ends a statement.
    Semicolon,
    /// A space, a tab, or a carriage return before a line feed.
    Blank,
    /// From a `#` to the end of the line.
    LineComment,
    /// From a `/*` to the next `*/`.
    BlockComment,
    /// From a `/*` that no `*/` follows to the end of the text.
    OpenComment,
    /// A quote and the byte behind it, which is no line feed.
    Character,
    /// From a `"` to the next one on the line that no backslash escapes.
    String,
    /// From a `"` that nothing closes to the end of the line.
    OpenString,
    /// Any other byte.
    Other,
}

impl PieceKind {
    /// Whether the piece stands between tokens: a blank or a comment.
    pub fn is_space(self) -> bool
        ensures { result ≡ is_space self }
    {
        matches!(
            self,
            PieceKind::Blank
                | PieceKind::LineComment
                | PieceKind::BlockComment
                | PieceKind::OpenComment
        )
    }

    /// Whether the piece is a comment.
    pub fn is_comment(self) -> bool
        ensures { result ≡ is_comment self }
    {
        matches!(
            self,
            PieceKind::LineComment | PieceKind::BlockComment | PieceKind::OpenComment
        )
    }

    /// Whether the piece stands between statements.
    pub fn ends_statement(self) -> bool
        ensures { result ≡ ends_statement self }
    {
        matches!(self, PieceKind::LineFeed | PieceKind::Semicolon)
    }
}

/// The piece in front of a text.
#[derive(Clone, Copy, Debug)]
pub struct FirstPiece {
    pub kind: PieceKind,
    /// How many bytes it has.
    pub length: usize,
}

/// How many bytes stand before the first line feed.
fn line_length(bytes: &[u8]) -> usize
    ensures value { result ≡ line_length bytes.now }
    ensures within { result ≤ length bytes.now }
{
    bytes.iter().take_while(|byte| **byte != b'\n').count()
}

/// Whether the byte and what follows it are a `*/`.
fn is_close(byte: u8, rest: &[u8]) -> bool
    ensures { result ≡ (byte == 42 && begins_with 47 rest.now) }
{
    byte == b'*' && begins_with(b'/', rest)
}

/// How many bytes stand before the first `*/`.
#[tactic(auto, using(crate::proofs::Comments::comment_steps))]
fn comment_length(bytes: &[u8]) -> usize
    ensures value { result ≡ comment_length bytes.now }
    ensures within { result ≤ length bytes.now }
{
    for (i, byte) in bytes.iter().enumerate() {
        if is_close(*byte, &bytes[i + 1..]) {
            return i;
        }
    }
    bytes.len()
}

/// How many bytes stand before the quote that closes a string, or before the end of its line.
#[tactic(auto, using(crate::proofs::Quotes::quoted_steps))]
fn quoted_length(bytes: &[u8]) -> usize
    ensures value { result ≡ quoted_length false bytes.now }
    ensures within { result ≤ length bytes.now }
{
    let mut escaped = false;
    for (i, byte) in bytes.iter().enumerate() {
        if *byte == b'\n' {
            return i;
        }
        if escaped {
            escaped = false;
        } else if *byte == b'"' {
            return i;
        } else {
            escaped = *byte == b'\\';
        }
    }
    bytes.len()
}

/// Whether the byte is a piece of the class `Other` whatever follows it.
#[tactic(auto, unfolding(crate::specs::Dividing::is_plain, crate::specs::ByteClasses::is_blank))]
fn is_plain(byte: u8) -> bool
    ensures { result ≡ is_plain byte }
{
    !matches!(
        byte,
        b'\n' | b';' | b' ' | b'\t' | b'\r' | b'#' | b'/' | b'\'' | b'"'
    )
}

/// How many bytes in front are each a piece of the class `Other` whatever follows them. A reader may take them at once.
pub fn plain_length(bytes: &[u8]) -> usize
    ensures value { result ≡ prefix_len is_plain bytes.now }
    ensures within { result ≤ length bytes.now }
{
    bytes.iter().take_while(|byte| is_plain(**byte)).count()
}

/// A piece of one byte.
fn one_byte(kind: PieceKind) -> FirstPiece
    ensures { result ≡ record { kind = kind; length = 1 } }
{
    FirstPiece { kind, length: 1 }
}

/// What begins with `/*`, by the bytes behind that.
#[tactic(auto, using(crate::proofs::Comments::comment_closes), unfolding(crate::specs::Dividing::piece_length))]
fn comment_piece(rest: &[u8]) -> FirstPiece
    requires { 0 < length rest.now }
    ensures kind { result.kind ≡ comment_kind (drop 1 rest.now) }
    ensures length { result.length ≡ piece_length result.kind rest.now }
    ensures progress { 0 < result.length }
    ensures within { result.length ≤ 1 + length rest.now }
{
    let inner = &rest[1..];
    let before_close = comment_length(inner);
    if before_close < inner.len() {
        FirstPiece {
            kind: PieceKind::BlockComment,
            length: 4 + before_close,
        }
    } else {
        FirstPiece {
            kind: PieceKind::OpenComment,
            length: 1 + rest.len(),
        }
    }
}

/// What begins with `"`, by the bytes behind that.
#[tactic(auto, unfolding(crate::specs::Dividing::piece_length))]
fn string_piece(rest: &[u8]) -> FirstPiece
    ensures kind { result.kind ≡ string_kind rest.now }
    ensures length { result.length ≡ piece_length result.kind rest.now }
    ensures progress { 0 < result.length }
    ensures within { result.length ≤ 1 + length rest.now }
{
    let before_close = quoted_length(rest);
    if begins_with(b'"', &rest[before_close..]) {
        FirstPiece {
            kind: PieceKind::String,
            length: 2 + before_close,
        }
    } else {
        FirstPiece {
            kind: PieceKind::OpenString,
            length: 1 + before_close,
        }
    }
}

/// The piece that begins with this byte, before the rest of the text.
#[tactic(auto, unfolding(crate::specs::Dividing::piece_kind, crate::specs::Dividing::piece_length))]
pub fn first_piece(first: u8, rest: &[u8]) -> FirstPiece
    ensures kind { result.kind ≡ piece_kind first rest.now }
    ensures length { result.length ≡ piece_length result.kind rest.now }
    ensures progress { 0 < result.length }
    ensures within { result.length ≤ 1 + length rest.now }
{
    if first == b'\n' {
        one_byte(PieceKind::LineFeed)
    } else if first == b';' {
        one_byte(PieceKind::Semicolon)
    } else if is_blank(first) || (first == b'\r' && begins_with(b'\n', rest)) {
        one_byte(PieceKind::Blank)
    } else if first == b'#' {
        FirstPiece {
            kind: PieceKind::LineComment,
            length: 1 + line_length(rest),
        }
    } else if first == b'/' && begins_with(b'*', rest) {
        comment_piece(rest)
    } else if first == b'\'' && line_goes_on(rest) {
        FirstPiece {
            kind: PieceKind::Character,
            length: 2,
        }
    } else if first == b'"' {
        string_piece(rest)
    } else {
        one_byte(PieceKind::Other)
    }
}
