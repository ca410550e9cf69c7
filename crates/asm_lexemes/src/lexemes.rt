//! What stands at an offset of a source: a space, a token, or the end of a statement.

ghost use Rattle.std.specs.Prelude.{◌≡◌, ◌+◌, ◌-◌, ◌<◌, ◌≤◌, length, false, if◌then◌else◌};
ghost use Rattle.std.specs.List.{prefix_len};
ghost use Rattle.std.specs.Char.{is_ascii_digit};
ghost use Rattle.asm_base.specs.ByteClasses.{is_name_start, is_name_byte, is_operator_byte, begins_with};
ghost use Rattle.asm_base.specs.Dividing.{line_length};
ghost use Rattle.asm_base.specs.Tokens.{is_long_operator};
ghost use Rattle.asm_lexemes.specs.Classes.{begins_long_operator};
ghost use Rattle.asm_lexemes.specs.Lexemes.{StandsInFront, StandsAt, FitsIn};

use crate::classes::{ByteClass, begins_long_operator, class_of, is_name_byte};
use asm_base::{PieceKind, TokenKind, first_piece};

/// What stands in front, with its length where that is not 1.
#[derive(Clone, Copy, Debug)]
pub enum Lexeme {
    /// A line feed.
    LineEnd,
    /// A `;`.
    StatementEnd,
    /// A space or a tab, or a carriage return before a line feed.
    Blank,
    /// A comment to the end of its line.
    LineComment(usize),
    /// A block comment.
    BlockComment(usize),
    /// A token.
    Token(TokenKind, usize),
    /// A string or a comment that does not close.
    Unclosed,
}

/// How many bytes of a name go on at the front.
#[inline(always)]
fn name_length(bytes: &[u8]) -> usize
    ensures value { result ≡ prefix_len is_name_byte bytes.now }
    ensures within { result ≤ length bytes.now }
{
    bytes.iter().take_while(|byte| is_name_byte(**byte)).count()
}

/// How many bytes of a number go on at the front. Most numbers are short, and how short they are
/// cannot be guessed: nothing branches on it.
#[inline(always)]
fn number_length(bytes: &[u8]) -> usize
    ensures value { result ≡ prefix_len is_name_byte bytes.now }
    ensures within { result ≤ length bytes.now }
{
    match bytes {
        [one, two, three, ..] => {
            let first = is_name_byte(*one);
            let second = first & is_name_byte(*two);
            let third = second & is_name_byte(*three);
            let count = first as usize + second as usize + third as usize;
            if count < 3 { count } else { name_length(bytes) }
        }
        _ => name_length(bytes),
    }
}

/// How many bytes stand before the first line feed.
#[inline(always)]
fn line_length(bytes: &[u8]) -> usize
    ensures value { result ≡ line_length bytes.now }
    ensures within { result ≤ length bytes.now }
{
    bytes.iter().take_while(|byte| **byte != b'\n').count()
}

/// The operators of two bytes.
const LONG_OPERATORS: [[u8; 2]; 9] = [
    *b"<<", *b">>", *b"==", *b"<>", *b"!=", *b">=", *b"<=", *b"&&", *b"||",
];

/// Whether the byte and the one after it are one operator.
#[tactic(auto, unfolding(asm_base::specs::Tokens::is_long_operator))]
fn is_long_operator(first: u8, rest: &[u8]) -> bool
    ensures { result ≡ is_long_operator first rest.now }
{
    match rest {
        [] => false,
        // Most bytes behind an operator end none.
        [second, ..] => {
            begins_long_operator(*second) && LONG_OPERATORS.contains(&[first, *second])
        }
    }
}

/// How many bytes the operator has that begins with this byte.
fn operator_length(first: u8, rest: &[u8]) -> usize
    ensures value { result ≡ (if is_long_operator first rest.now then 2 else 1) }
    ensures within { result ≤ 1 + length rest.now }
{
    if is_long_operator(first, rest) { 2 } else { 1 }
}

/// Whether the byte is an operator or begins one.
#[tactic(auto, unfolding(asm_base::specs::ByteClasses::is_operator_byte))]
fn is_operator_byte(byte: u8) -> bool
    ensures { result ≡ is_operator_byte byte }
{
    byte.is_ascii_punctuation() && !b"\"'#;".contains(&byte)
}

/// The class of a token of one byte that begins no name and is no digit.
fn mark_kind(byte: u8) -> TokenKind
    ensures { result ≡ (if is_operator_byte byte then TokenKind.Operator else TokenKind.Other) }
{
    if is_operator_byte(byte) {
        TokenKind::Operator
    } else {
        TokenKind::Other
    }
}

/// What stands in front where only the whole piece says it.
#[inline(always)]
fn by_piece(first: u8, rest: &[u8]) -> Lexeme
    requires start { is_name_start first ≡ false }
    requires digit { is_ascii_digit first ≡ false }
    requires short { begins_long_operator first ≡ false }
    ensures stands { StandsInFront first rest.now result }
    ensures fits { FitsIn (1 + length rest.now) result }
{
    let piece = first_piece(first, rest);
    match piece.kind {
        PieceKind::LineFeed => Lexeme::LineEnd,
        PieceKind::Semicolon => Lexeme::StatementEnd,
        PieceKind::Blank => Lexeme::Blank,
        PieceKind::LineComment => Lexeme::LineComment(piece.length),
        PieceKind::BlockComment => Lexeme::BlockComment(piece.length),
        PieceKind::OpenComment | PieceKind::OpenString => Lexeme::Unclosed,
        PieceKind::Character => Lexeme::Token(TokenKind::Character, piece.length),
        PieceKind::String => Lexeme::Token(TokenKind::String, piece.length),
        PieceKind::Other => { Lexeme::Token(mark_kind(first), 1) }
    }
}

/// Whether a slash before these bytes begins a comment.
fn begins_comment(rest: &[u8]) -> bool
    ensures { result ≡ begins_with 42 rest.now }
{
    match rest {
        [] => false,
        [second, ..] => *second == b'*',
    }
}

/// What stands in front where that is a slash.
#[inline(always)]
fn slash_lexeme(rest: &[u8]) -> Lexeme
    ensures stands { StandsInFront 47 rest.now result }
    ensures fits { FitsIn (1 + length rest.now) result }
{
    if begins_comment(rest) {
        by_piece(b'/', rest)
    } else {
        Lexeme::Token(TokenKind::Operator, 1)
    }
}

/// What stands at an offset. The bytes behind the first one are only looked at where they count.
#[inline(always)]
pub fn lexeme_at(source: &[u8], at: usize) -> Lexeme
    requires within { at < length source.now }
    ensures stands { StandsAt source.now at result }
    ensures fits { FitsIn (length source.now - at) result }
{
    let first = source[at];
    match class_of(first) {
        ByteClass::LineFeed => Lexeme::LineEnd,
        ByteClass::Semicolon => Lexeme::StatementEnd,
        ByteClass::Blank => Lexeme::Blank,
        ByteClass::NameStart => {
            Lexeme::Token(TokenKind::Name, 1 + name_length(&source[at + 1..]))
        }
        ByteClass::Digit => {
            Lexeme::Token(TokenKind::Digits, 1 + number_length(&source[at + 1..]))
        }
        ByteClass::Dollar | ByteClass::Operator => Lexeme::Token(TokenKind::Operator, 1),
        ByteClass::LongOperator => {
            Lexeme::Token(
                TokenKind::Operator,
                operator_length(first, &source[at + 1..]),
            )
        }
        ByteClass::Other => Lexeme::Token(TokenKind::Other, 1),
        ByteClass::Hash => Lexeme::LineComment(1 + line_length(&source[at + 1..])),
        ByteClass::Slash => slash_lexeme(&source[at + 1..]),
        ByteClass::CarriageReturn | ByteClass::Quote | ByteClass::DoubleQuote => {
            by_piece(first, &source[at + 1..])
        }
    }
}
