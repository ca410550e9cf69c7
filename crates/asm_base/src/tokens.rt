//! The tokens of one statement (GNU as manual, chapter 3, "Syntax").

ghost use Rattle.std.specs.Prelude.{◌≡◌, ◌+◌, ◌-◌, ◌<◌, ◌≤◌, map, length, IfOk, IsOk};
ghost use Rattle.std.specs.List.{prefix_len};
ghost use Rattle.asm_base.specs.ByteClasses.{is_name_byte};
ghost use Rattle.asm_base.specs.Dividing.{piece_kind, piece_length};
ghost use Rattle.asm_base.specs.Tokens.{is_long_operator, kind_by_piece, token_kind_by, token_kind, token_length, spelled, tokens_of};

use crate::byte_classes::{is_name_byte, is_name_start, is_operator_byte};
use crate::pieces::{FirstPiece, PieceKind, first_piece};
use smallvec::SmallVec;
use std::alloc::{AllocError, Global};
use std::marker::Model;

/// The operators of two bytes.
const LONG_OPERATORS: [[u8; 2]; 9] = [
    *b"<<", *b">>", *b"==", *b"<>", *b"!=", *b">=", *b"<=", *b"&&", *b"||",
];

/// The class of a token.
#[derive(Clone, Copy, PartialEq, Eq, Debug, Default)]
pub enum TokenKind {
    /// A symbol, a directive or a mnemonic.
    Name,
    /// What begins with a digit: a number or a local label.
    Digits,
    /// A quote and the byte after it.
    Character,
    /// A text in double quotes, both included.
    String,
    /// An operator or a mark of punctuation.
    Operator,
    /// A byte that begins no token, or a string that does not close.
    #[default]
    Other,
}

/// One token of a statement. It spans the bytes from `start` to `start + bytes.len()`.
#[derive(Clone, Copy, Debug, Default)]
pub struct Token<'a> {
    pub kind: TokenKind,
    pub bytes: &'a [u8],
    /// The offset from the first byte of the statement, in bytes.
    pub start: usize,
}

/// The tokens of a statement, in order. Eight of them need no allocation.
#[derive(Drop)]
pub struct Tokens<'a> {
    list: SmallVec<Token<'a>, 8>,
}

impl<'a> Model for Tokens<'a> {
    ghost use Rattle.asm_base.specs.Tokens.{spelled, SpelledToken};
    ghost use Rattle.std.specs.Prelude.{List, map};

    ghost Value = { List SpelledToken };

    ghost view = { λ tokens. map spelled tokens.list.items };
}

impl<'a> Tokens<'a> {
    /// Reads the tokens of a statement: blanks and comments stand between them.
    pub fn read(alloc: Global, statement: &'a [u8]) -> Result<Tokens<'a>, AllocError>
        ensures value { IfOk result (λ tokens. tokens ≡ tokens_of statement.now) }
        ensures memory { length (tokens_of statement.now) ≤ 8 → IsOk result }
    {
        let mut list = SmallVec::new(alloc);
        let mut at = 0;
        while let Some((first, rest)) = statement[at..].split_first() {
            let piece = first_piece(*first, rest);
            if piece.kind.is_space() {
                at += piece.length;
            } else {
                let kind = token_kind(*first, piece.kind);
                let end = at + token_length(kind, *first, rest, piece);
                list.push(Token {
                    kind,
                    bytes: &statement[at..end],
                    start: at,
                })?;
                at = end;
            }
        }
        Ok(Tokens { list })
    }

    /// The tokens.
    pub fn as_slice(&self) -> &[Token<'a>]
        ensures { map spelled result.now ≡ self.now }
    {
        self.list.as_slice()
    }
}

/// Whether the byte and the one after it are one operator.
#[tactic(auto, unfolding(crate::specs::Tokens::is_long_operator))]
fn is_long_operator(first: u8, rest: &[u8]) -> bool
    ensures { result ≡ is_long_operator first rest.now }
{
    match rest {
        [] => false,
        [second, ..] => LONG_OPERATORS.contains(&[first, *second]),
    }
}

/// How many bytes of a name go on at the front.
fn name_length(bytes: &[u8]) -> usize
    ensures value { result ≡ prefix_len is_name_byte bytes.now }
    ensures within { result ≤ length bytes.now }
{
    bytes.iter().take_while(|byte| is_name_byte(**byte)).count()
}

/// The class of the token that begins with this byte and this piece, and is no word.
fn kind_by_piece(first: u8, kind: PieceKind) -> TokenKind
    ensures { result ≡ kind_by_piece first kind }
{
    match kind {
        PieceKind::Character => TokenKind::Character,
        PieceKind::String => TokenKind::String,
        PieceKind::Other if is_operator_byte(first) => TokenKind::Operator,
        _ => TokenKind::Other,
    }
}

/// The class of the token that begins with this byte and this piece.
fn token_kind(first: u8, kind: PieceKind) -> TokenKind
    ensures { result ≡ token_kind_by first kind }
{
    if is_name_start(first) {
        TokenKind::Name
    } else if first.is_ascii_digit() {
        TokenKind::Digits
    } else {
        kind_by_piece(first, kind)
    }
}

/// How many bytes the token of this class has that begins with this byte and this piece.
#[tactic(auto, unfolding(crate::specs::Tokens::token_length))]
fn token_length(kind: TokenKind, first: u8, rest: &[u8], piece: FirstPiece) -> usize
    requires class { kind ≡ token_kind first rest.now }
    requires piece_class { piece.kind ≡ piece_kind first rest.now }
    requires piece_length { piece.length ≡ piece_length piece.kind rest.now }
    requires piece_some { 0 < piece.length }
    requires piece_within { piece.length ≤ 1 + length rest.now }
    ensures value { result ≡ token_length kind first rest.now }
    ensures progress { 0 < result }
    ensures within { result ≤ 1 + length rest.now }
{
    match kind {
        TokenKind::Name | TokenKind::Digits => 1 + name_length(rest),
        TokenKind::Operator => if is_long_operator(first, rest) { 2 } else { 1 },
        TokenKind::Character | TokenKind::String | TokenKind::Other => piece.length,
    }
}
