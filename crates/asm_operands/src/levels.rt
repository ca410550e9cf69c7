//! How tightly operators bind, by one look-up.

ghost use Rattle.std.specs.Prelude.{◌≡◌};
ghost use Rattle.asm_base.specs.Tokens.{spelled};
ghost use Rattle.asm_operands.specs.Levels.{token_level, level_by, the_levels};
ghost use Rattle.expr_texts.specs.Operators.{operator_byte};

use asm_base::{Token, TokenKind};
use expr_texts::{level_of, operator_of};

/// How tightly the operator of each byte binds, and 0 where the byte is none, sixteen bytes a line.
#[rattlefmt::skip]
pub static LEVELS: [u8; 256] = [
    0, 0, 0, 0, 0, 0, 0, 0, 0, 0, 0, 0, 0, 0, 0, 0,
    0, 0, 0, 0, 0, 0, 0, 0, 0, 0, 0, 0, 0, 0, 0, 0,
    0, 5, 0, 0, 0, 6, 5, 0, 0, 0, 6, 4, 0, 4, 0, 6,
    0, 0, 0, 0, 0, 0, 0, 0, 0, 0, 0, 0, 3, 0, 3, 0,
    0, 0, 0, 0, 0, 0, 0, 0, 0, 0, 0, 0, 0, 0, 0, 0,
    0, 0, 0, 0, 0, 0, 0, 0, 0, 0, 0, 0, 0, 0, 5, 0,
    0, 0, 0, 0, 0, 0, 0, 0, 0, 0, 0, 0, 0, 0, 0, 0,
    0, 0, 0, 0, 0, 0, 0, 0, 0, 0, 0, 0, 5, 0, 0, 0,
    0, 0, 0, 0, 0, 0, 0, 0, 0, 0, 0, 0, 0, 0, 0, 0,
    0, 0, 0, 0, 0, 0, 0, 0, 0, 0, 0, 0, 0, 0, 0, 0,
    0, 0, 0, 0, 0, 0, 0, 0, 0, 0, 0, 0, 0, 0, 0, 0,
    0, 0, 0, 0, 0, 0, 0, 0, 0, 0, 0, 0, 0, 0, 0, 0,
    0, 0, 0, 0, 0, 0, 0, 0, 0, 0, 0, 0, 0, 0, 0, 0,
    0, 0, 0, 0, 0, 0, 0, 0, 0, 0, 0, 0, 0, 0, 0, 0,
    0, 0, 0, 0, 0, 0, 0, 0, 0, 0, 0, 0, 0, 0, 0, 0,
    0, 0, 0, 0, 0, 0, 0, 0, 0, 0, 0, 0, 0, 0, 0, 0,
];

/// The table.
#[inline(always)]
#[tactic(auto, unfolding(crate::specs::Levels::the_levels))]
fn levels() -> &'static [u8; 256]
    ensures { result.now ≡ the_levels }
{
    &LEVELS
}

/// How tightly the operator of one byte binds, and 0 where the byte is none.
#[inline(always)]
#[tactic(auto, using(crate::proofs::LevelTable::level_found))]
fn byte_level(byte: u8) -> u8
    ensures { result ≡ level_by (operator_byte byte) }
{
    levels()[byte as usize]
}

/// How tightly an operator of more bytes than one binds, and 0 where the token is none.
#[inline(never)]
#[tactic(auto, unfolding(crate::specs::Levels::level_by))]
fn long_level(token: &Token) -> u8
    ensures { result ≡ token_level (spelled token.now) }
{
    match operator_of(token) {
        Some(op) => level_of(op),
        None => 0,
    }
}

/// How tightly the operator that the token is binds, and 0 where it is none.
#[inline(always)]
#[tactic(auto, unfolding(expr_texts::specs::Operators::operator_by, crate::specs::Levels::level_by))]
pub(crate) fn token_level(token: &Token) -> u8
    ensures { result ≡ token_level (spelled token.now) }
{
    if token.kind != TokenKind::Operator {
        return 0;
    }
    match token.bytes {
        [byte] => byte_level(*byte),
        _ => long_level(token),
    }
}
