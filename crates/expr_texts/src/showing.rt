//! The visitor that shows an expression with the fewest parentheses.

ghost use Rattle.std.specs.Prelude.{◌≡◌, ◌+◌, Ok, IfOk};
ghost use Rattle.asm_expr.specs.Trees.{tree_of};
ghost use Rattle.asm_base.specs.Refusals.{GivesBy};
ghost use Rattle.expr_texts.specs.Operators.{level_of};
ghost use Rattle.expr_texts.specs.Shown.{piece, enclosed_text, unary_piece, binary_piece, piece_of, shown};
ghost use Rattle.expr_texts.specs.Showing.{NumShows, NameShows, HereShows, UnaryShows, BinaryShows};

use crate::operators::level_of;
use crate::spelling::{decimal, operator_text, prefix_text, written_text};
use asm_expr::{BinaryOp, Expr, ExprFault, ExprFold, UnaryOp, Written, fold};
use std::alloc::{AllocError, Global};
use std::marker::Model;

/// How tightly a prefix operator, a number or a name holds together.
const PREFIX_LEVEL: u8 = 7;

/// A text, and how tightly what it shows holds together.
#[derive(Drop)]
pub struct Piece {
    text: Vec<u8>,
    level: u8,
}

impl Model for Piece {
    ghost use Rattle.expr_texts.specs.Shown.{ShownPiece};

    ghost Value = { ShownPiece };

    ghost view = { λ p. record { text = p.text.items; level = p.level } };
}

impl Piece {
    /// The text.
    pub fn into_text(self) -> Vec<u8>
        ensures { result.items ≡ self.text }
    {
        self.text
    }
}

/// The text in parentheses, unless it holds together as tightly as it has to.
fn enclosed_text(alloc: Global, level: u8, shown: Piece) -> Result<Vec<u8>, AllocError>
    ensures { IfOk result (λ text. text.items ≡ enclosed_text level shown) }
{
    if level <= shown.level {
        return Ok(shown.text);
    }
    let mut text = Vec::from_slice(alloc, b"(".as_slice())?;
    text.extend_from_slice(shown.text.as_slice())?;
    text.extend_from_slice(b")".as_slice())?;
    Ok(text)
}

/// A prefix operator and its operand.
fn unary_piece(alloc: Global, op: UnaryOp, operand: Piece) -> Result<Piece, AllocError>
    ensures { IfOk result (λ whole. whole ≡ unary_piece op operand) }
{
    let mut text = Vec::from_slice(alloc, prefix_text(op))?;
    text.extend_from_slice(enclosed_text(alloc, PREFIX_LEVEL, operand)?.as_slice())?;
    Ok(Piece {
        text,
        level: PREFIX_LEVEL,
    })
}

/// An operator and its operands.
fn binary_piece(alloc: Global, op: BinaryOp, left: Piece, right: Piece) -> Result<Piece, AllocError>
    ensures { IfOk result (λ whole. whole ≡ binary_piece op left right) }
{
    let level = level_of(op);
    let mut text = enclosed_text(alloc, level, left)?;
    text.extend_from_slice(operator_text(op))?;
    text.extend_from_slice(enclosed_text(alloc, level + 1, right)?.as_slice())?;
    Ok(Piece { text, level })
}

/// A text that needs no parentheses.
fn tight(text: Vec<u8>) -> Piece
    ensures { result ≡ piece text.items 7 }
{
    Piece {
        text,
        level: PREFIX_LEVEL,
    }
}

/// Shows an expression.
#[derive(Clone, Copy)]
pub struct Shown {
    pub alloc: Global,
}

impl ExprFold for Shown {
    type Out = Result<Piece, ExprFault>;

    ghost num_gives = { NumShows };

    ghost name_gives = { NameShows };

    ghost here_gives = { HereShows };

    ghost unary_gives = { UnaryShows };

    ghost binary_gives = { BinaryShows };

    #[tactic(auto, unfolding(crate::specs::Shown::piece_of))]
    fn num(&mut self, value: u64) -> Result<Piece, ExprFault> {
        Ok(tight(decimal(self.alloc, value)?))
    }

    #[tactic(auto, unfolding(crate::specs::Shown::piece_of))]
    fn name(&mut self, name: &Written) -> Result<Piece, ExprFault> {
        Ok(tight(written_text(self.alloc, name)?))
    }

    #[tactic(auto, unfolding(crate::specs::Shown::piece_of))]
    fn here(&mut self) -> Result<Piece, ExprFault> {
        Ok(tight(Vec::from_slice(self.alloc, b".".as_slice())?))
    }

    fn unary(
        &mut self,
        op: UnaryOp,
        operand: Result<Piece, ExprFault>,
    ) -> Result<Piece, ExprFault> {
        match operand {
            Ok(below) => Ok(unary_piece(self.alloc, op, below)?),
            Err(refusal) => Err(refusal),
        }
    }

    fn binary(
        &mut self,
        op: BinaryOp,
        left: Result<Piece, ExprFault>,
        right: Result<Piece, ExprFault>,
    ) -> Result<Piece, ExprFault> {
        match (left, right) {
            (Ok(one), Ok(other)) => Ok(binary_piece(self.alloc, op, one, other)?),
            (Err(refusal), _) => Err(refusal),
            (_, Err(refusal)) => Err(refusal),
        }
    }
}

/// The text of an expression with the fewest parentheses.
pub fn shown_text(alloc: Global, expr: &Expr) -> Result<Vec<u8>, ExprFault>
    ensures { GivesBy (λ text. text.items) result (Ok (shown (tree_of expr.now))) }
{
    let mut visitor = Shown { alloc };
    match fold(expr, &mut visitor) {
        Ok(piece) => Ok(piece.into_text()),
        Err(refusal) => Err(refusal),
    }
}
