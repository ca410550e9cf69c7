//! The trees of expressions (GNU as manual, "Expressions").

use crate::naming::Spelling;

/// A name as it is written.
#[derive(Drop)]
pub enum Written {
    /// A symbol's name, without quotes and escapes.
    Plain(Spelling),
    /// `Nb`: the last label N before this place.
    Back(u64),
    /// `Nf`: the next label N behind this place.
    Next(u64),
}

/// An operator before its operand.
#[derive(Clone, Copy, Debug, PartialEq, Eq)]
pub enum UnaryOp {
    /// `-`
    Minus,
    /// `~`
    Complement,
}

/// An operator between its operands.
#[derive(Clone, Copy, Debug, PartialEq, Eq)]
pub enum BinaryOp {
    /// `*`
    Mul,
    /// `/`
    Div,
    /// `%`
    Rem,
    /// `<<`
    Shl,
    /// `>>`
    Shr,
    /// `|`
    Or,
    /// `&`
    And,
    /// `^`
    Xor,
    /// `!`: the left operand or not the right one, bit by bit.
    OrNot,
    /// `+`
    Add,
    /// `-`
    Sub,
    /// `==`
    Eq,
    /// `<>` or `!=`
    Ne,
    /// `<`
    Lt,
    /// `>`
    Gt,
    /// `<=`
    Le,
    /// `>=`
    Ge,
    /// `&&`
    BothTrue,
    /// `||`
    OneTrue,
}

/// An expression. Parentheses are not part of it: they say which tree is meant.
#[derive(Drop)]
pub enum Expr {
    Num(u64),
    Name(Written),
    /// `.`: the place of the statement.
    Here,
    Unary(UnaryOp, Box<Expr>),
    Binary(BinaryOp, Box<Expr>, Box<Expr>),
}
