//! From the tokens of a statement to a tree. A step is one look at a token: where an operand begins, where an operator
//! may follow, or where `)` has to.

ghost use Rattle.std.specs.Prelude.{◌≡◌, ◌+◌, ◌-◌, ◌*◌, ◌<◌, ◌≤◌, length, map, IsSome, IfOk};
ghost use Rattle.asm_base.specs.Tokens.{spelled};
ghost use Rattle.asm_expr.specs.Trees.{tree_of, unary, binary};
ghost use Rattle.asm_base.specs.Refusals.{GivesBy};
ghost use Rattle.expr_texts.specs.Reading.{closed_by, reading, reading_of};
ghost use Rattle.expr_texts.specs.Grammar.{IsFoundIn};
ghost use Rattle.expr_texts.specs.Found.{spelled_from, front_of, read_tree, operand_in, operator_in, IsLow, Finds, CompletesNode};

use crate::laws::read_is_written;
use crate::leaves::leaf_of;
use crate::operators::{closes, level_of, opens, operator_from, operator_of, prefix_of};
use asm_base::{Steps, Token, Tokens};
use asm_expr::{BinaryOp, Expr, ExprCause, ExprFault, UnaryOp};
use std::alloc::Global;
use std::sync::ledger::Ledger;

/// The most parentheses and prefix operators that are open at one place.
const MOST_OPEN: u8 = 64;

/// The most nodes that stand one above the other.
const MOST_HEIGHT: u64 = 256;

/// A tree that was read, how high it is, and the index of the first token behind it.
#[derive(Drop)]
struct Found {
    expr: Expr,
    height: u64,
    next: usize,
}

/// A prefix operator with its operand.
#[tactic(auto, unfolding(asm_expr::specs::Trees::height))]
fn unary_node(alloc: Global, op: UnaryOp, operand: Found) -> Result<Found, ExprFault>
    requires { IsLow operand }
    ensures { CompletesNode (unary op (tree_of operand.expr)) operand.next result }
{
    let height = operand.height + 1;
    if height > MOST_HEIGHT {
        return Err(ExprFault::Fault(ExprCause::ExpressionTooDeep));
    }
    let expr = Expr::Unary(op, Box::new(alloc, operand.expr)?);
    Ok(Found {
        expr,
        height,
        next: operand.next,
    })
}

/// An operator with its operands.
#[tactic(auto, unfolding(asm_expr::specs::Trees::height))]
fn binary_node(alloc: Global, op: BinaryOp, left: Found, right: Found) -> Result<Found, ExprFault>
    requires left_low { IsLow left }
    requires right_low { IsLow right }
    ensures { CompletesNode (binary op (tree_of left.expr) (tree_of right.expr)) right.next result }
{
    let height = left.height.max(right.height) + 1;
    if height > MOST_HEIGHT {
        return Err(ExprFault::Fault(ExprCause::ExpressionTooDeep));
    }
    let one = Box::new(alloc, left.expr)?;
    let other = Box::new(alloc, right.expr)?;
    Ok(Found {
        expr: Expr::Binary(op, one, other),
        height,
        next: right.next,
    })
}

/// The operator at this token, if it binds at least so tightly.
#[tactic(auto, using(crate::proofs::TokenLists::operator_none, crate::proofs::TokenLists::operator_one))]
fn operator_in<L: Ledger>(
    tokens: &[Token],
    at: usize,
    level: u8,
    steps: &mut Steps<L>,
) -> Option<BinaryOp>
    ensures value { result ≡ operator_in level (spelled_from tokens.now at) }
    ensures within { IsSome result → at < length tokens.now }
    ensures one { steps.new ≡ steps.old + 1 }
{
    steps.tick();
    if at >= tokens.len() {
        return None;
    }
    operator_from(level, operator_of(&tokens[at]))
}

/// What was read in parentheses, which have to close.
fn closed<L: Ledger>(
    tokens: &[Token],
    inner: Found,
    steps: &mut Steps<L>,
) -> Result<Found, ExprFault>
    requires low { IsLow inner }
    requires within { inner.next ≤ length tokens.now }
    ensures value { let behind = spelled_from tokens.now inner.next in
        Finds tokens.now inner.next (closed_by (tree_of inner.expr) behind) result }
    ensures one { steps.new ≡ steps.old + 1 }
{
    steps.tick();
    if inner.next >= tokens.len() || !closes(&tokens[inner.next]) {
        return Err(ExprFault::Fault(ExprCause::BadExpression));
    }
    Ok(Found {
        expr: inner.expr,
        height: inner.height,
        next: inner.next + 1,
    })
}

/// The operand that begins at this token, where so many constructs are open.
#[cycle(parsing)]
fn read_operand<L: Ledger>(
    alloc: Global,
    tokens: &[Token],
    at: usize,
    depth: u8,
    steps: &mut Steps<L>,
) -> Result<Found, ExprFault>
    requires { depth ≤ 64 }
    ensures value { Finds tokens.now at (operand_in depth (spelled_from tokens.now at)) result }
    ensures by_tokens { IfOk result (λ found.
        steps.new + 2 * at < steps.old + 2 * found.next) }
    ensures at_most { steps.new ≤ steps.old + 2 * (length tokens.now - at) + 1 }
{
    steps.tick();
    if at >= tokens.len() {
        return Err(ExprFault::Fault(ExprCause::BadExpression));
    }
    let token = &tokens[at];
    if opens(token) {
        if depth >= MOST_OPEN {
            return Err(ExprFault::Fault(ExprCause::ExpressionTooDeep));
        }
        let inner = read_at(alloc, tokens, at + 1, 1, depth + 1, steps)?;
        return closed(tokens, inner, steps);
    }
    match prefix_of(token) {
        Some(op) => {
            if depth >= MOST_OPEN {
                return Err(ExprFault::Fault(ExprCause::ExpressionTooDeep));
            }
            let operand = read_at(alloc, tokens, at + 1, 7, depth + 1, steps)?;
            unary_node(alloc, op, operand)
        }
        None => Ok(Found {
            expr: leaf_of(alloc, token)?,
            height: 1,
            next: at + 1,
        }),
    }
}

/// The expression that begins at this token, of operators that bind at least so tightly.
#[cycle(parsing)]
fn read_at<L: Ledger>(
    alloc: Global,
    tokens: &[Token],
    at: usize,
    level: u8,
    depth: u8,
    steps: &mut Steps<L>,
) -> Result<Found, ExprFault>
    requires { depth ≤ 64 }
    ensures value { Finds tokens.now at (reading level depth (spelled_from tokens.now at)) result }
    ensures by_tokens { IfOk result (λ found.
        steps.new + 2 * at ≤ steps.old + 2 * found.next) }
    ensures at_most { steps.new ≤ steps.old + 2 * (length tokens.now - at) + 1 }
{
    let mut left = read_operand(alloc, tokens, at, depth, steps)?;
    while let Some(op) = operator_in(tokens, left.next, level, steps) {
        let right = read_at(alloc, tokens, left.next + 1, level_of(op) + 1, depth, steps)?;
        left = binary_node(alloc, op, left, right)?;
    }
    Ok(left)
}

/// The expression at the front of these tokens, and how many of them it has. It takes at most two
/// steps for each token that it has, and otherwise for each that there is, and one.
pub fn counted_parse_front<L: Ledger>(
    alloc: Global,
    tokens: &[Token],
    steps: &mut Steps<L>,
) -> Result<(Expr, usize), ExprFault>
    ensures value { GivesBy (front_of tokens.now) result (reading 1 0 (map spelled tokens.now)) }
    ensures grammar { IfOk result (λ found. IsFoundIn (map spelled tokens.now) 0 (read_tree found)) }
    ensures within { IfOk result (λ found. found.1 ≤ length tokens.now) }
    ensures by_tokens { IfOk result (λ found. steps.new ≤ steps.old + 2 * found.1) }
    ensures at_most { steps.new ≤ steps.old + 2 * length tokens.now + 1 }
{
    let found = read_at(alloc, tokens, 0, 1, 0, steps)?;
    Ok((found.expr, found.next))
}

/// The expression that begins at this token, and the index of the first token behind it. It takes at
/// most two steps for each token that it has, and otherwise for each from this one on, and one.
pub fn counted_parse<L: Ledger>(
    alloc: Global,
    tokens: &Tokens,
    at: usize,
    steps: &mut Steps<L>,
) -> Result<(Expr, usize), ExprFault>
    ensures value { GivesBy read_tree result (reading_of tokens.now at) }
    ensures grammar { IfOk result (λ found. IsFoundIn tokens.now at (read_tree found)) }
    ensures by_tokens { IfOk result (λ found. steps.new ≤ steps.old + 2 * (found.1 - at)) }
    ensures at_most { steps.new ≤ steps.old + 2 * (length tokens.now - at) + 1 }
{
    read_is_written();
    let found = read_at(alloc, tokens.as_slice(), at, 1, 0, steps)?;
    Ok((found.expr, found.next))
}
