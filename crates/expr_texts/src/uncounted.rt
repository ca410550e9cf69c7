//! The same for callers that count no steps.

ghost use Rattle.std.specs.Prelude.{◌≡◌, ◌<◌, ◌≤◌, length, map, IfOk};
ghost use Rattle.asm_base.specs.Tokens.{spelled};
ghost use Rattle.asm_base.specs.Refusals.{GivesBy};
ghost use Rattle.expr_texts.specs.Reading.{reading, reading_of};
ghost use Rattle.expr_texts.specs.Grammar.{IsFoundIn};
ghost use Rattle.expr_texts.specs.Found.{front_of, read_tree};

use crate::parsing::{counted_parse, counted_parse_front};
use asm_base::{Steps, Token, Tokens};
use asm_expr::{Expr, ExprFault};
use std::alloc::Global;
use std::marker::Brand;
use std::sync::ledger::{Blank, Ledger};

/// The expression at the front of these tokens, with a count of steps of its own.
fn front<L: Ledger>(
    alloc: Global,
    tokens: &[Token],
    blank: Blank,
) -> Result<(Expr, usize), ExprFault>
    requires name { blank.name ≡ L.name }
    requires parts { blank.parts ≡ L.parts }
    requires some { 0 < blank.parts }
    ensures value { GivesBy (front_of tokens.now) result (reading 1 0 (map spelled tokens.now)) }
    ensures grammar { IfOk result (λ found. IsFoundIn (map spelled tokens.now) 0 (read_tree found)) }
    ensures within { IfOk result (λ found. found.1 ≤ length tokens.now) }
{
    let mut steps = Steps::<L>::new(blank);
    counted_parse_front(alloc, tokens, &mut steps)
}

/// The expression that begins at this token, with a count of steps of its own.
fn whole<L: Ledger>(
    alloc: Global,
    tokens: &Tokens,
    at: usize,
    blank: Blank,
) -> Result<(Expr, usize), ExprFault>
    requires name { blank.name ≡ L.name }
    requires parts { blank.parts ≡ L.parts }
    requires some { 0 < blank.parts }
    ensures value { GivesBy read_tree result (reading_of tokens.now at) }
    ensures grammar { IfOk result (λ found. IsFoundIn tokens.now at (read_tree found)) }
{
    let mut steps = Steps::<L>::new(blank);
    counted_parse(alloc, tokens, at, &mut steps)
}

/// The expression at the front of these tokens, and how many of them it has.
pub fn parse_front(alloc: Global, tokens: &[Token]) -> Result<(Expr, usize), ExprFault>
    ensures value { GivesBy (front_of tokens.now) result (reading 1 0 (map spelled tokens.now)) }
    ensures grammar { IfOk result (λ found. IsFoundIn (map spelled tokens.now) 0 (read_tree found)) }
    ensures within { IfOk result (λ found. found.1 ≤ length tokens.now) }
{
    front::<Brand>(alloc, tokens, Blank::new(1))
}

/// The expression that begins at this token, and the index of the first token behind it.
pub fn parse(alloc: Global, tokens: &Tokens, at: usize) -> Result<(Expr, usize), ExprFault>
    ensures value { GivesBy read_tree result (reading_of tokens.now at) }
    ensures grammar { IfOk result (λ found. IsFoundIn tokens.now at (read_tree found)) }
{
    whole::<Brand>(alloc, tokens, at, Blank::new(1))
}
