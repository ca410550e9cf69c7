//! Statements in two parts: the labels in front, and what stands behind them.

ghost use Rattle.std.specs.Prelude.{◌≡◌, ◌≤◌, length, map, take, drop};
ghost use Rattle.asm_base.specs.Tokens.{spelled};
ghost use Rattle.asm_place.specs.Bodies.{labels_of, body_of};
ghost use Rattle.asm_place.specs.Instructions.{behind_labels};

use asm_base::Token;
use asm_operands::{begins_assignment, begins_with_dot, begins_with_label, is_name, names_symbol};
use asm_words::{Directive, directive_of};

/// What stands behind the labels of a statement.
#[derive(Clone, Copy)]
pub enum Body {
    Nothing,
    /// A name, quoted or not, and an equals sign.
    Assignment,
    /// A name that a dot begins, and its directive, if there is one of this name.
    Directed(Option<Directive>),
    /// Any other name: an instruction.
    Instruction,
    /// What no name begins.
    Unknown,
}

/// What these tokens are, in front of which no label stands.
pub fn body_of(tokens: &[Token]) -> Body
    ensures { result ≡ body_of (map spelled tokens.now) }
{
    match tokens.split_first() {
        None => Body::Nothing,
        Some((first, rest)) => {
            if begins_assignment(rest) && names_symbol(first) {
                Body::Assignment
            } else if !is_name(first) {
                Body::Unknown
            } else if begins_with_dot(first.bytes) {
                Body::Directed(directive_of(first.bytes))
            } else {
                Body::Instruction
            }
        }
    }
}

/// How many tokens the labels in front are.
pub fn labels_length(tokens: &[Token]) -> usize
    ensures within { result ≤ length tokens.now }
    ensures front { map spelled (take result tokens.now) ≡ labels_of (map spelled tokens.now) }
    ensures back { map spelled (drop result tokens.now) ≡ behind_labels (map spelled tokens.now) }
{
    let mut at = 0;
    'labels: while begins_with_label(&tokens[at..]) {
        at += 2;
    }
    at
}
