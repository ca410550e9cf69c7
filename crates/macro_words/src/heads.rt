//! The labels of a statement, and the word and the one name behind them.

ghost use Rattle.std.specs.Prelude.{◌≡◌, ◌≤◌, map, length, take, drop};
ghost use Rattle.std.specs.Result.{result_map_both};
ghost use Rattle.asm_base.specs.Tokens.{spelled};
ghost use Rattle.macro_words.specs.Statements as spec;

use crate::causes::MacroCause;
use crate::words::{Word, may_be_word, slotted_word};
use asm_base::Token;
use asm_operands::{begins_assignment, begins_with_label, is_mark, is_name};

/// How many tokens the labels in front are.
#[inline(always)]
pub fn labels_length(tokens: &[Token]) -> usize
    ensures labels { take result (map spelled tokens.now) ≡ spec.labels_of (map spelled tokens.now) }
    ensures behind { drop result (map spelled tokens.now)
        ≡ spec.behind_labels (map spelled tokens.now) }
    ensures within { result ≤ length tokens.now }
{
    match tokens {
        [_, second, ..] if is_mark(second, b':') => all_labels_length(tokens),
        _ => 0,
    }
}

/// How many tokens the labels in front are, looked at one after the other.
#[inline(never)]
fn all_labels_length(tokens: &[Token]) -> usize
    ensures labels { take result (map spelled tokens.now) ≡ spec.labels_of (map spelled tokens.now) }
    ensures behind { drop result (map spelled tokens.now)
        ≡ spec.behind_labels (map spelled tokens.now) }
    ensures within { result ≤ length tokens.now }
{
    let mut at = 0;
    'labels: while begins_with_label(&tokens[at..]) {
        at += 2;
    }
    at
}

/// Whether these tokens may begin with a word. Most do not, and are looked at no further.
#[inline(always)]
fn may_begin_with_word(tokens: &[Token]) -> bool
    ensures { result ≡ spec.may_begin_with_word (map spelled tokens.now) }
{
    match tokens {
        [name, ..] => may_be_word(name.bytes),
        [] => false,
    }
}

/// The word that these tokens begin with, unless it is assigned, looked for in the table.
#[inline(never)]
fn named_word(tokens: &[Token]) -> Option<Word>
    ensures { result ≡ spec.word_named (spec.named_by (map spelled tokens.now)) }
{
    match tokens {
        [name, rest @ ..] if is_name(name) && !begins_assignment(rest) => slotted_word(name.bytes),
        _ => None,
    }
}

/// The word that these tokens begin with, unless it is assigned.
#[inline(always)]
#[tactic(auto, using(crate::proofs::WordNames::no_word_named))]
pub fn word_of_head(tokens: &[Token]) -> Option<Word>
    ensures { result ≡ spec.word_named (spec.named_by (map spelled tokens.now)) }
{
    if may_begin_with_word(tokens) {
        named_word(tokens)
    } else {
        None
    }
}

/// The name that these tokens are, if they are one.
pub fn one_name<'a>(operands: &[Token<'a>]) -> Result<&'a [u8], MacroCause>
    ensures { spec.one_name (map spelled operands.now)
        ≡ result_map_both (λ name. name.now) (λ cause. cause) result }
{
    match operands {
        [token] if is_name(token) => Ok(token.bytes),
        _ => Err(MacroCause::BadMacroLine),
    }
}
