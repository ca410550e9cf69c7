//! What stands in a `.loc`, and in a `.file` with a number, read from left to right.

ghost use Rattle.std.specs.Prelude.{◌≡◌, ◌≤◌, ◌==◌, length, map, IfOk};
ghost use Rattle.std.specs.List.{list_any};
ghost use Rattle.asm_base.specs.Refusals.{Gives, GivesBy};
ghost use Rattle.asm_base.specs.Tokens.{spelled};
ghost use Rattle.asm_line_tables.specs.Parts.{option_of};
ghost use Rattle.asm_line_tables.specs.Words as spec;
ghost use Rattle.asm_line_tables.specs.WordsIn.{loc_words_in, paths_in};

use crate::parts::{cut, option_of};
use crate::values::{no_marks, with_mark};
use crate::words::{LocMarks, LocOption, LocValue};
use asm_base::{Bytes, Token};
use asm_expr::Expr;
use asm_operands::{PlaceCause, PlaceFault, expression_of, is_name, string_of};
use std::alloc::Global;

/// What a `.loc` says: the marks, and its expressions in their order, each with what it is the value of.
#[derive(Drop)]
pub(crate) struct LocExprs {
    pub(crate) marks: LocMarks,
    pub(crate) kinds: Vec<LocValue>,
    pub(crate) exprs: Vec<Expr>,
}

/// The expression at the front is such a value. Answers what stands behind it.
fn add_value<'t, 'a>(
    alloc: Global,
    words: &mut LocExprs,
    kind: LocValue,
    tokens: &'t [Token<'a>],
) -> Result<&'t [Token<'a>], PlaceFault>
    ensures value { GivesBy (λ behind. (loc_words_in words.new, map spelled behind.now)) result
        (spec.value_read kind (map spelled tokens.now) (loc_words_in words.old)) }
    ensures within { IfOk result (λ behind. length behind.now ≤ length tokens.now) }
{
    let parts = cut(tokens);
    let expr = expression_of(alloc, parts.front)?;
    words.kinds.push(kind)?;
    words.exprs.push(expr)?;
    Ok(parts.behind)
}

/// The column, where one stands at the front. Answers what stands behind it.
fn add_column<'t, 'a>(
    alloc: Global,
    words: &mut LocExprs,
    tokens: &'t [Token<'a>],
) -> Result<&'t [Token<'a>], PlaceFault>
    ensures { GivesBy (λ behind. (loc_words_in words.new, map spelled behind.now)) result
        (spec.column_read (map spelled tokens.now) (loc_words_in words.old)) }
{
    match tokens.first() {
        Some(token) if !is_name(token) => add_value(alloc, words, LocValue::Column, tokens),
        _ => Ok(tokens),
    }
}

/// An option, by its name and what stands behind this. Answers what stands behind the option.
fn add_option<'t, 'a>(
    alloc: Global,
    words: &mut LocExprs,
    name: &'t Token<'a>,
    rest: &'t [Token<'a>],
) -> Result<&'t [Token<'a>], PlaceFault>
    ensures value { GivesBy (λ behind. (loc_words_in words.new, map spelled behind.now)) result
        (spec.option_read (option_of (spelled name.now)) (map spelled rest.now)
        (loc_words_in words.old)) }
    ensures within { IfOk result (λ behind. length behind.now ≤ length rest.now) }
{
    match option_of(name) {
        None => Err(PlaceFault::Fault(PlaceCause::BadOperand)),
        Some(LocOption::Mark(mark)) => {
            words.marks = with_mark(mark, words.marks);
            Ok(rest)
        }
        Some(LocOption::Value(kind)) => add_value(alloc, words, kind, rest),
    }
}

/// The options up to the last token.
fn add_options(alloc: Global, words: &mut LocExprs, tokens: &[Token]) -> Result<(), PlaceFault>
    ensures { Gives (loc_words_in words.new) result
        (spec.options_from 0 (loc_words_in words.old) (map spelled tokens.now)) }
{
    let mut at = 0;
    while let Some((name, rest)) = tokens[at..].split_first() {
        let behind = add_option(alloc, words, name, rest)?;
        at = tokens.len() - behind.len();
    }
    Ok(())
}

/// A file number, a line, a column where one stands, and options.
#[tactic(auto, unfolding(crate::specs::Words::loc_words))]
pub(crate) fn loc_words(alloc: Global, tokens: &[Token]) -> Result<LocExprs, PlaceFault>
    ensures { GivesBy loc_words_in result (spec.loc_words (map spelled tokens.now)) }
{
    let mut words = LocExprs {
        marks: no_marks(),
        kinds: Vec::new(alloc),
        exprs: Vec::new(alloc),
    };
    let behind_file = add_value(alloc, &mut words, LocValue::File, tokens)?;
    let behind_line = add_value(alloc, &mut words, LocValue::Line, behind_file)?;
    let options = add_column(alloc, &mut words, behind_line)?;
    add_options(alloc, &mut words, options)?;
    Ok(words)
}

/// The directory and the name of a file.
#[derive(Drop)]
pub(crate) struct FilePaths {
    pub(crate) directory: Option<Bytes>,
    pub(crate) name: Bytes,
}

/// Whether a path has a zero byte.
fn has_zero(path: &[u8]) -> bool
    ensures { result ≡ list_any (λ byte. byte == 0) path.now }
{
    path.contains(&0)
}

/// The path, if it has no zero byte.
fn checked_path(path: Vec<u8>) -> Result<Bytes, PlaceFault>
    ensures { GivesBy (λ checked. checked) result (spec.checked_path path.items) }
{
    if has_zero(&path) {
        Err(PlaceFault::Fault(PlaceCause::BadOperand))
    } else {
        Ok(Bytes::new(path))
    }
}

/// A string that is a path.
#[tactic(auto, unfolding(crate::specs::Words::path_of))]
fn path_of(alloc: Global, operand: &[Token]) -> Result<Bytes, PlaceFault>
    ensures { GivesBy (λ path. path) result (spec.path_of (map spelled operand.now)) }
{
    let path = string_of(alloc, operand)?;
    checked_path(path)
}

/// A name alone, or a directory and a name.
pub(crate) fn paths_of(alloc: Global, tokens: &[Token]) -> Result<FilePaths, PlaceFault>
    ensures { GivesBy paths_in result (spec.paths_of (map spelled tokens.now)) }
{
    match tokens {
        [_] => {
            let name = path_of(alloc, tokens)?;
            Ok(FilePaths {
                directory: None,
                name,
            })
        }
        [_, _] => {
            let directory = path_of(alloc, &tokens[..1])?;
            let name = path_of(alloc, &tokens[1..])?;
            Ok(FilePaths {
                directory: Some(directory),
                name,
            })
        }
        _ => Err(PlaceFault::Fault(PlaceCause::BadOperand)),
    }
}
