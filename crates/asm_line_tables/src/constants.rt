//! A `.loc` of numbers alone: it needs no tree and no form.

ghost use Rattle.std.specs.Prelude.{◌≤◌, length, map, option_map, IfSome};
ghost use Rattle.asm_base.specs.Tokens.{spelled};
ghost use Rattle.asm_line_tables.specs.Constants.{FindsFrontNumber, FindsNumber, FindsColumn, FindsOption, FindsOptions, FindsLoc};
ghost use Rattle.asm_line_tables.specs.Parts.{option_of};

use crate::parts::{cut, option_of};
use crate::values::{loc_line, no_marks, no_numbers, with_mark, with_number};
use crate::words::{LocMarks, LocNumbers, LocOption, LocValue};
use asm_base::Token;
use asm_operands::{constant_operand, is_name};
use line_directives::LocLine;

/// The number that is the expression at the front of tokens, and what stands behind it.
#[derive(Clone, Copy)]
pub(crate) struct FrontNumber<'t, 'a> {
    pub(crate) value: u64,
    pub(crate) behind: &'t [Token<'a>],
}

/// The number that is the expression at the front, and what stands behind it. None says nothing of the tokens.
#[inline(always)]
pub(crate) fn front_number<'t, 'a>(tokens: &'t [Token<'a>]) -> Option<FrontNumber<'t, 'a>>
    ensures number { FindsFrontNumber (map spelled tokens.now) result }
    ensures within { IfSome result (λ found. length found.behind.now ≤ length tokens.now) }
{
    let parts = cut(tokens);
    let value = constant_operand(parts.front)?;
    Some(FrontNumber {
        value,
        behind: parts.behind,
    })
}

/// Takes over the number that is the expression at the front, and answers what stands behind it. None says nothing of
/// the tokens.
#[inline(always)]
fn add_number<'t, 'a>(
    tokens: &'t [Token<'a>],
    kind: LocValue,
    numbers: &mut LocNumbers,
) -> Option<&'t [Token<'a>]>
    ensures number { FindsNumber kind (map spelled tokens.now) numbers.old numbers.new
        (option_map (λ behind. map spelled behind.now) result) }
    ensures within { IfSome result (λ behind. length behind.now ≤ length tokens.now) }
{
    let found = front_number(tokens)?;
    match with_number(kind, found.value, *numbers) {
        Ok(more) => {
            *numbers = more;
            Some(found.behind)
        }
        Err(_) => None,
    }
}

/// Takes over the column, where one stands at the front, and answers what stands behind it.
#[inline(always)]
fn add_column<'t, 'a>(tokens: &'t [Token<'a>], numbers: &mut LocNumbers) -> Option<&'t [Token<'a>]>
    ensures { FindsColumn (map spelled tokens.now) numbers.old numbers.new
        (option_map (λ behind. map spelled behind.now) result) }
{
    match tokens.first() {
        Some(token) if !is_name(token) => add_number(tokens, LocValue::Column, numbers),
        _ => Some(tokens),
    }
}

/// Takes over an option, by its name and what stands behind this, and answers what stands behind the option.
#[inline(always)]
fn add_option<'t, 'a>(
    name: &'t Token<'a>,
    rest: &'t [Token<'a>],
    marks: &mut LocMarks,
    numbers: &mut LocNumbers,
) -> Option<&'t [Token<'a>]>
    ensures number { FindsOption (option_of (spelled name.now)) (map spelled rest.now)
        numbers.old numbers.new marks.old marks.new
        (option_map (λ behind. map spelled behind.now) result) }
    ensures within { IfSome result (λ behind. length behind.now ≤ length rest.now) }
{
    match option_of(name)? {
        LocOption::Mark(mark) => {
            *marks = with_mark(mark, *marks);
            Some(rest)
        }
        LocOption::Value(kind) => add_number(rest, kind, numbers),
    }
}

/// Takes over the options, and answers the marks among them.
#[inline(always)]
fn add_options(tokens: &[Token], numbers: &mut LocNumbers) -> Option<LocMarks>
    ensures { FindsOptions (map spelled tokens.now) numbers.old numbers.new result }
{
    let mut marks = no_marks();
    let mut at = 0;
    while let Some((name, rest)) = tokens[at..].split_first() {
        let behind = add_option(name, rest, &mut marks, numbers)?;
        at = tokens.len() - behind.len();
    }
    Some(marks)
}

/// The row that a `.loc` of numbers alone is. None says nothing of the tokens.
#[inline(always)]
pub(crate) fn constant_loc(tokens: &[Token]) -> Option<LocLine>
    ensures { FindsLoc (map spelled tokens.now) result }
{
    let mut numbers = no_numbers();
    let behind_file = add_number(tokens, LocValue::File, &mut numbers)?;
    let behind_line = add_number(behind_file, LocValue::Line, &mut numbers)?;
    let options = add_column(behind_line, &mut numbers)?;
    let marks = add_options(options, &mut numbers)?;
    Some(loc_line(numbers, marks))
}
