//! The arguments of a call (GNU as manual, ".macro").

ghost use Rattle.std.specs.Prelude.{◌≡◌, ◌<◌, ◌≤◌, map, length, false, IsTrue, IfOk};
ghost use Rattle.std.specs.List.{list_any, find, position_or_len};
ghost use Rattle.std.specs.Option.{option_map};
ghost use Rattle.asm_base.specs.Refusals.{GivesBy};
ghost use Rattle.asm_base.specs.Tokens.{spelled};
ghost use Rattle.asm_operands.specs.Operands.{is_comma};
ghost use Rattle.macro_texts.specs.TokenTexts.{value_seen};
ghost use Rattle.macro_texts.specs.ParametersSeen.{parameter_seen};
ghost use Rattle.macro_texts.specs.Arguments as spec;
ghost use Rattle.macro_texts.specs.ArgumentsSeen.{given_seen, argument_seen, passed_length, ReadsArgument};

use crate::causes::{MacroLineCause, MacroLineFault};
use crate::parameters::{Parameter, ParameterKind};
use crate::token_texts::{Value, value_of};
use asm_base::{Token, TokenKind};
use asm_operands::{is_mark, is_name};
use expr_texts::between_quotes;
use std::alloc::Global;

/// What a call gives to the parameter of this number.
#[derive(Clone, Copy)]
struct Given<'t, 'a> {
    parameter: usize,
    /// Whether the parameter takes the rest of the call.
    rest: bool,
    tokens: &'t [Token<'a>],
}

/// How many tokens an argument has with the comma behind it, and the place behind it.
#[derive(Clone, Copy)]
struct Passed {
    length: usize,
    place: usize,
}

/// A parameter with what stands for it in a call.
#[derive(Clone, Copy)]
pub struct Argument<'t, 'a> {
    pub name: &'t [u8],
    pub value: Value<'t, 'a>,
}

/// How many tokens stand before the first comma, or all.
pub fn length_to_comma(tokens: &[Token]) -> usize
    ensures value { result ≡ position_or_len is_comma (map spelled tokens.now) }
    ensures within { result ≤ length tokens.now }
{
    for (at, token) in tokens.iter().enumerate() {
        if is_mark(token, b',') {
            return at;
        }
    }
    tokens.len()
}

/// What stands before the next comma.
pub(crate) fn up_to_comma<'t, 'a>(tokens: &'t [Token<'a>]) -> &'t [Token<'a>]
    ensures { map spelled result.now ≡ spec.up_to_comma (map spelled tokens.entry.now) }
{
    &tokens[..length_to_comma(tokens)]
}

/// The number of the parameter of this name, or how many there are.
fn number_named(parameters: &[Parameter], name: &[u8]) -> usize
    ensures { result ≡ spec.number_named (map parameter_seen parameters.now) name.now }
{
    for (at, parameter) in parameters.iter().enumerate() {
        if parameter.name.as_slice() == name {
            return at;
        }
    }
    parameters.len()
}

/// What stands here, for a parameter that takes the rest or one that does not.
fn taken_by<'t, 'a>(rest: bool, tokens: &'t [Token<'a>]) -> &'t [Token<'a>]
    ensures { map spelled result.now ≡ spec.taken_by rest (map spelled tokens.entry.now) }
{
    if rest { tokens } else { up_to_comma(tokens) }
}

/// What stands here, given to the parameter of this number.
fn gift<'t, 'a>(
    parameters: &[Parameter],
    number: usize,
    tokens: &'t [Token<'a>],
) -> Result<Given<'t, 'a>, MacroLineFault>
    ensures gives { GivesBy given_seen result
        (spec.gift (map parameter_seen parameters.now) number (map spelled tokens.entry.now)) }
    ensures number { IfOk result (λ given. number < length parameters.now) }
{
    let Some(parameter) = parameters.get(number) else {
        return Err(MacroLineFault::Fault(MacroLineCause::BadMacroLine));
    };
    let rest = parameter.takes_rest();
    Ok(Given {
        parameter: number,
        rest,
        tokens: taken_by(rest, tokens),
    })
}

/// Whether an argument begins with a name and `=`.
fn names_parameter(tokens: &[Token]) -> bool
    ensures value { result ≡ spec.names_parameter (map spelled tokens.now) }
    ensures long { IsTrue result → 2 ≤ length tokens.now }
{
    match tokens {
        [name, mark, ..] => is_name(name) && is_mark(mark, b'='),
        _ => false,
    }
}

/// What the argument gives that begins here, where this is the next place.
fn given_by<'t, 'a>(
    parameters: &[Parameter],
    place: usize,
    tokens: &'t [Token<'a>],
) -> Result<Given<'t, 'a>, MacroLineFault>
    ensures gives { GivesBy given_seen result
        (spec.given_by (map parameter_seen parameters.now) place (map spelled tokens.entry.now)) }
    ensures place { IfOk result (λ given.
        spec.names_parameter (map spelled tokens.entry.now) ≡ false → place < length parameters.now) }
{
    if names_parameter(tokens) {
        let number = number_named(parameters, tokens[0].bytes);
        gift(parameters, number, &tokens[2..])
    } else {
        gift(parameters, place, tokens)
    }
}

/// How many tokens an argument has with the comma behind it, or all where it takes the rest.
pub(crate) fn passed_length(rest: bool, tokens: &[Token]) -> usize
    ensures { result ≡ passed_length rest (map spelled tokens.now) }
{
    let length = length_to_comma(tokens);
    if rest || length >= tokens.len() {
        tokens.len()
    } else {
        length + 1
    }
}

/// Appends what the argument gives that begins here, and answers where the next one begins.
fn push_argument<'t, 'a>(
    parameters: &[Parameter],
    given: &mut Vec<Given<'t, 'a>>,
    place: usize,
    tokens: &'t [Token<'a>],
) -> Result<Passed, MacroLineFault>
    requires tokens { 0 < length tokens.now }
    requires place { place ≤ length parameters.now }
    ensures read { ReadsArgument (map parameter_seen parameters.now) (map given_seen given.old.items)
        (map given_seen given.new.items) place (map spelled tokens.entry.now) result }
    ensures place { IfOk result (λ passed. passed.place ≤ length parameters.now) }
{
    let one = match given_by(parameters, place, tokens) {
        Ok(one) => one,
        Err(refusal) => return Err(refusal),
    };
    given.push(one)?;
    let length = passed_length(one.rest, tokens);
    if names_parameter(tokens) {
        Ok(Passed {
            length,
            place: parameters.len(),
        })
    } else {
        Ok(Passed {
            length,
            place: place + 1,
        })
    }
}

/// What the arguments give, one after the other.
fn given_in<'t, 'a>(
    alloc: Global,
    parameters: &[Parameter],
    tokens: &'t [Token<'a>],
) -> Result<Vec<Given<'t, 'a>>, MacroLineFault>
    ensures { GivesBy (λ given. map given_seen given.items) result
        (spec.given_from (map parameter_seen parameters.now) 0
        (spec.arguments_of (map spelled tokens.entry.now))) }
{
    let mut given = Vec::new(alloc);
    let mut at = 0;
    let mut place = 0;
    while at < tokens.len() {
        let passed = push_argument(parameters, &mut given, place, &tokens[at..])?;
        at += passed.length;
        place = passed.place;
    }
    Ok(given)
}

/// Whether there is no token, or one string with nothing between its quotes.
fn has_no_text(tokens: &[Token]) -> bool
    ensures { result ≡ spec.has_no_text (map spelled tokens.now) }
{
    match tokens {
        [] => true,
        [token] => token.kind == TokenKind::String && between_quotes(token.bytes).is_empty(),
        _ => false,
    }
}

impl<'t, 'a> Given<'t, 'a> {
    ghost use Rattle.std.specs.Prelude.{◌≡◌};
    ghost use Rattle.macro_texts.specs.Arguments.{is_nothing_by, is_value_for, given_text};
    ghost use Rattle.macro_texts.specs.ArgumentsSeen.{given_seen};
    ghost use Rattle.macro_texts.specs.TokenTexts.{value_seen};

    /// Whether nothing is given.
    fn is_nothing(&self) -> bool
        ensures { result ≡ is_nothing_by (given_seen self.now).rest (given_seen self.now).tokens }
    {
        if self.rest {
            self.tokens.is_empty()
        } else {
            has_no_text(self.tokens)
        }
    }

    /// Whether this is a value for the parameter of this number.
    fn is_value_for(&self, number: usize) -> bool
        ensures { result ≡ is_value_for number (given_seen self.now) }
    {
        self.parameter == number && !self.is_nothing()
    }

    /// What stands for the parameter: all of the rest with its commas, or one value.
    fn value(self) -> Value<'t, 'a>
        ensures { value_seen result
            ≡ given_text (given_seen self.entry).rest (given_seen self.entry).tokens }
    {
        if self.rest {
            Value::Tokens(self.tokens)
        } else {
            value_of(self.tokens)
        }
    }
}

/// Whether one of these is a value for the parameter of this number.
fn has_value_for(given: &[Given], number: usize) -> bool
    ensures { result ≡ list_any (spec.is_value_for number) (map given_seen given.now) }
{
    for one in given {
        if one.is_value_for(number) {
            return true;
        }
    }
    false
}

/// Whether no parameter has two values.
fn given_once(given: &[Given]) -> bool
    ensures { result ≡ spec.given_once (map given_seen given.now) }
{
    for (at, one) in given.iter().enumerate() {
        if !one.is_nothing() && has_value_for(&given[at + 1..], one.parameter) {
            return false;
        }
    }
    true
}

/// What stands for the parameter of this number, if a value is given to it.
fn value_for<'t, 'a>(given: &[Given<'t, 'a>], number: usize) -> Option<Value<'t, 'a>>
    ensures { option_map value_seen result
        ≡ option_map spec.text_given (find (spec.is_value_for number) (map given_seen given.now)) }
{
    for one in given {
        if one.is_value_for(number) {
            return Some(one.value());
        }
    }
    None
}

/// What stands for a parameter: the value that is given to it, or its default.
fn argument_for<'t, 'a>(
    given: &[Given<'t, 'a>],
    number: usize,
    parameter: &'t Parameter,
) -> Result<Value<'t, 'a>, MacroLineFault>
    ensures { GivesBy value_seen result (spec.text_by
        (option_map spec.text_given (find (spec.is_value_for number) (map given_seen given.now)))
        (parameter_seen parameter.entry.now)) }
{
    if let Some(value) = value_for(given, number) {
        return Ok(value);
    }
    match parameter.kind {
        ParameterKind::Required => Err(MacroLineFault::Fault(MacroLineCause::MissingArgument)),
        ParameterKind::Optional | ParameterKind::Rest => Ok(Value::Bytes(&parameter.default)),
    }
}

/// The parameters, each with what stands for it.
fn filled<'t, 'a>(
    alloc: Global,
    parameters: &'t [Parameter],
    given: &[Given<'t, 'a>],
) -> Result<Vec<Argument<'t, 'a>>, MacroLineFault>
    ensures { GivesBy (λ arguments. map argument_seen arguments.items) result
        (spec.filled (map given_seen given.now) 0 (map parameter_seen parameters.entry.now)) }
{
    let mut arguments = Vec::new(alloc);
    for (number, parameter) in parameters.iter().enumerate() {
        match argument_for(given, number, parameter) {
            Ok(value) => arguments.push(Argument {
                name: &parameter.name,
                value,
            })?,
            Err(refusal) => return Err(refusal),
        }
    }
    Ok(arguments)
}

/// The parameters of a macro, each with what stands for it in a call with these tokens behind the macro's name.
#[tactic(auto, unfolding(crate::specs::Arguments::call_arguments, crate::specs::Arguments::filled_once))]
pub fn call_arguments<'t, 'a>(
    alloc: Global,
    parameters: &'t [Parameter],
    tokens: &'t [Token<'a>],
) -> Result<Vec<Argument<'t, 'a>>, MacroLineFault>
    ensures { GivesBy (λ arguments. map argument_seen arguments.items) result
        (spec.call_arguments (map parameter_seen parameters.entry.now) (map spelled tokens.entry.now)) }
{
    let given = given_in(alloc, parameters, tokens)?;
    if given_once(&given) {
        filled(alloc, parameters, &given)
    } else {
        Err(MacroLineFault::Fault(MacroLineCause::BadMacroLine))
    }
}
