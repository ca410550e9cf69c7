//! The line of `.macro`: a name, and parameters between commas or blanks (GNU as manual, ".macro").

ghost use Rattle.std.specs.Prelude.{◌≡◌, ◌<◌, ◌≤◌, map, length};
ghost use Rattle.std.specs.List.{list_any};
ghost use Rattle.asm_base.specs.Refusals.{GivesBy};
ghost use Rattle.asm_base.specs.Tokens.{spelled};
ghost use Rattle.macro_texts.specs.ParametersSeen.{parameter_seen, line_seen};
ghost use Rattle.macro_texts.specs.Parameters as spec;
ghost use Rattle.macro_texts.specs.PartLengths.{part_length, ReadsFirst};

use crate::causes::{MacroLineCause, MacroLineFault};
use crate::token_texts::{follows, push_value, value_of};
use asm_base::Token;
use asm_operands::{is_mark, is_name};
use std::alloc::Global;

/// What a parameter asks of a call.
#[derive(Clone, Copy, PartialEq, Eq, Debug)]
pub enum ParameterKind {
    /// Nothing: without an argument it has its default.
    Optional,
    /// An argument: `:req`.
    Required,
    /// Nothing, and it takes the rest of the call with its commas: `:vararg`.
    Rest,
}

/// A parameter of a macro.
#[derive(Drop)]
pub struct Parameter {
    pub name: Vec<u8>,
    pub kind: ParameterKind,
    /// The text that it has without an argument.
    pub default: Vec<u8>,
}

impl Parameter {
    /// Whether it takes the rest of a call.
    pub(crate) fn takes_rest(&self) -> bool
        ensures { result ≡ spec.is_rest_kind self.now.kind }
    {
        matches!(self.kind, ParameterKind::Rest)
    }
}

/// What a `.macro` line says.
#[derive(Drop)]
pub struct MacroLine {
    pub name: Vec<u8>,
    pub parameters: Vec<Parameter>,
}

/// Whether the token is `=` or `:`, beside which blanks may stand.
fn is_binding(token: &Token) -> bool
    ensures { result ≡ spec.is_binding (spelled token.now) }
{
    is_mark(token, b'=') || is_mark(token, b':')
}

/// Whether the token belongs to the same parameter as the one before it.
fn goes_on(before: &Token, token: &Token) -> bool
    ensures { result ≡ spec.goes_on (spelled before.now) (spelled token.now) }
{
    is_mark(before, b',')
        || !is_mark(token, b',')
            && (follows(before, token) || is_binding(before) || is_binding(token))
}

/// How many tokens the first parameter has, with the comma that stands before it.
fn part_length(tokens: &[Token]) -> usize
    ensures value { result ≡ part_length (map spelled tokens.now) }
    ensures within { result ≤ length tokens.now }
{
    for at in 1..tokens.len() {
        if !goes_on(&tokens[at - 1], &tokens[at]) {
            return at;
        }
    }
    tokens.len()
}

/// What stands behind the `:` of a parameter.
fn kind_of(tokens: &[Token]) -> Result<ParameterKind, MacroLineCause>
    ensures { result ≡ spec.kind_of (map spelled tokens.now) }
{
    match tokens {
        [word] if word.bytes == b"req".as_slice() => Ok(ParameterKind::Required),
        [word] if word.bytes == b"vararg".as_slice() => Ok(ParameterKind::Rest),
        _ => Err(MacroLineCause::BadMacroLine),
    }
}

/// A parameter, by what stands behind its name.
fn said_of(alloc: Global, name: &[u8], rest: &[Token]) -> Result<Parameter, MacroLineFault>
    ensures { GivesBy parameter_seen result (spec.said_of name.now (map spelled rest.now)) }
{
    let mut parameter = Parameter {
        name: Vec::from_slice(alloc, name)?,
        kind: ParameterKind::Optional,
        default: Vec::new(alloc),
    };
    let Some((mark, said)) = rest.split_first() else {
        return Ok(parameter);
    };
    if is_mark(mark, b'=') {
        push_value(&mut parameter.default, value_of(said))?;
        return Ok(parameter);
    }
    if !is_mark(mark, b':') {
        return Err(MacroLineFault::Fault(MacroLineCause::BadMacroLine));
    }
    match kind_of(said) {
        Ok(kind) => {
            parameter.kind = kind;
            Ok(parameter)
        }
        Err(cause) => Err(MacroLineFault::Fault(cause)),
    }
}

/// The parameter that these tokens are, without the comma before it.
fn bare_parameter(alloc: Global, tokens: &[Token]) -> Result<Parameter, MacroLineFault>
    ensures { GivesBy parameter_seen result (spec.bare_parameter (map spelled tokens.now)) }
{
    match tokens {
        [name, rest @ ..] if is_name(name) => said_of(alloc, name.bytes, rest),
        _ => Err(MacroLineFault::Fault(MacroLineCause::BadMacroLine)),
    }
}

/// The parameter that these tokens are.
#[tactic(auto, unfolding(crate::specs::Parameters::parameter_of))]
fn parameter_of(alloc: Global, tokens: &[Token]) -> Result<Parameter, MacroLineFault>
    ensures { GivesBy parameter_seen result (spec.parameter_of (map spelled tokens.now)) }
{
    match tokens {
        [comma, rest @ ..] if is_mark(comma, b',') => bare_parameter(alloc, rest),
        _ => bare_parameter(alloc, tokens),
    }
}

/// Appends the first of the parameters that these tokens are, and answers how many tokens it has.
fn push_first(
    alloc: Global,
    parameters: &mut Vec<Parameter>,
    tokens: &[Token],
) -> Result<usize, MacroLineFault>
    requires { 0 < length tokens.now }
    ensures { ReadsFirst (map parameter_seen parameters.old.items)
        (map parameter_seen parameters.new.items) (map spelled tokens.now) result }
{
    let length = part_length(tokens);
    match parameter_of(alloc, &tokens[..length]) {
        Ok(parameter) => {
            parameters.push(parameter)?;
            Ok(length)
        }
        Err(refusal) => Err(refusal),
    }
}

/// The parameters, one after the other.
fn each_parameter(alloc: Global, tokens: &[Token]) -> Result<Vec<Parameter>, MacroLineFault>
    ensures { GivesBy (λ parameters. map parameter_seen parameters.items) result
        (spec.each_parameter (spec.parameter_parts (map spelled tokens.now))) }
{
    let mut parameters = Vec::new(alloc);
    let mut at = 0;
    while at < tokens.len() {
        at += push_first(alloc, &mut parameters, &tokens[at..])?;
    }
    Ok(parameters)
}

/// Whether one of the parameters has this name.
fn has_name(parameters: &[Parameter], name: &[u8]) -> bool
    ensures { result ≡ list_any (spec.is_named name.now) (map parameter_seen parameters.now) }
{
    for parameter in parameters {
        if parameter.name.as_slice() == name {
            return true;
        }
    }
    false
}

/// Whether no two parameters have one name.
fn names_apart(parameters: &[Parameter]) -> bool
    ensures { result ≡ spec.names_apart (map parameter_seen parameters.now) }
{
    for (at, parameter) in parameters.iter().enumerate() {
        if has_name(&parameters[at + 1..], &parameter.name) {
            return false;
        }
    }
    true
}

/// Whether no parameter stands behind one that takes the rest of a call.
fn rest_is_last(parameters: &[Parameter]) -> bool
    ensures { result ≡ spec.rest_is_last (map parameter_seen parameters.now) }
{
    for (at, parameter) in parameters.iter().enumerate() {
        if parameter.takes_rest() && at + 1 < parameters.len() {
            return false;
        }
    }
    true
}

/// The parameters of a macro.
#[tactic(auto, unfolding(crate::specs::Parameters::parameters_of))]
fn parameters_of(alloc: Global, tokens: &[Token]) -> Result<Vec<Parameter>, MacroLineFault>
    ensures { GivesBy (λ parameters. map parameter_seen parameters.items) result
        (spec.parameters_of (map spelled tokens.now)) }
{
    let parameters = each_parameter(alloc, tokens)?;
    if names_apart(&parameters) && rest_is_last(&parameters) {
        Ok(parameters)
    } else {
        Err(MacroLineFault::Fault(MacroLineCause::BadMacroLine))
    }
}

/// What stands behind `.macro`: the name and the parameters.
pub fn macro_line(alloc: Global, tokens: &[Token]) -> Result<MacroLine, MacroLineFault>
    ensures { GivesBy line_seen result (spec.macro_line (map spelled tokens.now)) }
{
    match tokens {
        [name, rest @ ..] if is_name(name) => {
            let parameters = parameters_of(alloc, rest)?;
            let name = Vec::from_slice(alloc, name.bytes)?;
            Ok(MacroLine { name, parameters })
        }
        _ => Err(MacroLineFault::Fault(MacroLineCause::BadMacroLine)),
    }
}
