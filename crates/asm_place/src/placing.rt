//! Placing one statement: its labels, and the assignment, directive or instruction behind them.

ghost use Rattle.std.specs.Prelude.{◌≡◌, ◌∷◌, map, Ok};
ghost use Rattle.asm_base.specs.Tokens.{spelled};
ghost use Rattle.asm_place.specs.Placing.{initial_number, is_too_wide, has_wide_label, names_source, place_any_file, place_by, place_directive, place_body, place_label, place_unlabelled, place_labelled, place_tokens};
ghost use Rattle.asm_base.specs.Refusals.{Gives};
ghost use Rattle.asm_operands.specs.Operands.{begins_with_label};
ghost use Rattle.asm_values.specs.Answers.{KeepsNotes};
ghost use Rattle.asm_declarations.specs.SectionChanges.{bare, with_current};
ghost use Rattle.asm_values.specs.PlacedBy.{placed_by, PlacesBy};

use crate::instructions::place_instruction;
use crate::remarks::{place_error, place_warning};
use crate::syntax_words::place_syntax;
use crate::watches::Watch;
use asm_base::{Pos, Token, TokenKind};
use asm_declarations::{
    place_comm, place_file, place_ident, place_lcomm, place_popped, place_pushed, place_said,
    place_section, place_type, set_current,
};
use asm_frames::place_frame;
use asm_items::{place_align, place_leb128, place_org};
use asm_line_tables::{place_loc, place_numbered_file};
use asm_operands::{
    PlaceCause, PlaceFault, begins_assignment, begins_with_dot, begins_with_label, is_dot, is_mark,
    is_name, is_number, names_symbol,
};
use asm_symbols::Definition;
use asm_values::Assembler;
use asm_words::{Directive, InitialSection, directive_of};
use expr_texts::decimal_number;

/// The number of a section that is there from the beginning.
fn initial_number(initial: InitialSection) -> u32
    ensures { result ≡ initial_number initial }
{
    match initial {
        InitialSection::Text => 0,
        InitialSection::Data => 1,
        InitialSection::Bss => 2,
    }
}

/// Whether the token is a number above 2^64 - 1.
fn is_too_wide(token: &Token) -> bool
    ensures { result ≡ is_too_wide (spelled token.now) }
{
    is_number(token) && decimal_number(token.bytes).is_err()
}

/// Whether the number of one of the labels in front is too wide.
fn has_wide_label(tokens: &[Token]) -> bool
    ensures { result ≡ has_wide_label (map spelled tokens.now) }
{
    let mut at = 0;
    'labels: while begins_with_label(&tokens[at..]) {
        if is_too_wide(&tokens[at]) {
            return true;
        }
        at += 2;
    }
    false
}

/// A directive that stands alone, and changes nothing.
fn place_bare(assembler: &Assembler, tokens: &[Token]) -> Result<(), PlaceFault>
    ensures { PlacesBy (λ placed. bare (map spelled tokens.now) (Ok placed))
        assembler.now assembler.now result }
{
    if tokens.is_empty() {
        Ok(())
    } else {
        Err(PlaceFault::Fault(PlaceCause::BadOperand))
    }
}

/// A directive that stands alone, and lets statements put into the section of this number.
fn place_change(assembler: &mut Assembler, number: u32, tokens: &[Token]) -> Result<(), PlaceFault>
    ensures placed { PlacesBy
        (λ placed. bare (map spelled tokens.now) (Ok (with_current number placed)))
        assembler.old assembler.new result }
    ensures kept { assembler.new.notes ≡ assembler.old.notes }
{
    if !tokens.is_empty() {
        return Err(PlaceFault::Fault(PlaceCause::BadOperand));
    }
    set_current(assembler, number);
    Ok(())
}

/// Whether a string stands first, or nothing.
fn names_source(tokens: &[Token]) -> bool
    ensures { result ≡ names_source (map spelled tokens.now) }
{
    match tokens.first() {
        None => true,
        Some(token) => matches!(token.kind, TokenKind::String),
    }
}

/// `.file`: the name of the source, or with a number in front a file of the line table.
#[inline(never)]
#[tactic(auto, unfolding(crate::specs::Placing::place_any_file))]
fn place_any_file(assembler: &mut Assembler, pos: Pos, tokens: &[Token]) -> Result<(), PlaceFault>
    ensures placed { PlacesBy (place_any_file pos (map spelled tokens.now))
        assembler.old assembler.new result }
    ensures kept { assembler.new.notes ≡ assembler.old.notes }
{
    if names_source(tokens) {
        place_file(assembler, tokens)
    } else {
        place_numbered_file(assembler, pos, tokens)
    }
}

/// A directive, by what it is.
#[inline(always)]
#[tactic(auto, unfolding(crate::specs::Placing::place_by))]
fn place_by(
    assembler: &mut Assembler,
    directive: Directive,
    pos: Pos,
    tokens: &[Token],
) -> Result<(), PlaceFault>
    ensures placed { PlacesBy (place_by directive pos (map spelled tokens.now))
        assembler.old assembler.new result }
    ensures kept { KeepsNotes result assembler.old.notes assembler.new.notes }
{
    match directive {
        Directive::Data(size) => assembler.place_data(pos, size, tokens),
        Directive::Strings { ended } => assembler.place_strings(pos, ended, tokens),
        Directive::Leb128 { signed } => place_leb128(assembler, pos, signed, tokens),
        Directive::Zero => assembler.place_zero(pos, tokens),
        Directive::Skip => assembler.place_skip(pos, tokens),
        Directive::Fill => assembler.place_fill(pos, tokens),
        Directive::Align(by) => place_align(assembler, pos, by, tokens),
        Directive::Org => place_org(assembler, pos, tokens),
        Directive::Enter(initial) => place_change(assembler, initial_number(initial), tokens),
        Directive::Section => place_section(assembler, pos, tokens),
        Directive::PushSection => place_pushed(assembler, pos, tokens),
        Directive::PopSection => place_popped(assembler, tokens),
        Directive::Previous => place_change(assembler, assembler.previous, tokens),
        Directive::Say(attribute) => place_said(assembler, pos, attribute, tokens),
        Directive::Type => place_type(assembler, pos, tokens),
        Directive::Size => assembler.place_size(pos, tokens),
        Directive::Assign { once } => assembler.place_set(pos, once, tokens),
        Directive::Comm => place_comm(assembler, pos, tokens),
        Directive::Lcomm => place_lcomm(assembler, pos, tokens),
        Directive::Ident => place_ident(assembler, pos, tokens),
        Directive::File => place_any_file(assembler, pos, tokens),
        Directive::Loc => place_loc(assembler, pos, tokens),
        Directive::Error { said } => place_error(assembler, said, tokens),
        Directive::Warning => place_warning(assembler, pos, tokens),
        Directive::Syntax(syntax) => place_syntax(assembler, syntax, tokens),
        Directive::Code64 => place_bare(assembler, tokens),
        Directive::Frame(directive) => place_frame(assembler, directive, pos, tokens),
    }
}

/// A directive by its name.
#[inline(never)]
#[tactic(auto, unfolding(crate::specs::Placing::place_directive))]
fn place_directive(
    assembler: &mut Assembler,
    pos: Pos,
    name: &[u8],
    tokens: &[Token],
) -> Result<(), PlaceFault>
    ensures placed { PlacesBy (place_directive pos name.now (map spelled tokens.now))
        assembler.old assembler.new result }
    ensures kept { KeepsNotes result assembler.old.notes assembler.new.notes }
{
    match directive_of(name) {
        Some(directive) => place_by(assembler, directive, pos, tokens),
        None => Err(PlaceFault::Fault(PlaceCause::UnknownDirective)),
    }
}

/// What stands behind the labels: an assignment, a directive or an instruction.
#[inline(always)]
#[tactic(auto, unfolding(crate::specs::Placing::place_body))]
fn place_body(
    assembler: &mut Assembler,
    pos: Pos,
    tokens: &[Token],
    first: &Token,
    rest: &[Token],
) -> Result<(), PlaceFault>
    requires { tokens.now ≡ first.now ∷ rest.now }
    ensures placed { PlacesBy (place_body pos (spelled first.now) (map spelled rest.now))
        assembler.old assembler.new result }
    ensures kept { KeepsNotes result assembler.old.notes assembler.new.notes }
{
    // Few statements have an equals sign there, so that it is seen sooner.
    if begins_assignment(rest) && names_symbol(first) {
        assembler.place_assignment(pos, first, &rest[1..])
    } else if !is_name(first) {
        Err(PlaceFault::Fault(PlaceCause::UnknownMnemonic))
    } else if begins_with_dot(first.bytes) {
        place_directive(assembler, pos, first.bytes, rest)
    } else {
        let mut watch = Watch::none();
        place_instruction(assembler, pos, tokens, &mut watch)
    }
}

/// A label, by its token: it stands where what is put next goes.
#[tactic(auto, unfolding(crate::specs::Placing::place_label))]
fn place_label(assembler: &mut Assembler, pos: Pos, token: &Token) -> Result<(), PlaceFault>
    ensures placed { PlacesBy (place_label pos (spelled token.now)) assembler.old assembler.new result }
    ensures kept { assembler.new.notes ≡ assembler.old.notes }
{
    let spot = assembler.here();
    let id = assembler.table.label_symbol(assembler.alloc, pos, token)?;
    assembler.table.define(id, Definition::Label(spot))?;
    assembler.unless_dot(is_dot(token))
}

/// What stands behind the labels, where anything does.
#[inline(always)]
#[tactic(auto, unfolding(crate::specs::Placing::place_unlabelled))]
fn place_unlabelled(assembler: &mut Assembler, pos: Pos, tokens: &[Token]) -> Result<(), PlaceFault>
    ensures placed { PlacesBy (place_unlabelled pos (map spelled tokens.now))
        assembler.old assembler.new result }
    ensures kept { KeepsNotes result assembler.old.notes assembler.new.notes }
{
    match tokens.split_first() {
        None => Ok(()),
        Some((first, rest)) => place_body(assembler, pos, tokens, first, rest),
    }
}

/// The labels one after the other, and what stands behind them.
fn place_labelled(assembler: &mut Assembler, pos: Pos, tokens: &[Token]) -> Result<(), PlaceFault>
    ensures placed { PlacesBy (place_labelled pos (map spelled tokens.now))
        assembler.old assembler.new result }
    ensures kept { KeepsNotes result assembler.old.notes assembler.new.notes }
{
    let mut at = 0;
    'labels: while begins_with_label(&tokens[at..]) {
        place_label(assembler, pos, &tokens[at])?;
        at += 2;
    }
    place_unlabelled(assembler, pos, &tokens[at..])
}

/// A statement with labels: the numbers of all of them are read before one is placed.
#[inline(never)]
#[tactic(auto, unfolding(crate::specs::Placing::place_tokens))]
fn place_with_labels(
    assembler: &mut Assembler,
    pos: Pos,
    tokens: &[Token],
) -> Result<(), PlaceFault>
    ensures placed { PlacesBy (place_tokens pos (map spelled tokens.now))
        assembler.old assembler.new result }
    ensures kept { KeepsNotes result assembler.old.notes assembler.new.notes }
{
    if has_wide_label(tokens) {
        return Err(PlaceFault::Fault(PlaceCause::NumberTooWide));
    }
    place_labelled(assembler, pos, tokens)
}

/// Whether a label stands in front: most statements have no colon where one would.
#[inline(always)]
fn begins_labelled(tokens: &[Token]) -> bool
    ensures { result ≡ begins_with_label (map spelled tokens.now) }
{
    match tokens {
        [_, second, ..] if is_mark(second, b':') => begins_with_label(tokens),
        _ => false,
    }
}

/// A statement. Most have no label.
#[inline(always)]
pub(crate) fn place_tokens(
    assembler: &mut Assembler,
    pos: Pos,
    tokens: &[Token],
) -> Result<(), PlaceFault>
    ensures placed { PlacesBy (place_tokens pos (map spelled tokens.now))
        assembler.old assembler.new result }
    ensures kept { KeepsNotes result assembler.old.notes assembler.new.notes }
{
    if begins_labelled(tokens) {
        return place_with_labels(assembler, pos, tokens);
    }
    place_unlabelled(assembler, pos, tokens)
}
