//! What statements do to functions: where these begin and end, and which items are theirs.

ghost use Rattle.std.specs.Prelude.{◌≡◌, map, OnOk, IfOk, Some};
ghost use Rattle.asm_base.specs.Tokens.{spelled};
ghost use Rattle.asm_expr.specs.declared.naming.Name.TheVariants.{Plain};
ghost use Rattle.asm_symbols.specs.SymbolMap.{names, index_of};
ghost use Rattle.asm_operands.specs.Operands.{name_of, needed, operands_of};
ghost use Rattle.asm_words.specs.SymbolKinds as kinds;
ghost use Rattle.asm_items.specs.Alignments as alignments;
ghost use Rattle.asm_values.specs.PlacedBy.{placed_by};
ghost use Rattle.code_functions.specs.Recorded.{added};
ghost use Rattle.code_functions.specs.Seen as seen;
ghost use Rattle.insn_effects.specs.Followed.{flow_by};
ghost use Rattle.asm_functions.specs.Following as spec;

use crate::seen_functions::SeenFunctions;
use asm_base::{NoMemory, Place, Pos, Token};
use asm_expr::SymId;
use asm_frags::{SectionFlags, Sections};
use asm_operands::{Operands, PlaceFault, is_number, needed_name, symbol_name};
use asm_symbols::{Kind, Symbols};
use asm_uses::spot_at;
use asm_values::Assembler;
use asm_words::named_kind;
use bitflags::Flags;
use code_functions::{CodeItem, SectionEnds};
use insn_effects::{Effect, Role};
use std::alloc::{AllocError, Global};

/// Where sections end so far.
#[derive(Clone, Copy)]
struct Ends<'a> {
    sections: &'a Sections,
}

impl<'a> SectionEnds for Ends<'a> {
    ghost use Rattle.asm_functions.specs.Following.{end_of};

    ghost ends = { λ inside section. end_of inside.sections.now section };

    fn end_of(&self, section: u32) -> Place {
        end_of(self.sections, section)
    }
}

/// Where the section of this number ends.
pub(crate) fn end_of(sections: &Sections, number: u32) -> Place
    ensures { result ≡ spec.end_of sections.now number }
{
    spot_at(sections, number).place.place
}

/// How many fields it has.
pub(crate) fn field_count(sections: &Sections, number: u32) -> usize
    ensures { result ≡ spec.fields_in sections.now number }
{
    match sections.as_slice().get(number as usize) {
        Some(section) => section.fields().len(),
        None => 0,
    }
}

/// Whether the section of this number holds code.
#[tactic(auto, unfolding(asm_items::specs::Alignments::is_code))]
pub(crate) fn is_code(sections: &Sections, number: u32) -> bool
    ensures { result ≡ alignments.is_code sections.now number }
{
    match sections.as_slice().get(number as usize) {
        Some(section) => section.flags().contains(SectionFlags::EXECINSTR),
        None => false,
    }
}

/// Whether a symbol of this kind was said to be a function.
fn is_function(kind: Option<Kind>) -> bool
    ensures { result ≡ spec.is_function kind }
{
    matches!(kind, Some(Kind::Function))
}

/// The symbol of the name, if it was said to be a function.
fn function_named(symbols: &Symbols, name: &[u8]) -> Option<SymId>
    ensures { result ≡ spec.function_at symbols.now
        (index_of (Plain name.now) (names symbols.now.symbols)) }
{
    let id = symbols.find_text(name)?;
    if is_function(symbols.symbol(id).kind) {
        Some(id)
    } else {
        None
    }
}

/// The symbol of a label, if it was said to be a function.
#[tactic(auto, unfolding(crate::specs::Following::function_label))]
fn function_label(
    alloc: Global,
    symbols: &Symbols,
    token: &Token,
) -> Result<Option<SymId>, NoMemory>
    ensures { IfOk result (λ found.
        found ≡ spec.function_label symbols.now (spelled token.now)) }
{
    if is_number(token) {
        return Ok(None);
    }
    match symbol_name(alloc, token) {
        Ok(name) => Ok(function_named(symbols, name.as_bytes())),
        Err(PlaceFault::Fault(_)) => Ok(None),
        Err(PlaceFault::NoMemory) => Err(AllocError),
    }
}

/// A function begins at this label, if its symbol was said to be one.
fn begin_label(
    assembler: &Assembler,
    functions: &mut SeenFunctions,
    pos: Pos,
    token: &Token,
) -> Result<(), NoMemory>
    ensures { OnOk result (functions.new ≡ spec.begun_by
        (spec.function_label (placed_by assembler.now).table.symbols (spelled token.now))
        pos (placed_by assembler.now) functions.old) }
{
    match function_label(assembler.alloc, assembler.table.symbols(), token)? {
        None => Ok(()),
        Some(id) => {
            let section = assembler.current;
            functions.begin(id, pos, section, end_of(&assembler.sections, section))
        }
    }
}

/// Functions begin at these labels, each a token and its colon.
#[tactic(auto, using(crate::proofs::LabelLemmas::label_begun, crate::proofs::LabelLemmas::labels_end))]
pub(crate) fn begin_functions(
    assembler: &Assembler,
    functions: &mut SeenFunctions,
    pos: Pos,
    tokens: &[Token],
) -> Result<(), NoMemory>
    ensures { OnOk result (functions.new ≡ spec.labels_begun pos (map spelled tokens.now)
        (placed_by assembler.now) functions.old) }
{
    let mut at = 0;
    'labels: while at + 2 <= tokens.len() {
        begin_label(assembler, functions, pos, &tokens[at])?;
        at += 2;
    }
    Ok(())
}

/// All functions that are open end.
fn end_functions(assembler: &Assembler, functions: &mut SeenFunctions)
    ensures { functions.new ≡ spec.ended (placed_by assembler.now) functions.old }
{
    functions.end_all(&Ends {
        sections: &assembler.sections,
    });
}

/// They do where `.type` of these operands says that a symbol is a function.
pub(crate) fn end_by_kind(
    assembler: &Assembler,
    functions: &mut SeenFunctions,
    tokens: &[Token],
) -> Result<(), NoMemory>
    ensures { OnOk result (functions.new ≡ spec.with_kind
        (kinds.named_kind (operands_of (map spelled tokens.now)))
        (placed_by assembler.now) functions.old) }
{
    match named_kind(assembler.alloc, &mut Operands::new(tokens)) {
        Ok(words) => {
            if is_function(Some(words.kind)) {
                end_functions(assembler, functions);
            }
            Ok(())
        }
        Err(PlaceFault::Fault(_)) => Ok(()),
        Err(PlaceFault::NoMemory) => Err(AllocError),
    }
}

/// The function of the symbol of this name ends.
fn end_named(assembler: &Assembler, functions: &mut SeenFunctions, name: &[u8])
    ensures { functions.new ≡ spec.ended_of
        (index_of (Plain name.now) (names (placed_by assembler.now).table.symbols.symbols))
        (placed_by assembler.now) functions.old }
{
    if let Some(id) = assembler.table.symbols().find_text(name) {
        functions.end(
            id,
            &Ends {
                sections: &assembler.sections,
            },
        );
    }
}

/// It does where `.size` of these operands says the size of the symbol.
pub(crate) fn end_by_size(
    assembler: &Assembler,
    functions: &mut SeenFunctions,
    tokens: &[Token],
) -> Result<(), NoMemory>
    ensures { OnOk result (functions.new ≡ spec.with_size
        (needed name_of (operands_of (map spelled tokens.now)))
        (placed_by assembler.now) functions.old) }
{
    match needed_name(assembler.alloc, &mut Operands::new(tokens)) {
        Ok(name) => {
            end_named(assembler, functions, name.as_bytes());
            Ok(())
        }
        Err(PlaceFault::Fault(_)) => Ok(()),
        Err(PlaceFault::NoMemory) => Err(AllocError),
    }
}

/// Data or padding that begins there.
fn plain_item(pos: Pos, place: Place, padding: bool) -> CodeItem
    ensures { seen.seen result ≡ spec.plain_item padding pos place }
{
    let role = if padding { Role::Padding } else { Role::Data };
    CodeItem {
        effect: Effect::plain(role),
        place,
        field: None,
        pos,
    }
}

/// Whether both are one place.
fn same_place(one: Place, other: Place) -> bool
    ensures { result ≡ spec.same_place one other }
{
    one.item == other.item && one.offset == other.offset
}

/// Data that a statement has put into the section of this number, which ended there before it.
pub(crate) fn add_data(
    assembler: &Assembler,
    functions: &mut SeenFunctions,
    pos: Pos,
    number: u32,
    start: Place,
    operands: bool,
) -> Result<(), NoMemory>
    ensures { OnOk result (functions.new ≡ spec.data_since operands pos number start
        (spec.end_of (placed_by assembler.now).sections number) functions.old) }
{
    if operands || !same_place(start, end_of(&assembler.sections, number)) {
        functions.add(number, plain_item(pos, start, false))
    } else {
        Ok(())
    }
}

/// Whether an alignment of this fill pads code with instructions that do nothing.
fn fills_with_code(fill: Option<u64>) -> bool
    ensures { result ≡ spec.fills_with_code fill }
{
    match fill {
        None => true,
        Some(fill) => fill == 0x90,
    }
}

/// An alignment of this fill that was put there.
pub(crate) fn add_alignment(
    functions: &mut SeenFunctions,
    pos: Pos,
    number: u32,
    start: Place,
    code: bool,
    fill: Option<u64>,
) -> Result<(), NoMemory>
    ensures { OnOk result (functions.new ≡ added number
        (spec.align_item code fill pos start) functions.old) }
{
    functions.add(
        number,
        plain_item(pos, start, code && fills_with_code(fill)),
    )
}

/// Whether an instruction of this role is a direct jump or call.
fn has_target(role: Role) -> bool
    ensures { result ≡ seen.has_target (flow_by role) }
{
    matches!(role, Role::Call | Role::Jump | Role::Branch)
}

/// The field with the target of an instruction, where its section had so many fields before and has
/// so many behind it.
fn target_field(role: Role, before: usize, after: usize) -> Result<Option<u32>, NoMemory>
    ensures { IfOk result (λ field. field ≡ seen.target_field (flow_by role) before after) }
{
    if !has_target(role) || before >= after {
        return Ok(None);
    }
    match u32::try_from(before) {
        Ok(number) => Ok(Some(number)),
        Err(_) => Err(AllocError),
    }
}

/// An instruction of this effect that was put there, where its section had so many fields before and
/// has so many behind it.
pub(crate) fn add_insn(
    functions: &mut SeenFunctions,
    pos: Pos,
    number: u32,
    start: Place,
    effect: Effect,
    before: usize,
    after: usize,
) -> Result<(), NoMemory>
    ensures { OnOk result (functions.new ≡ added number
        (spec.effect_item effect pos start before after) functions.old) }
{
    let field = target_field(effect.role, before, after)?;
    functions.add(
        number,
        CodeItem {
            effect,
            place: start,
            field,
            pos,
        },
    )
}
