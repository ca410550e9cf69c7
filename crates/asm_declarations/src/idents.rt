//! Texts for `.comment`, and names of source files (GNU as manual, ".ident", ".file").

ghost use Rattle.std.specs.Prelude.{◌≡◌, map, OnOk};
ghost use Rattle.asm_base.specs.Tokens.{spelled};
ghost use Rattle.asm_base.specs.Refusals.{GivesBy, Gives};
ghost use Rattle.asm_declarations.specs.Idents as spec;
ghost use Rattle.asm_declarations.specs.Idents.{place_ident, place_file};
ghost use Rattle.asm_values.specs.PlacedBy.{placed_by, PlacesBy};

use crate::section_changes::{Header, enter};
use asm_base::{Pos, Token};
use asm_expr::{Name, Spelling};
use asm_frags::{SHT_PROGBITS, Sections};
use asm_operands::{Operands, PlaceCause, PlaceFault, needed_string, no_more};
use asm_values::Assembler;
use std::alloc::{AllocError, Global};

/// `SHF_MERGE` and `SHF_STRINGS`.
const MERGED_STRINGS: u64 = 0x30;

/// One string.
#[tactic(auto, unfolding(crate::specs::Idents::one_string))]
pub fn one_string(alloc: Global, tokens: &[Token]) -> Result<Vec<u8>, PlaceFault>
    ensures { GivesBy (λ string. string.items) result (spec.one_string (map spelled tokens.now)) }
{
    let mut operands = Operands::new(tokens);
    let string = needed_string(alloc, &mut operands)?;
    no_more(&mut operands, string)
}

/// How many items the section of this number has.
fn items_in(sections: &Sections, number: u32) -> usize
    ensures { result ≡ spec.items_in sections.now number }
{
    if (number as usize) < sections.len() {
        sections.section(number).items().len()
    } else {
        0
    }
}

/// Makes the text and the zero byte behind it; the first one stands behind a zero byte.
fn comment_bytes(out: &mut Vec<u8>, items: usize, text: &[u8]) -> Result<(), AllocError>
    ensures { OnOk result (out.new.items ≡ spec.comment_bytes items text.now) }
{
    out.clear();
    if items == 0 {
        out.push(0)?;
    }
    out.extend_from_slice(text)?;
    out.push(0)?;
    Ok(())
}

/// The name, if a string table can hold it.
fn file_name(name: Vec<u8>) -> Result<Vec<u8>, PlaceFault>
    ensures { GivesBy (λ name. name.items) result (spec.file_name name.items) }
{
    if name.contains(&0) {
        Err(PlaceFault::Fault(PlaceCause::BadOperand))
    } else {
        Ok(name)
    }
}

/// `.ident`: the text goes into `.comment`.
#[tactic(auto, unfolding(crate::specs::Idents::place_ident, crate::specs::SectionChanges::entered_for, crate::specs::SectionChanges::entered_as))]
pub fn place_ident(assembler: &mut Assembler, pos: Pos, tokens: &[Token]) -> Result<(), PlaceFault>
    ensures placed { PlacesBy (place_ident pos (map spelled tokens.now))
        assembler.old assembler.new result }
    ensures kept { assembler.new.notes ≡ assembler.old.notes }
{
    let text = one_string(assembler.alloc, tokens)?;
    let header = Header {
        flags: MERGED_STRINGS,
        kind: SHT_PROGBITS,
        entry_size: 1,
    };
    let name = Vec::from_slice(assembler.alloc, b".comment")?;
    let number = enter(&mut assembler.sections, name, header, None)?;
    let items = items_in(&assembler.sections, number);
    comment_bytes(&mut assembler.scratch, items, &text)?;
    assembler.put_scratch_into(pos, number)
}

/// `.file`: the source file that the linker is told of.
#[tactic(auto, unfolding(crate::specs::Idents::place_file))]
pub fn place_file(assembler: &mut Assembler, tokens: &[Token]) -> Result<(), PlaceFault>
    ensures placed { PlacesBy (place_file (map spelled tokens.now)) assembler.old assembler.new result }
    ensures kept { assembler.new.notes ≡ assembler.old.notes }
{
    let name = file_name(one_string(assembler.alloc, tokens)?)?;
    let spelling = Spelling::new(assembler.alloc, &name)?;
    assembler.table.file(&Name::Plain(spelling))
}
