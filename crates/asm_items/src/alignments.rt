//! Alignments (GNU as manual, ".p2align", ".align", ".balign").

ghost use Rattle.std.specs.Prelude.{◌≡◌, map};
ghost use Rattle.asm_base.specs.Tokens.{spelled};
ghost use Rattle.asm_items.specs.Alignments as spec;
ghost use Rattle.asm_values.specs.PlacedBy.{PlacesBy};

use asm_base::{Pos, Token};
use asm_frags::{SectionFlags, Sections};
use asm_operands::{Operands, PlaceFault, UpToThree};
use asm_uses::Naming;
use asm_values::{Assembler, constant_operands};
use asm_words::{AlignedBy, align_of};
use bitflags::Flags;

/// Whether the section of this number holds code.
#[tactic(auto, unfolding(crate::specs::Alignments::is_code))]
fn is_code(sections: &Sections, number: u32) -> bool
    ensures { result ≡ spec.is_code sections.now number }
{
    match sections.as_slice().get(number as usize) {
        Some(section) => section.flags().contains(SectionFlags::EXECINSTR),
        None => false,
    }
}

/// Puts the alignment of these values, and then allows or refuses the names of its operands.
#[inline(always)]
pub fn put_align(
    assembler: &mut Assembler,
    pos: Pos,
    by: AlignedBy,
    naming: Naming,
    values: UpToThree<u64>,
) -> Result<(), PlaceFault>
    ensures placed { PlacesBy (spec.put_align pos by naming values) assembler.old assembler.new result }
    ensures kept { assembler.new.notes ≡ assembler.old.notes }
{
    let code = is_code(&assembler.sections, assembler.current);
    let item = align_of(by, code, values)?;
    assembler.push_named(pos, naming, item)
}

/// An alignment of any operands.
#[inline(never)]
#[tactic(auto, unfolding(crate::specs::Alignments::place_align))]
fn place_any(
    assembler: &mut Assembler,
    pos: Pos,
    by: AlignedBy,
    tokens: &[Token],
) -> Result<(), PlaceFault>
    ensures placed { PlacesBy (spec.place_align pos by (map spelled tokens.now))
        assembler.old assembler.new result }
    ensures kept { assembler.new.notes ≡ assembler.old.notes }
{
    let given = assembler.known_operands(pos, 3, &mut Operands::new(tokens))?;
    put_align(assembler, pos, by, given.naming, given.values)
}

/// An alignment: a power of two by its exponent or in bytes, the fill, and the most bytes. Without a
/// fill it is no-operations in code, and zeros elsewhere. Numbers alone need no trees.
#[tactic(auto, unfolding(crate::specs::Alignments::place_align))]
pub fn place_align(
    assembler: &mut Assembler,
    pos: Pos,
    by: AlignedBy,
    tokens: &[Token],
) -> Result<(), PlaceFault>
    ensures placed { PlacesBy (spec.place_align pos by (map spelled tokens.now))
        assembler.old assembler.new result }
    ensures kept { assembler.new.notes ≡ assembler.old.notes }
{
    match constant_operands(3, Operands::new(tokens)) {
        Some(values) => {
            let naming = Naming {
                before: assembler.table.symbols().len(),
                meant: true,
            };
            put_align(assembler, pos, by, naming, values)
        }
        None => place_any(assembler, pos, by, tokens),
    }
}
