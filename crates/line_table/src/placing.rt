//! A line table, put into its section.

ghost use Rattle.std.specs.Prelude.{◌≡◌, ◌<◌, true, false, [], ◌∷◌, ◌++◌, None, Ok, Err, codes, length, OnOk, IfOk, IfErr, slice_get};
ghost use Rattle.asm_base.specs.declared.refusals.Refusal.TheVariants.{NoMemory};
ghost use Rattle.asm_base.specs.Refusals.{Gives};
ghost use Rattle.asm_base.specs.declared.positions.Pos.{Pos as PosValue};
ghost use Rattle.asm_base.specs.declared.causes.FragCause.TheVariants.{BadSection};
ghost use Rattle.std.specs.List.{list_any};
ghost use Rattle.asm_frags.specs.SectionOf.{is_section_named, section_number};
ghost use Rattle.line_directives.specs.Taking.{LineTable};
ghost use Rattle.table_pieces.specs.Pieces.{Takes, Tables, tables_of};
ghost use Rattle.line_table.specs.Placing as spec;

use crate::unit::put_unit;
use asm_base::Text;
use asm_frags::{FragCause, FragFault, SHT_NOBITS, SHT_PROGBITS, SectionFlags, Sections};
use asm_symbols::Symbols;
use bitflags::Flags;
use line_directives::Lines;
use std::alloc::Global;
use table_pieces::Table;

/// The name of the section of line tables (DWARF 5, appendix B).
const NAME: &[u8] = b".debug_line";

/// A new section for the table, which is the last. There is room for it after the statements of a source.
#[tactic(auto, using(crate::proofs::NewTable::table_added, crate::proofs::NewTable::table_number, crate::proofs::NewTable::table_takes))]
fn new_table(alloc: Global, sections: &mut Sections) -> Result<u32, FragFault>
    requires { list_any (is_section_named (codes ".debug_line")) sections.old ≡ false }
    ensures ok { OnOk result (sections.new ≡ sections.old ++ spec.new_table ∷ []) }
    ensures number { IfOk result (λ number. number ≡ length sections.old) }
    ensures takes { IfOk result (λ number. Takes number sections.new) }
    ensures memory { IfErr result (λ fault. fault ≡ NoMemory) }
{
    let name = Text::new(Vec::from_slice(alloc, NAME)?);
    match sections.add_table(name, SectionFlags::empty(), SHT_PROGBITS, 0) {
        Ok(number) => Ok(number),
        Err(_) => Err(FragFault::NoMemory),
    }
}

/// Whether a table may be put into the section of this number: nothing was put there, and it takes more than zeros.
fn is_free(sections: &Sections, section: u32) -> bool
    requires { section < length sections.now }
    ensures refused { result ≡ false → (pos : PosValue) (lines : LineTable) (tables : Tables)
        → spec.placed_there section (slice_get sections.now section) pos lines tables
        ≡ Err BadSection }
    ensures takes { result ≡ true → Takes section sections.now }
    ensures due { result ≡ true → (pos : PosValue) (lines : LineTable) (tables : Tables)
        → spec.placed_there section (slice_get sections.now section) pos lines tables
        ≡ Ok (spec.table_put section pos lines tables) }
{
    let section = sections.section(section);
    section.kind() != SHT_NOBITS && section.items().len() == 0 && section.bytes().len() == 0
}

/// Puts the line table of a source into `.debug_line`, which is made if it is not there: the files, and the rows of each
/// section up to its end (DWARF 5, section 6.2). Places that distances lead from and to get labels. Where there is no
/// `.file` with a number, nothing is put and nothing made. `BadSection` comes exactly where there is one and something was
/// put into the section, or it has the type `SHT_NOBITS`; it is told at the first such `.file`. A symbol more than there
/// may be is refused as want of memory.
#[tactic(auto, unfolding(crate::specs::Placing::placed))]
pub fn place(
    alloc: Global,
    lines: &Lines,
    symbols: &mut Symbols,
    sections: &mut Sections,
) -> Result<(), FragFault>
    ensures { Gives (tables_of symbols.new sections.new) result
        (spec.placed lines.now (tables_of symbols.old sections.old)) }
{
    let Some(pos) = lines.first() else {
        return Ok(());
    };
    let section = match sections.find(NAME) {
        Some(number) => {
            if !is_free(sections, number) {
                return Err(FragFault::Fault(FragCause::BadSection));
            }
            number
        }
        None => new_table(alloc, sections)?,
    };
    put_unit(alloc, symbols, sections, Table { section, pos }, lines)
}
