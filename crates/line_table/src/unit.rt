//! The unit of a line table (DWARF 5, section 6.2.4).

ghost use Rattle.std.specs.Prelude.{◌≡◌, ◌+◌, ◌∷◌, List, Option, IfSome, OnOk, IfErr};
ghost use Rattle.asm_base.specs.declared.refusals.Refusal.TheVariants.{NoMemory};
ghost use Rattle.asm_frags.specs.Writing.{LooseSection};
ghost use Rattle.line_directives.specs.declared.sequences.Sequence.{Sequence as SequenceValue};
ghost use Rattle.table_pieces.specs.Pieces.{Takes, pieces_put, tables_of};
ghost use Rattle.table_pieces.specs.Standing.{OneExtends};
ghost use Rattle.line_table.specs.Header.{header_bytes};
ghost use Rattle.line_table.specs.Sequences as parts;
ghost use Rattle.line_table.specs.Placing as spec;

use crate::header::header;
use crate::sequences::{behind_sequences, end_in, put_sequence};
use asm_base::{Place, SectionPlace};
use asm_frags::{FragFault, Sections};
use asm_symbols::Symbols;
use line_directives::{Lines, Sequence};
use std::alloc::Global;
use table_pieces::{Distance, Mark, SectionEnd, Table, pieces_stand_behind, put_number, put_plain};

/// Where the unit ends that has this header, where the numbers of its end fit in 64 bits.
fn unit_end(section: u32, header: &[u8], lines: &Lines) -> Option<SectionPlace>
    requires { header.now ≡ header_bytes lines.now.files }
    ensures { (sections : List LooseSection) → IfSome result (λ place. place
        ≡ spec.unit_end section sections lines.now) }
{
    let nothing = SectionEnd {
        items: 0,
        bytes: 0,
        in_run: false,
    };
    let program = nothing.behind_plain(4)?.behind_plain(header.len() as u64)?;
    let end = behind_sequences(program, lines.sequences())?;
    Some(end.place(section))
}

/// Where the section of this number ended before the table was put into its own, which ended at this place.
fn end_before(sections: &Sections, table: u32, own: Place, section: u32) -> Place
    ensures { (first : List LooseSection) → OneExtends table first sections.now
        → own ≡ parts.end_in table first → result ≡ parts.end_in section first }
{
    if section == table {
        own
    } else {
        end_in(sections, section)
    }
}

/// Puts the sequence of a section, if it has one.
fn put_section(
    alloc: Global,
    symbols: &mut Symbols,
    sections: &mut Sections,
    table: Table,
    own: Place,
    section: u32,
    found: &Option<Sequence>,
) -> Result<(), FragFault>
    requires { Takes table.section sections.old }
    ensures ok { (first : List LooseSection) (others : List (Option SequenceValue))
        → OneExtends table.section first sections.old
        → own ≡ parts.end_in table.section first → OnOk result (
        pieces_put table.section table.pos (parts.sequences_from first (section + 1) others)
        (tables_of symbols.new sections.new)
        ≡ pieces_put table.section table.pos
        (parts.sequences_from first section (found.now ∷ others))
        (tables_of symbols.old sections.old)) }
    ensures grown { (first : List LooseSection) → OneExtends table.section first sections.old
        → OnOk result (OneExtends table.section first sections.new) }
    ensures takes { OnOk result (Takes table.section sections.new) }
    ensures memory { IfErr result (λ fault. fault ≡ NoMemory) }
{
    pieces_stand_behind();
    match found {
        Some(sequence) => {
            let end = end_before(sections, table.section, own, section);
            put_sequence(alloc, symbols, sections, table, section, end, sequence)
        }
        None => Ok(()),
    }
}

/// Puts the sequences of all sections. A section number of 2^32 or more is refused as want of memory.
fn put_sequences(
    alloc: Global,
    symbols: &mut Symbols,
    sections: &mut Sections,
    table: Table,
    own: Place,
    sequences: &[Option<Sequence>],
) -> Result<(), FragFault>
    requires { Takes table.section sections.old }
    ensures ok { (first : List LooseSection) → OneExtends table.section first sections.old
        → own ≡ parts.end_in table.section first → OnOk result (tables_of symbols.new sections.new
        ≡ pieces_put table.section table.pos (parts.sequences_from first 0 sequences.now)
        (tables_of symbols.old sections.old)) }
    ensures memory { IfErr result (λ fault. fault ≡ NoMemory) }
{
    for i in 0..sequences.len() {
        let Ok(section) = u32::try_from(i) else {
            return Err(FragFault::NoMemory);
        };
        put_section(alloc, symbols, sections, table, own, section, &sequences[i])?;
    }
    Ok(())
}

/// Puts the length of the unit and its header. An end past 2^64 is refused as want of memory.
fn put_header(
    alloc: Global,
    symbols: &mut Symbols,
    sections: &mut Sections,
    table: Table,
    lines: &Lines,
) -> Result<(), FragFault>
    requires { Takes table.section sections.old }
    ensures ok { (first : List LooseSection) → OnOk result (
        pieces_put table.section table.pos (parts.sequences_from first 0 lines.now.sequences)
        (tables_of symbols.new sections.new)
        ≡ pieces_put table.section table.pos (spec.unit_pieces table.section first lines.now)
        (tables_of symbols.old sections.old)) }
    ensures grown { OnOk result (OneExtends table.section sections.old sections.new) }
    ensures takes { OnOk result (Takes table.section sections.new) }
    ensures memory { IfErr result (λ fault. fault ≡ NoMemory) }
{
    pieces_stand_behind();
    let header = header(alloc, lines.files())?;
    let Some(end) = unit_end(table.section, header.as_slice(), lines) else {
        return Err(FragFault::NoMemory);
    };
    let length = Distance::new(Mark::At(end), Mark::Here, u64::MAX - 3);
    put_number(alloc, symbols, sections, table, length)?;
    put_plain(symbols, sections, table, header.as_slice())
}

/// Puts the unit.
pub(crate) fn put_unit(
    alloc: Global,
    symbols: &mut Symbols,
    sections: &mut Sections,
    table: Table,
    lines: &Lines,
) -> Result<(), FragFault>
    requires { Takes table.section sections.old }
    ensures ok { OnOk result (tables_of symbols.new sections.new
        ≡ spec.table_put table.section table.pos lines.now (tables_of symbols.old sections.old)) }
    ensures memory { IfErr result (λ fault. fault ≡ NoMemory) }
{
    let own = end_in(sections, table.section);
    put_header(alloc, symbols, sections, table, lines)?;
    put_sequences(alloc, symbols, sections, table, own, lines.sequences())
}
