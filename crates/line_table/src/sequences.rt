//! The sequences of a line table (DWARF 5, sections 6.2.5.2 and 6.2.5.3).

ghost use Rattle.std.specs.Prelude.{◌≡◌, ◌+◌, ◌-◌, ◌∷◌, ℕ, List, Option, true, take, drop, IfSome, OnOk, IfErr};
ghost use Rattle.asm_base.specs.declared.refusals.Refusal.TheVariants.{NoMemory};
ghost use Rattle.asm_frags.specs.Writing.{LooseSection};
ghost use Rattle.line_directives.specs.declared.sequences.Sequence.{Sequence as SequenceValue};
ghost use Rattle.line_rows.specs.declared.sections.Gap.{Gap as GapValue};
ghost use Rattle.table_pieces.specs.Ends as ends;
ghost use Rattle.table_pieces.specs.Pieces.{Piece, Takes, pieces_put, tables_of};
ghost use Rattle.line_table.specs.Sequences as spec;

use asm_base::{Place, SectionPlace};
use asm_frags::{FragFault, Sections};
use asm_symbols::Symbols;
use line_directives::Sequence;
use line_rows::{Gap, SectionRows};
use std::alloc::Global;
use table_pieces::{Distance, Mark, SectionEnd, Table, put_address, put_leb128, put_plain};

/// A place of the section of this number.
fn place_in(section: u32, place: Place) -> SectionPlace
    ensures { result ≡ spec.place_in section place }
{
    SectionPlace { section, place }
}

/// How far it is from one place of a section to another.
fn distance_in(section: u32, from: Place, to: Place) -> Distance
    ensures { result ≡ spec.distance_in section from to }
{
    Distance::new(
        Mark::At(place_in(section, to)),
        Mark::At(place_in(section, from)),
        0,
    )
}

/// The end of the section of this number: behind its items and plain bytes.
#[tactic(auto, unfolding(table_pieces::specs::Ends::end_of))]
pub(crate) fn end_in(sections: &Sections, section: u32) -> Place
    ensures { result ≡ spec.end_in section sections.now }
{
    if (section as usize) < sections.len() {
        SectionEnd::of(sections, section).place(section).place
    } else {
        Place { item: 0, offset: 0 }
    }
}

/// The first of bytes, up to so many.
fn front(bytes: &[u8], count: usize) -> &[u8]
    ensures { result.now ≡ take count bytes.now }
{
    if count < bytes.len() {
        &bytes[..count]
    } else {
        bytes
    }
}

/// What stands behind so many bytes.
fn behind(bytes: &[u8], count: usize) -> &[u8]
    ensures { result.now ≡ drop count bytes.now }
{
    if count < bytes.len() {
        &bytes[count..]
    } else {
        &[]
    }
}

/// The end behind a sequence, where its numbers fit in 64 bits: each gap and the end of the sequence are an item and a run
/// behind it.
#[tactic(auto, using(crate::proofs::EndLemmas::sequence_ends))]
fn behind_sequence(end: SectionEnd, sequence: &Sequence) -> Option<SectionEnd>
    requires { end.in_run ≡ true }
    ensures counted { (section : ℕ) (stop : Place) (pieces : List Piece) → IfSome result (λ behind.
        ends.behind_pieces pieces behind
        ≡ ends.behind_pieces (spec.sequence_pieces section stop sequence.now pieces) end) }
    ensures run { IfSome result (λ behind. behind.in_run ≡ true) }
{
    let gaps = sequence.rows.gaps().len() as u64;
    let bytes = sequence.rows.as_bytes().len() as u64;
    Some(SectionEnd {
        items: end
            .items
            .checked_add(gaps)?
            .checked_add(gaps)?
            .checked_add(2)?,
        bytes: end.bytes.checked_add(bytes)?.checked_add(15)?,
        in_run: true,
    })
}

/// The end behind the sequence of a section, if it has one, where its numbers fit in 64 bits.
fn behind_section(end: SectionEnd, found: &Option<Sequence>) -> Option<SectionEnd>
    requires { end.in_run ≡ true }
    ensures counted { (sections : List LooseSection) (section : ℕ)
        → (others : List (Option SequenceValue)) → IfSome result (λ behind.
        ends.behind_pieces (spec.sequences_from sections (section + 1) others) behind
        ≡ ends.behind_pieces (spec.sequences_from sections section (found.now ∷ others)) end) }
    ensures run { IfSome result (λ behind. behind.in_run ≡ true) }
{
    match found {
        Some(sequence) => behind_sequence(end, sequence),
        None => Some(end),
    }
}

/// The end behind the sequences of all sections, where its numbers fit in 64 bits.
pub(crate) fn behind_sequences(
    end: SectionEnd,
    sequences: &[Option<Sequence>],
) -> Option<SectionEnd>
    requires { end.in_run ≡ true }
    ensures { (sections : List LooseSection) → IfSome result (λ behind.
        behind ≡ ends.behind_pieces (spec.sequences_from sections 0 sequences.now) end) }
{
    let mut behind = end;
    for found in sequences {
        behind = behind_section(behind, found)?;
    }
    Some(behind)
}

/// Puts the bytes of rows up to a gap, and its distance.
fn put_gap(
    alloc: Global,
    symbols: &mut Symbols,
    sections: &mut Sections,
    table: Table,
    section: u32,
    from: usize,
    gap: Gap,
    bytes: &[u8],
) -> Result<(), FragFault>
    requires { Takes table.section sections.old }
    ensures ok { (gaps : List GapValue) (pieces : List Piece) → OnOk result (
        pieces_put table.section table.pos
        (spec.gap_pieces section gap.at gaps (drop (gap.at - from) bytes.now) pieces)
        (tables_of symbols.new sections.new)
        ≡ pieces_put table.section table.pos
        (spec.gap_pieces section from (gap ∷ gaps) bytes.now pieces)
        (tables_of symbols.old sections.old)) }
    ensures takes { OnOk result (Takes table.section sections.new) }
    ensures memory { IfErr result (λ fault. fault ≡ NoMemory) }
{
    put_plain(
        symbols,
        sections,
        table,
        front(bytes, gap.at.saturating_sub(from)),
    )?;
    let distance = distance_in(section, gap.from, gap.to);
    put_leb128(alloc, symbols, sections, table, distance)
}

/// Puts the rows of a section: their bytes, and the distances between them.
fn put_rows(
    alloc: Global,
    symbols: &mut Symbols,
    sections: &mut Sections,
    table: Table,
    section: u32,
    rows: &SectionRows,
) -> Result<(), FragFault>
    requires { Takes table.section sections.old }
    ensures ok { (pieces : List Piece) → OnOk result (
        pieces_put table.section table.pos pieces (tables_of symbols.new sections.new)
        ≡ pieces_put table.section table.pos
        (spec.gap_pieces section 0 rows.now.gaps rows.now.bytes pieces)
        (tables_of symbols.old sections.old)) }
    ensures takes { OnOk result (Takes table.section sections.new) }
    ensures memory { IfErr result (λ fault. fault ≡ NoMemory) }
{
    let mut from = 0;
    let mut rest = rows.as_bytes();
    for gap in rows.gaps() {
        put_gap(alloc, symbols, sections, table, section, from, *gap, rest)?;
        rest = behind(rest, gap.at.saturating_sub(from));
        from = gap.at;
    }
    put_plain(symbols, sections, table, rest)
}

/// Puts what begins a sequence: its address, which is that of the first row.
fn put_start(
    alloc: Global,
    symbols: &mut Symbols,
    sections: &mut Sections,
    table: Table,
    start: SectionPlace,
) -> Result<(), FragFault>
    requires { Takes table.section sections.old }
    ensures ok { (pieces : List Piece) → OnOk result (
        pieces_put table.section table.pos pieces (tables_of symbols.new sections.new)
        ≡ pieces_put table.section table.pos (spec.start_pieces start pieces)
        (tables_of symbols.old sections.old)) }
    ensures takes { OnOk result (Takes table.section sections.new) }
    ensures memory { IfErr result (λ fault. fault ≡ NoMemory) }
{
    put_plain(symbols, sections, table, &[0x00, 0x09, 0x02])?;
    put_address(alloc, symbols, sections, table, start)
}

/// Puts what ends a sequence, so far behind the last row.
fn put_stop(
    alloc: Global,
    symbols: &mut Symbols,
    sections: &mut Sections,
    table: Table,
    distance: Distance,
) -> Result<(), FragFault>
    requires { Takes table.section sections.old }
    ensures ok { (pieces : List Piece) → OnOk result (
        pieces_put table.section table.pos pieces (tables_of symbols.new sections.new)
        ≡ pieces_put table.section table.pos (spec.stop_pieces distance pieces)
        (tables_of symbols.old sections.old)) }
    ensures takes { OnOk result (Takes table.section sections.new) }
    ensures memory { IfErr result (λ fault. fault ≡ NoMemory) }
{
    put_plain(symbols, sections, table, &[0x02])?;
    put_leb128(alloc, symbols, sections, table, distance)?;
    put_plain(symbols, sections, table, &[0x00, 0x01, 0x01])
}

/// Puts the sequence of a section's rows up to this end of the section.
pub(crate) fn put_sequence(
    alloc: Global,
    symbols: &mut Symbols,
    sections: &mut Sections,
    table: Table,
    section: u32,
    end: Place,
    sequence: &Sequence,
) -> Result<(), FragFault>
    requires { Takes table.section sections.old }
    ensures ok { (pieces : List Piece) → OnOk result (
        pieces_put table.section table.pos pieces (tables_of symbols.new sections.new)
        ≡ pieces_put table.section table.pos (spec.sequence_pieces section end sequence.now pieces)
        (tables_of symbols.old sections.old)) }
    ensures takes { OnOk result (Takes table.section sections.new) }
    ensures memory { IfErr result (λ fault. fault ≡ NoMemory) }
{
    let start = place_in(section, sequence.start);
    put_start(alloc, symbols, sections, table, start)?;
    put_rows(alloc, symbols, sections, table, section, &sequence.rows)?;
    let distance = distance_in(section, sequence.last, end);
    put_stop(alloc, symbols, sections, table, distance)
}
