//! FDEs: frame description entries (DWARF 5, section 6.4.1).

ghost use Rattle.std.specs.Prelude.{◌≡◌, ◌≤◌, ℕ, List, ◌∷◌, OnOk, IfOk, IfErr, IfSome};
ghost use Rattle.asm_base.specs.declared.refusals.Refusal.TheVariants.{NoMemory};
ghost use Rattle.asm_base.specs.declared.places.SectionPlace.{SectionPlace as SectionPlaceValue};
ghost use Rattle.cfi_directives.specs.Meant as meant;
ghost use Rattle.table_pieces.specs.Ends as ends;
ghost use Rattle.table_pieces.specs.Pieces.{Piece, Takes, piece_put, pieces_put, tables_of, padding};
ghost use Rattle.eh_frame.specs.Entries as spec;

use crate::advances::known_advance;
use crate::commons::{behind_pointer_if, put_pointer_if};
use arrayvec::ArrayVec;
use asm_base::{Place, SectionPlace};
use asm_frags::{FragFault, Sections};
use asm_symbols::Symbols;
use cfi_directives::{Frame, PlacedOp};
use cfi_entries::op_bytes;
use cfi_rows::{CfiBytes, CfiOp};
use std::alloc::Global;
use table_pieces::{
    Distance, Mark, SectionEnd, Table, put_advance, put_number, put_padding, put_plain, put_pointer,
};

/// The bytes of an instruction.
fn op_code(op: CfiOp) -> CfiBytes
    ensures { result.items ≡ spec.op_code op }
{
    match op_bytes(op) {
        Some(bytes) => bytes,
        None => ArrayVec::new(),
    }
}

/// A place of the section of this number.
fn place_in(section: u32, place: Place) -> SectionPlace
    ensures { result ≡ meant.place_in section place }
{
    SectionPlace { section, place }
}

/// Where a frame ends.
fn stop_of(frame: &Frame) -> Place
    ensures { result ≡ meant.stop_of frame.now }
{
    match frame.stop {
        Some(stop) => stop,
        None => frame.start,
    }
}

/// The end behind an instruction, where its numbers fit in 64 bits.
fn behind_op(end: SectionEnd, last: Place, placed: PlacedOp) -> Option<SectionEnd>
    ensures { (section : ℕ) (pieces : List Piece) → IfSome result (λ behind.
        ends.behind_pieces pieces behind
        ≡ ends.behind_pieces (spec.with_op section last placed pieces) end) }
{
    let advanced = if last.item == placed.place.item {
        let known = known_advance(placed.place.offset.saturating_sub(last.offset));
        end.behind_plain(known.len() as u64)?
    } else {
        end.behind_item()?
    };
    advanced.behind_plain(op_code(placed.op).len() as u64)
}

/// The end behind the instructions from a place on, and the padding, where its numbers fit in 64 bits.
fn behind_ops(end: SectionEnd, start: Place, ops: &[PlacedOp]) -> Option<SectionEnd>
    ensures { (section log : ℕ) → IfSome result (λ behind.
        behind ≡ ends.behind_pieces (spec.op_pieces section log start ops.now) end) }
{
    let mut behind = end;
    let mut last = start;
    for placed in ops {
        behind = behind_op(behind, last, *placed)?;
        last = placed.place;
    }
    behind.behind_item()
}

/// The end behind an entry, where its numbers fit in 64 bits.
fn behind_entry(end: SectionEnd, frame: &Frame) -> Option<SectionEnd>
    ensures { (common : SectionPlaceValue) (log : ℕ) → IfSome result (λ behind. behind
        ≡ ends.behind_pieces (spec.counted_pieces common log frame.now) (ends.behind_plain 4 end)) }
{
    let counted = end.behind_plain(4)?;
    let code = counted
        .behind_plain(4)?
        .behind_plain(4)?
        .behind_plain(4)?
        .behind_plain(1)?;
    let code = behind_pointer_if(code, &frame.lsda)?;
    behind_ops(code, frame.start, frame.ops.as_slice())
}

/// Puts an instruction, behind the advance from the last place.
fn put_op(
    alloc: Global,
    symbols: &mut Symbols,
    sections: &mut Sections,
    table: Table,
    section: u32,
    last: Place,
    placed: PlacedOp,
) -> Result<(), FragFault>
    requires { Takes table.section sections.old }
    ensures ok { (pieces : List Piece) → OnOk result (
        pieces_put table.section table.pos pieces (tables_of symbols.new sections.new)
        ≡ pieces_put table.section table.pos (spec.with_op section last placed pieces)
        (tables_of symbols.old sections.old)) }
    ensures takes { OnOk result (Takes table.section sections.new) }
    ensures memory { IfErr result (λ fault. fault ≡ NoMemory) }
{
    if last.item == placed.place.item {
        let known = known_advance(placed.place.offset.saturating_sub(last.offset));
        put_plain(symbols, sections, table, known.as_slice())?;
    } else {
        let distance = Distance::new(
            Mark::At(place_in(section, placed.place)),
            Mark::At(place_in(section, last)),
            0,
        );
        put_advance(alloc, symbols, sections, table, distance)?;
    }
    let code = op_code(placed.op);
    put_plain(symbols, sections, table, code.as_slice())
}

/// Puts the instructions from a place on.
fn put_ops(
    alloc: Global,
    symbols: &mut Symbols,
    sections: &mut Sections,
    table: Table,
    section: u32,
    start: Place,
    ops: &[PlacedOp],
) -> Result<(), FragFault>
    requires { Takes table.section sections.old }
    ensures ok { (log : ℕ) → OnOk result (
        piece_put table.section table.pos (padding log) (tables_of symbols.new sections.new)
        ≡ pieces_put table.section table.pos (spec.op_pieces section log start ops.now)
        (tables_of symbols.old sections.old)) }
    ensures takes { OnOk result (Takes table.section sections.new) }
    ensures memory { IfErr result (λ fault. fault ≡ NoMemory) }
{
    let mut last = start;
    for placed in ops {
        put_op(alloc, symbols, sections, table, section, last, *placed)?;
        last = placed.place;
    }
    Ok(())
}

/// Puts what stands before the instructions of an entry that ends at this place.
fn put_head(
    alloc: Global,
    symbols: &mut Symbols,
    sections: &mut Sections,
    table: Table,
    common: SectionPlace,
    stop: SectionPlace,
    frame: &Frame,
) -> Result<(), FragFault>
    requires { Takes table.section sections.old }
    ensures ok { (log : ℕ) → OnOk result (
        pieces_put table.section table.pos
        (spec.op_pieces frame.now.section log frame.now.start frame.now.ops)
        (tables_of symbols.new sections.new)
        ≡ pieces_put table.section table.pos
        (spec.length_piece stop ∷ spec.counted_pieces common log frame.now)
        (tables_of symbols.old sections.old)) }
    ensures takes { OnOk result (Takes table.section sections.new) }
    ensures memory { IfErr result (λ fault. fault ≡ NoMemory) }
{
    let length = Distance::new(Mark::At(stop), Mark::Here, u64::MAX - 3);
    put_number(alloc, symbols, sections, table, length)?;
    let back = Distance::new(Mark::Here, Mark::At(common), 0);
    put_number(alloc, symbols, sections, table, back)?;
    let start = place_in(frame.section, frame.start);
    put_pointer(alloc, symbols, sections, table, start)?;
    let range = Distance::new(
        Mark::At(place_in(frame.section, stop_of(frame))),
        Mark::At(start),
        0,
    );
    put_number(alloc, symbols, sections, table, range)?;
    let size = match &frame.lsda {
        Some(pointer) => pointer.encoding.size(),
        None => 0,
    };
    put_plain(symbols, sections, table, &[size])?;
    put_pointer_if(alloc, symbols, sections, table, &frame.lsda)
}

/// Puts the FDE of a procedure behind this end of the section, padded to a multiple of 2^log, and answers the end behind
/// it. An end past 2^64 is refused as want of memory.
pub(crate) fn put_entry(
    alloc: Global,
    symbols: &mut Symbols,
    sections: &mut Sections,
    section: u32,
    end: SectionEnd,
    common: SectionPlace,
    log: u8,
    frame: &Frame,
) -> Result<SectionEnd, FragFault>
    requires takes { Takes section sections.old }
    requires small { log ≤ 30 }
    ensures ok { OnOk result (tables_of symbols.new sections.new
        ≡ pieces_put section frame.now.pos (spec.entry_pieces section end common log frame.now)
        (tables_of symbols.old sections.old)) }
    ensures end { IfOk result (λ behind. behind
        ≡ ends.behind_pieces (spec.entry_pieces section end common log frame.now) end) }
    ensures takes { OnOk result (Takes section sections.new) }
    ensures memory { IfErr result (λ fault. fault ≡ NoMemory) }
{
    let Some(behind) = behind_entry(end, frame) else {
        return Err(FragFault::NoMemory);
    };
    let pos = frame.pos;
    let table = Table { section, pos };
    let stop = behind.place(section);
    put_head(alloc, symbols, sections, table, common, stop, frame)?;
    let ops = frame.ops.as_slice();
    put_ops(
        alloc,
        symbols,
        sections,
        table,
        frame.section,
        frame.start,
        ops,
    )?;
    put_padding(symbols, sections, table, log)?;
    Ok(behind)
}
