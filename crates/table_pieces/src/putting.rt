//! How each piece of a table is put last in the section.

ghost use Rattle.std.specs.Prelude.{◌≡◌, ◌≤◌, OnOk, IfErr};
ghost use Rattle.asm_base.specs.declared.refusals.Refusal.TheVariants.{NoMemory};
ghost use Rattle.table_pieces.specs.Pieces as spec;

use crate::marks::{Distance, Mark, address_form, distance_form};
use asm_base::{Pos, SectionPlace};
use asm_expr::Linear;
use asm_frags::{FieldRole, FieldSize, Frag, FragFault, Sections};
use asm_symbols::Symbols;
use item_contents::{Align, Content, Growth};
use std::alloc::Global;

/// Where pieces are put: the number of the section, and the line that they are made for.
#[derive(Clone, Copy)]
pub struct Table {
    pub section: u32,
    pub pos: Pos,
}

/// Puts plain bytes.
#[tactic(auto, using(crate::proofs::PutLemmas::bytes_are_put, crate::proofs::PutLemmas::bytes_are_taken, crate::proofs::PutLemmas::bytes_want))]
pub fn put_plain(
    symbols: &Symbols,
    sections: &mut Sections,
    table: Table,
    bytes: &[u8],
) -> Result<(), FragFault>
    requires { spec.Takes table.section sections.old }
    ensures ok { OnOk result (spec.tables_of symbols.now sections.new
        ≡ spec.piece_put table.section table.pos (spec.plain bytes.now)
        (spec.tables_of symbols.now sections.old)) }
    ensures takes { OnOk result (spec.Takes table.section sections.new) }
    ensures memory { IfErr result (λ fault. fault ≡ NoMemory) }
{
    sections.push_bytes(table.section, table.pos, bytes)
}

/// Puts a distance in four bytes.
#[tactic(auto, using(crate::proofs::PutLemmas::field_is_put, crate::proofs::PutLemmas::field_is_taken, crate::proofs::PutLemmas::field_wants))]
pub fn put_number(
    alloc: Global,
    symbols: &mut Symbols,
    sections: &mut Sections,
    table: Table,
    distance: Distance,
) -> Result<(), FragFault>
    requires { spec.Takes table.section sections.old }
    ensures ok { OnOk result (spec.tables_of symbols.new sections.new
        ≡ spec.number_put table.section table.pos distance
        (spec.tables_of symbols.old sections.old)) }
    ensures takes { OnOk result (spec.Takes table.section sections.new) }
    ensures memory { IfErr result (λ fault. fault ≡ NoMemory) }
{
    let form = distance_form(alloc, symbols, distance)?;
    sections.push_field(
        table.section,
        table.pos,
        FieldSize::Four,
        FieldRole::data(),
        form,
    )
}

/// Puts where a place stands, counted from the four bytes themselves, which the linker fills in.
pub fn put_pointer(
    alloc: Global,
    symbols: &mut Symbols,
    sections: &mut Sections,
    table: Table,
    place: SectionPlace,
) -> Result<(), FragFault>
    requires { spec.Takes table.section sections.old }
    ensures ok { OnOk result (spec.tables_of symbols.new sections.new
        ≡ spec.piece_put table.section table.pos (spec.pointer place)
        (spec.tables_of symbols.old sections.old)) }
    ensures takes { OnOk result (spec.Takes table.section sections.new) }
    ensures memory { IfErr result (λ fault. fault ≡ NoMemory) }
{
    let distance = Distance::new(Mark::At(place), Mark::Here, 0);
    put_number(alloc, symbols, sections, table, distance)
}

/// Puts the address of a place in eight bytes, which the linker fills in.
#[tactic(auto, using(crate::proofs::PutLemmas::field_is_put, crate::proofs::PutLemmas::field_is_taken, crate::proofs::PutLemmas::field_wants))]
pub fn put_address(
    alloc: Global,
    symbols: &mut Symbols,
    sections: &mut Sections,
    table: Table,
    place: SectionPlace,
) -> Result<(), FragFault>
    requires { spec.Takes table.section sections.old }
    ensures ok { OnOk result (spec.tables_of symbols.new sections.new
        ≡ spec.piece_put table.section table.pos (spec.address place)
        (spec.tables_of symbols.old sections.old)) }
    ensures takes { OnOk result (spec.Takes table.section sections.new) }
    ensures memory { IfErr result (λ fault. fault ≡ NoMemory) }
{
    let form = address_form(alloc, symbols, place)?;
    sections.push_field(
        table.section,
        table.pos,
        FieldSize::Eight,
        FieldRole::data(),
        form,
    )
}

/// Puts a form in a field of this size.
#[tactic(auto, using(crate::proofs::PutLemmas::field_is_put, crate::proofs::PutLemmas::field_is_taken, crate::proofs::PutLemmas::field_wants))]
pub fn put_field(
    symbols: &Symbols,
    sections: &mut Sections,
    table: Table,
    size: FieldSize,
    form: Linear,
) -> Result<(), FragFault>
    requires { spec.Takes table.section sections.old }
    ensures ok { OnOk result (spec.tables_of symbols.now sections.new
        ≡ spec.piece_put table.section table.pos (spec.field size form)
        (spec.tables_of symbols.now sections.old)) }
    ensures takes { OnOk result (spec.Takes table.section sections.new) }
    ensures memory { IfErr result (λ fault. fault ≡ NoMemory) }
{
    sections.push_field(table.section, table.pos, size, FieldRole::data(), form)
}

/// Puts the advance of a frame table by a distance, in as few bytes as hold it (DWARF 5, section 6.4.2.1).
#[tactic(auto, using(crate::proofs::PutLemmas::growing_is_put, crate::proofs::PutLemmas::growing_is_taken, crate::proofs::PutLemmas::growing_wants))]
pub fn put_advance(
    alloc: Global,
    symbols: &mut Symbols,
    sections: &mut Sections,
    table: Table,
    distance: Distance,
) -> Result<(), FragFault>
    requires { spec.Takes table.section sections.old }
    ensures ok { OnOk result (spec.tables_of symbols.new sections.new
        ≡ spec.piece_put table.section table.pos (spec.advance distance)
        (spec.tables_of symbols.old sections.old)) }
    ensures takes { OnOk result (spec.Takes table.section sections.new) }
    ensures memory { IfErr result (λ fault. fault ≡ NoMemory) }
{
    let form = distance_form(alloc, symbols, distance)?;
    sections.push_growing(table.section, table.pos, Growth::Advance, None, form)
}

/// Puts a distance as an unsigned number in groups of 7 bits, as few as hold it (DWARF 5, section 7.6).
#[tactic(auto, using(crate::proofs::PutLemmas::growing_is_put, crate::proofs::PutLemmas::growing_is_taken, crate::proofs::PutLemmas::growing_wants))]
pub fn put_leb128(
    alloc: Global,
    symbols: &mut Symbols,
    sections: &mut Sections,
    table: Table,
    distance: Distance,
) -> Result<(), FragFault>
    requires { spec.Takes table.section sections.old }
    ensures ok { OnOk result (spec.tables_of symbols.new sections.new
        ≡ spec.piece_put table.section table.pos (spec.leb128 distance)
        (spec.tables_of symbols.old sections.old)) }
    ensures takes { OnOk result (spec.Takes table.section sections.new) }
    ensures memory { IfErr result (λ fault. fault ≡ NoMemory) }
{
    let form = distance_form(alloc, symbols, distance)?;
    let kind = Growth::Leb128 { signed: false };
    sections.push_growing(table.section, table.pos, kind, None, form)
}

/// Puts zeros up to the next multiple of 2^log.
#[tactic(auto, using(crate::proofs::PutLemmas::item_is_put, crate::proofs::PutLemmas::item_is_taken, crate::proofs::PutLemmas::item_wants))]
pub fn put_padding(
    symbols: &Symbols,
    sections: &mut Sections,
    table: Table,
    log: u8,
) -> Result<(), FragFault>
    requires takes { spec.Takes table.section sections.old }
    requires small { log ≤ 30 }
    ensures ok { OnOk result (spec.tables_of symbols.now sections.new
        ≡ spec.piece_put table.section table.pos (spec.padding log)
        (spec.tables_of symbols.now sections.old)) }
    ensures takes { OnOk result (spec.Takes table.section sections.new) }
    ensures memory { IfErr result (λ fault. fault ≡ NoMemory) }
{
    let item = Frag::new(table.pos, Content::Align(Align::zeros(log)));
    sections.push(table.section, item)
}
