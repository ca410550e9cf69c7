//! What an instruction writes beside flags.

ghost use Rattle.std.specs.Prelude.{◌≡◌, option_map};
ghost use Rattle.std.specs.List.{find};
ghost use Rattle.x86_lookup.specs.Writing.{is_absent, takes_register, takes_memory, is_immediate, is_target, kind_fits, admits, FindsRow, bytes_in_memory, reg_in, first_written, second_written, is_repeat, in_memory, elsewhere, stored, writes_by, no_writes, has_general, has_vector, part_is, writes_general, writes_vector, is_xmm_of, xmm_is, IsWritten};

use crate::ranges::{rows, rows_of_size};
use x86_insn::{Class, Insn, Prefix, Reg, Slot};
use x86_table::{Destinations, Implied, Pattern, Row, StoreKind};

/// What an instruction stores.
#[derive(Clone, Copy)]
pub enum Store {
    Absent,
    /// So many bytes of its operand in memory.
    Operand(u8),
    /// So many bytes below the top of the stack.
    Stack(u8),
    /// Bytes at an address that no operand shows.
    Unfixed,
}

/// What an instruction writes beside flags: two operands, registers that no operand names, rcx where
/// it repeats, and memory.
#[derive(Clone, Copy)]
pub struct Writes {
    pub first: Option<Reg>,
    pub second: Option<Reg>,
    pub implied: Implied,
    pub repeats: bool,
    pub store: Store,
}

/// Whether the pattern shows registers.
fn takes_register(pattern: Pattern) -> bool
    ensures { result ≡ takes_register pattern }
{
    match pattern {
        Pattern::RegMem(_, _) => true,
        Pattern::Reg(_) => true,
        Pattern::Low(_) => true,
        Pattern::Accumulator(_) => true,
        Pattern::Cl => true,
        _ => false,
    }
}

/// Whether the pattern shows operands of this kind.
fn kind_fits(pattern: Pattern, slot: Slot) -> bool
    ensures { result ≡ kind_fits pattern slot }
{
    match slot {
        Slot::Absent => matches!(pattern, Pattern::Absent),
        Slot::Register(_) => takes_register(pattern),
        Slot::Immediate => matches!(pattern, Pattern::One | Pattern::Immediate),
        Slot::Memory => matches!(pattern, Pattern::RegMem(_, _)),
        Slot::Target => matches!(pattern, Pattern::Target),
    }
}

/// Whether the row has the name, the size and the kinds of operands of the instruction.
#[tactic(auto, unfolding(crate::specs::Writing::admits))]
fn admits(row: &Row, insn: &Insn) -> bool
    ensures { result ≡ admits row.now insn.now }
{
    row.name.0 == insn.name.0
        && (row.size == insn.size
            && (kind_fits(row.first, insn.first)
                && (kind_fits(row.second, insn.second) && kind_fits(row.third, insn.third))))
}

/// The first of the rows that admits the instruction, if there is one.
fn first_admitted(rows: &'static [Row], insn: &Insn) -> Option<&'static Row>
    ensures { option_map (λ row. row.now) result ≡ find (λ row. admits row insn.now) rows.now }
{
    rows.iter().find(|row| admits(row, insn))
}

/// A row of the name, the size and the kinds of operands of the instruction, if there is one.
#[tactic(auto, using(crate::proofs::RowLookups::finds))]
fn row_of(insn: &Insn) -> Option<&'static Row>
    ensures { FindsRow insn.now (option_map (λ row. row.now) result) }
{
    let range = rows_of_size(&insn.name, insn.size);
    let rows = &rows()[usize::from(range.start)..usize::from(range.stop)];
    first_admitted(rows, insn)
}

/// The register of an operand, if it is one.
fn reg_in(slot: Slot) -> Option<Reg>
    ensures { result ≡ reg_in slot }
{
    match slot {
        Slot::Register(reg) => Some(reg),
        _ => None,
    }
}

/// The register that is written as the first operand.
fn first_written(destinations: Destinations, slot: Slot) -> Option<Reg>
    ensures { result ≡ first_written destinations slot }
{
    match destinations {
        Destinations::Nothing => None,
        Destinations::First => reg_in(slot),
        Destinations::FirstAndSecond => reg_in(slot),
    }
}

/// The register that is written as the second operand.
fn second_written(destinations: Destinations, slot: Slot) -> Option<Reg>
    ensures { result ≡ second_written destinations slot }
{
    match destinations {
        Destinations::Nothing => None,
        Destinations::First => None,
        Destinations::FirstAndSecond => reg_in(slot),
    }
}

/// Whether the prefix word repeats the instruction.
fn is_repeat(prefix: Prefix) -> bool
    ensures { result ≡ is_repeat prefix }
{
    match prefix {
        Prefix::Rep => true,
        Prefix::Repe => true,
        Prefix::Repne => true,
        _ => false,
    }
}

/// How many bytes the pattern shows in memory.
fn bytes_in_memory(pattern: Pattern) -> u8
    ensures { result ≡ bytes_in_memory pattern }
{
    match pattern {
        Pattern::RegMem(_, bytes) => bytes,
        _ => 0,
    }
}

/// What is stored where the first operand is in memory, with so many bytes.
fn in_memory(kind: StoreKind, bytes: u8) -> Store
    ensures { result ≡ in_memory kind bytes }
{
    match kind {
        StoreKind::Absent => Store::Absent,
        StoreKind::Operand => Store::Operand(bytes),
        StoreKind::BitString => Store::Unfixed,
        StoreKind::PushQuad => Store::Stack(8),
        StoreKind::PushWord => Store::Stack(2),
        StoreKind::Unfixed => Store::Unfixed,
    }
}

/// What is stored where the first operand is elsewhere.
fn elsewhere(kind: StoreKind) -> Store
    ensures { result ≡ elsewhere kind }
{
    match kind {
        StoreKind::Absent => Store::Absent,
        StoreKind::Operand => Store::Absent,
        StoreKind::BitString => Store::Absent,
        StoreKind::PushQuad => Store::Stack(8),
        StoreKind::PushWord => Store::Stack(2),
        StoreKind::Unfixed => Store::Unfixed,
    }
}

/// What is stored, by the first operand.
fn stored(slot: Slot, kind: StoreKind, bytes: u8) -> Store
    ensures { result ≡ stored slot kind bytes }
{
    match slot {
        Slot::Memory => in_memory(kind, bytes),
        Slot::Absent => elsewhere(kind),
        Slot::Register(_) => elsewhere(kind),
        Slot::Immediate => elsewhere(kind),
        Slot::Target => elsewhere(kind),
    }
}

/// What the row says that the instruction writes.
#[tactic(auto, unfolding(crate::specs::Writing::writes_by))]
fn writes_by(row: &Row, insn: &Insn) -> Writes
    ensures { result ≡ writes_by row.now insn.now }
{
    Writes {
        first: first_written(row.outputs.destinations, insn.first),
        second: second_written(row.outputs.destinations, insn.second),
        implied: row.outputs.implied,
        repeats: is_repeat(insn.prefix),
        store: stored(insn.first, row.outputs.store, bytes_in_memory(row.first)),
    }
}

/// What the instruction writes beside flags (Intel SDM, volume 2, chapters 3 and 4): what each row of
/// its name, its size and the kinds of its operands says, and nothing where there is none.
#[tactic(auto, using(crate::proofs::RowWrites::by_found, crate::proofs::RowWrites::by_none))]
pub fn written(insn: &Insn) -> Writes
    ensures { IsWritten insn.now result }
{
    match row_of(insn) {
        Some(row) => writes_by(row, insn),
        None => Writes {
            first: None,
            second: None,
            implied: Implied::Absent,
            repeats: false,
            store: Store::Absent,
        },
    }
}

/// Whether the general-purpose register of this number is one of these.
fn has_general(implied: Implied, number: u8) -> bool
    ensures { result ≡ has_general implied number }
{
    match implied {
        Implied::Absent => false,
        Implied::Rax => number == 0,
        Implied::Rcx => number == 1,
        Implied::Rdx => number == 2,
        Implied::Rsp => number == 4,
        Implied::Rdi => number == 7,
        Implied::RaxRdx => number == 0 || number == 2,
        Implied::RaxRsi => number == 0 || number == 6,
        Implied::RsiRdi => number == 6 || number == 7,
        Implied::RspRbp => number == 4 || number == 5,
        Implied::RaxRcxR11 => number == 0 || (number == 1 || number == 11),
        Implied::RaxRbxRcxRdx => number < 4,
        Implied::Xmm0 => false,
    }
}

/// Whether the register xmm of this number is one of these.
fn has_vector(implied: Implied, number: u8) -> bool
    ensures { result ≡ has_vector implied number }
{
    match implied {
        Implied::Xmm0 => number == 0,
        _ => false,
    }
}

/// Whether the register, if there is one, is a part of the general-purpose register.
fn part_is(reg: Option<Reg>, number: u8) -> bool
    ensures { result ≡ part_is reg number }
{
    match reg {
        Some(reg) => reg.is_part_of(number),
        None => false,
    }
}

/// Whether the register is the register xmm of this number.
fn is_xmm_of(reg: Reg, number: u8) -> bool
    ensures { result ≡ is_xmm_of reg number }
{
    match reg.class {
        Class::Xmm => reg.number == number,
        _ => false,
    }
}

/// Whether the register, if there is one, is the register xmm.
fn xmm_is(reg: Option<Reg>, number: u8) -> bool
    ensures { result ≡ xmm_is reg number }
{
    match reg {
        Some(reg) => is_xmm_of(reg, number),
        None => false,
    }
}

impl Writes {
    /// Whether the general-purpose register of this number is written, or a part of it.
    pub fn general(&self, number: u8) -> bool
        ensures { result ≡ writes_general self.now number }
    {
        part_is(self.first, number)
            || (part_is(self.second, number)
                || (has_general(self.implied, number) || (self.repeats && number == 1)))
    }

    /// Whether the register xmm of this number is written.
    pub fn vector(&self, number: u8) -> bool
        ensures { result ≡ writes_vector self.now number }
    {
        xmm_is(self.first, number)
            || (xmm_is(self.second, number) || has_vector(self.implied, number))
    }
}
