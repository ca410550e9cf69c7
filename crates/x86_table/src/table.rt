//! The instruction table (Intel SDM, volume 2): its rows by chapters, in the order that breaks
//! ties.

use crate::chapters::branches::branches;
use crate::chapters::conditions::conditions;
use crate::chapters::moves::moves;
use crate::chapters::one_operand::one_operand;
use crate::chapters::shifts::shifts;
use crate::chapters::sse::sse;
use crate::chapters::three_bytes::three_bytes;
use crate::chapters::two_operands::two_operands;
use crate::forms::{
    Destinations, Immediate, Implied, Lead, Map, Outputs, Pattern, Repeat, Rm, Row, Shape,
    StoreKind, Words,
};
use crate::mnemonics::integers::*;
use crate::mnemonics::vectors::*;
use x86_insn::{Class, Mnemonic};

/// What stands before the opcode: 66, F2, F3, REX.W.
macro_rules! lead {
    (NP) => { Lead { operand_size: false, repeat: Repeat::Absent, wide: false } };
    (P66) => { Lead { operand_size: true, repeat: Repeat::Absent, wide: false } };
    (PF2) => { Lead { operand_size: false, repeat: Repeat::F2, wide: false } };
    (PF3) => { Lead { operand_size: false, repeat: Repeat::F3, wide: false } };
    (W) => { Lead { operand_size: false, repeat: Repeat::Absent, wide: true } };
    (P66W) => { Lead { operand_size: true, repeat: Repeat::Absent, wide: true } };
    (PF2W) => { Lead { operand_size: false, repeat: Repeat::F2, wide: true } };
    (PF3W) => { Lead { operand_size: false, repeat: Repeat::F3, wide: true } };
    (P66F2) => { Lead { operand_size: true, repeat: Repeat::F2, wide: false } };
    (P66F3) => { Lead { operand_size: true, repeat: Repeat::F3, wide: false } };
}

/// O is a register in the opcode (O1: but the accumulator), R is /r, D0 to D7 are /0 to /7 (M: with
/// memory alone, R: with a register alone); the others are whole ModRM bytes.
macro_rules! shape {
    (P) => { Shape::Plain };
    (O) => { Shape::Low };
    (O1) => { Shape::LowNotFirst };
    (R) => { Shape::Slash(Rm::Any) };
    (RM) => { Shape::Slash(Rm::Memory) };
    (RR) => { Shape::Slash(Rm::Register) };
    (D0) => { Shape::Digit(0, Rm::Any) };
    (D0M) => { Shape::Digit(0, Rm::Memory) };
    (D1) => { Shape::Digit(1, Rm::Any) };
    (D1M) => { Shape::Digit(1, Rm::Memory) };
    (D2) => { Shape::Digit(2, Rm::Any) };
    (D2M) => { Shape::Digit(2, Rm::Memory) };
    (D2R) => { Shape::Digit(2, Rm::Register) };
    (D3) => { Shape::Digit(3, Rm::Any) };
    (D3M) => { Shape::Digit(3, Rm::Memory) };
    (D3R) => { Shape::Digit(3, Rm::Register) };
    (D4) => { Shape::Digit(4, Rm::Any) };
    (D4R) => { Shape::Digit(4, Rm::Register) };
    (D5) => { Shape::Digit(5, Rm::Any) };
    (D6) => { Shape::Digit(6, Rm::Any) };
    (D6R) => { Shape::Digit(6, Rm::Register) };
    (D7) => { Shape::Digit(7, Rm::Any) };
    (D7R) => { Shape::Digit(7, Rm::Register) };
    (FA) => { Shape::Fixed(0xFA) };
    (E8) => { Shape::Fixed(0xE8) };
    (F0) => { Shape::Fixed(0xF0) };
    (F8) => { Shape::Fixed(0xF8) };
}

/// The letters of the Intel manual (volume 2, appendix A.2.1): E is a register or memory by ModRM.rm, G
/// a register by ModRM.reg, M memory, Z a register in the opcode, A the accumulator; then the size of
/// the register, and that of memory in bytes where it is another.
macro_rules! operand {
    (AB) => { Pattern::Accumulator(Class::Byte) };
    (AL) => { Pattern::Accumulator(Class::Long) };
    (AQ) => { Pattern::Accumulator(Class::Quad) };
    (AW) => { Pattern::Accumulator(Class::Word) };
    (CL) => { Pattern::Cl };
    (EB) => { Pattern::RegMem(Class::Byte, 1) };
    (EL) => { Pattern::RegMem(Class::Long, 4) };
    (EL1) => { Pattern::RegMem(Class::Long, 1) };
    (EL2) => { Pattern::RegMem(Class::Long, 2) };
    (EQ) => { Pattern::RegMem(Class::Quad, 8) };
    (EW) => { Pattern::RegMem(Class::Word, 2) };
    (EX) => { Pattern::RegMem(Class::Xmm, 16) };
    (EX2) => { Pattern::RegMem(Class::Xmm, 2) };
    (EX4) => { Pattern::RegMem(Class::Xmm, 4) };
    (EX8) => { Pattern::RegMem(Class::Xmm, 8) };
    (GB) => { Pattern::Reg(Class::Byte) };
    (GL) => { Pattern::Reg(Class::Long) };
    (GQ) => { Pattern::Reg(Class::Quad) };
    (GW) => { Pattern::Reg(Class::Word) };
    (GX) => { Pattern::Reg(Class::Xmm) };
    (IM) => { Pattern::Immediate };
    (M16) => { Pattern::RegMem(Class::Quad, 16) };
    (M8) => { Pattern::RegMem(Class::Quad, 8) };
    (MA) => { Pattern::RegMem(Class::Quad, 0) };
    (ML) => { Pattern::RegMem(Class::Long, 4) };
    (MQ) => { Pattern::RegMem(Class::Quad, 8) };
    (MW) => { Pattern::RegMem(Class::Word, 2) };
    (NO) => { Pattern::Absent };
    (ONE) => { Pattern::One };
    (TO) => { Pattern::Target };
    (ZB) => { Pattern::Low(Class::Byte) };
    (ZL) => { Pattern::Low(Class::Long) };
    (ZQ) => { Pattern::Low(Class::Quad) };
    (ZW) => { Pattern::Low(Class::Word) };
}

/// The operands, the registers that no operand names, and what is stored.
macro_rules! written {
    ($destinations:ident $implied:ident $store:ident) => {
        Outputs {
            destinations: Destinations::$destinations,
            implied: Implied::$implied,
            store: StoreKind::$store,
        }
    };
}

/// What is written beside flags.
macro_rules! outputs {
    (NOTHING) => { written!(Nothing Absent Absent) };
    (FIRST) => { written!(First Absent Operand) };
    (BOTH) => { written!(FirstAndSecond Absent Operand) };
    (BIT_STRING) => { written!(First Absent BitString) };
    (PUSH8) => { written!(Nothing Rsp PushQuad) };
    (PUSH2) => { written!(Nothing Rsp PushWord) };
    (FIRST_RSP) => { written!(First Rsp Operand) };
    (JUST_RSP) => { written!(Nothing Rsp Absent) };
    (FIRST_RAX) => { written!(First Rax Operand) };
    (FIRST_RAX_RDX) => { written!(First RaxRdx Operand) };
    (JUST_RAX) => { written!(Nothing Rax Absent) };
    (JUST_RDX) => { written!(Nothing Rdx Absent) };
    (JUST_RCX) => { written!(Nothing Rcx Absent) };
    (JUST_RDI) => { written!(Nothing Rdi Absent) };
    (JUST_XMM0) => { written!(Nothing Xmm0 Absent) };
    (RAX_RDX) => { written!(Nothing RaxRdx Absent) };
    (RAX_RSI) => { written!(Nothing RaxRsi Absent) };
    (RSI_RDI) => { written!(Nothing RsiRdi Absent) };
    (RSP_RBP) => { written!(Nothing RspRbp Absent) };
    (RAX_RBX_RCX_RDX) => { written!(Nothing RaxRbxRcxRdx Absent) };
    (MOVES) => { written!(Nothing RsiRdi Unfixed) };
    (STORES) => { written!(Nothing Rdi Unfixed) };
    (INTERRUPTS) => { written!(Nothing Rax Unfixed) };
    (CALLS_SYSTEM) => { written!(Nothing RaxRcxR11 Unfixed) };
}

macro_rules! rows {
    (; $($name:ident $size:literal $lead:ident $map:ident $code:literal $shape:ident
        $first:ident $second:ident $third:ident $immediate:ident $words:ident $outputs:ident;)*) => {
        [$(Row {
            name: Mnemonic($name),
            size: $size,
            lead: lead!($lead),
            map: Map::$map,
            code: $code,
            shape: shape!($shape),
            first: operand!($first),
            second: operand!($second),
            third: operand!($third),
            immediate: Immediate::$immediate,
            words: Words::$words,
            outputs: outputs!($outputs),
        }),*]
    };
}

/// The rows of a name stand together, those of its smallest size first.
//
// Name, size in bits; what stands before the opcode, its map, its last byte; where registers stand;
// operands, immediate; prefix words that may stand before it; what it writes.
#[rattlefmt::skip]
pub static ROWS: [Row; 831] = two_operands! {
    moves one_operand shifts conditions branches sse three_bytes rows;
};
