//! The mnemonics of AT&T syntax (GNU as manual, "i386-Mnemonics"), by chapters, a file each. Each
//! hands its rows to the next, behind those before, and the last hands them all to `names!`.

mod integers;
mod vectors;

use self::integers::integers;
use self::vectors::vectors;
use crate::names::Named;
use crate::names::Rule::{
    AccumulatorFirst, Branch, ByCl, ByOne, BySource, LongMemory, MemoryFirst, OneForTwo, OrMove,
    Plain, Predicate, QuadIsMovq, WithXmm0,
};
use x86_insn::Mnemonic;
use x86_table::mnemonics::integers::*;
use x86_table::mnemonics::vectors::*;

macro_rules! names {
    (; $($text:literal $length:literal $name:ident $size:literal $rule:expr;)*) => {
        [$(Named {
            padded: *$text,
            length: $length,
            name: Mnemonic($name),
            size: $size,
            rule: $rule,
        }),*]
    };
}

/// The text and its length, the name of rows, the operand size in bits that it fixes or 0, and how its
/// operands are read.
#[rattlefmt::skip]
pub static ATT_NAMES: [Named; 761] = integers! {
    vectors names;
};
