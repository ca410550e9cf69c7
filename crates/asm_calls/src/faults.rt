//! The texts of the layers' faults, as `Display` writes them.

use asm_base::TextFault;
use asm_frags::{FragCause, FragFault};
use asm_symbols::{SymCause, SymFault};
use elf_object::{ObjectCause, ObjectFault};
use row_texts::write_displayed;
use std::io;

/// `faults`: a fault of a text, of a symbol, of a section and of an object, and want of memory.
pub fn write_faults(out: &mut Vec<u8>) -> io::Result<()> {
    let text = TextFault::TooLarge;
    write_displayed(&text, out)?;
    let symbol = SymFault::Fault(SymCause::BadSymbolUse);
    write_displayed(&symbol, out)?;
    let section = FragFault::Fault(FragCause::BadSection);
    write_displayed(&section, out)?;
    let object = ObjectFault::Fault(ObjectCause::UndefinedLocalSymbol(0));
    write_displayed(&object, out)?;
    let memory = ObjectFault::NoMemory;
    write_displayed(&memory, out)
}
