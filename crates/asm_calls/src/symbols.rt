//! What a symbol map tells of its symbols.

use asm_base::{Place, SectionPlace};
use asm_expr::{Look, Name, Spelling, constant_form};
use asm_symbols::{Definition, Spot, SymFault, SymId, Symbols};
use row_texts::{write_count, write_displayed, write_line, write_number, write_text};
use std::alloc::{AllocError, Global};
use std::io::{self, Write};

/// A symbol's name.
fn plain(alloc: Global, text: &[u8]) -> Result<Name, AllocError> {
    Ok(Name::Plain(Spelling::new(alloc, text)?))
}

/// Where the labels of the map stand.
const SPOT: Spot = Spot {
    place: SectionPlace {
        section: 1,
        place: Place { item: 2, offset: 0 },
    },
    stretch: 3,
    at: 4,
};

/// A line with the index of a symbol, or that there is none.
fn write_index(id: Option<SymId>, out: &mut Vec<u8>) -> io::Result<()> {
    match id {
        Some(id) => write_count(u64::from(id.index()), "", out),
        None => write_line("none", out),
    }
}

/// The next instance of numeric label 7, as a symbol.
fn write_next(symbols: &mut Symbols, out: &mut Vec<u8>) -> io::Result<Option<SymId>> {
    match symbols.numeric_next(7) {
        Ok(id) => {
            write_index(Some(id), &mut *out)?;
            Ok(Some(id))
        }
        Err(fault) => {
            write_displayed(&fault, out)?;
            Ok(None)
        }
    }
}

/// Defines a symbol as a label.
fn define(symbols: &mut Symbols, id: Option<SymId>) -> Result<(), SymFault> {
    match id {
        Some(id) if (id.index() as usize) < symbols.as_slice().len() => {
            symbols.define(id, Definition::Label(SPOT))
        }
        _ => Ok(()),
    }
}

/// The instance behind, the one ahead twice, and after its definition the one behind, the one ahead, and how many there are
/// of this number and of another.
fn write_sevens(symbols: &mut Symbols, out: &mut Vec<u8>) -> io::Result<()> {
    write_index(symbols.numeric_back(7), &mut *out)?;
    let first = write_next(symbols, &mut *out)?;
    write_next(symbols, &mut *out)?;
    if let Err(fault) = define(symbols, first) {
        write_displayed(&fault, &mut *out)?;
    }
    write_index(symbols.numeric_back(7), &mut *out)?;
    write_next(symbols, &mut *out)?;
    write_number(u64::from(symbols.count(7)), &mut *out)?;
    write_text(" ", &mut *out)?;
    write_count(u64::from(symbols.count(1)), "", out)
}

/// `instances`: what an empty map tells of the instances of a numeric label.
pub fn write_instances(alloc: Global, out: &mut Vec<u8>) -> io::Result<()> {
    let mut symbols = Symbols::new(alloc);
    write_sevens(&mut symbols, out)
}

/// A map with the symbol `low`, which is assigned -5, and the answer for assigning it again.
fn assigned(alloc: Global, symbols: &mut Symbols) -> Result<Result<(), SymFault>, SymFault> {
    let low = symbols.name_of(&plain(alloc, b"low")?)?;
    symbols.assign(low, constant_form(alloc, 0xffff_ffff_ffff_fffb), true)?;
    Ok(symbols.assign(low, constant_form(alloc, 1), true))
}

/// What the map says of a name: its index, its number as known, and as looked up.
fn write_known(symbols: &Symbols, name: &Name, out: &mut Vec<u8>) -> io::Result<()> {
    write_index(symbols.find(name), &mut *out)?;
    if let Some(id) = symbols.find(name) {
        let known = symbols.known(id);
        writeln!(out, "{known:?}")?;
    }
    let look = symbols.look(symbols.number_of(name));
    match &look {
        Look::Constant(number) => {
            write_text("constant ", out)?;
            write_count(*number, "", out)
        }
        Look::Absent => write_line("absent", out),
        _ => write_line("label or form", out),
    }
}

/// The answer for assigning once a symbol that is assigned, and what the map says of it and of another name.
fn write_answers(alloc: Global, symbols: &mut Symbols, out: &mut Vec<u8>) -> io::Result<()> {
    match assigned(alloc, symbols) {
        Ok(Ok(())) => write_line("assigned again", &mut *out)?,
        Ok(Err(fault)) => write_displayed(&fault, &mut *out)?,
        Err(fault) => write_displayed(&fault, &mut *out)?,
    }
    write_known(symbols, &plain(alloc, b"low")?, &mut *out)?;
    write_known(symbols, &plain(alloc, b"high")?, out)
}

/// `assigned`: what an empty map answers for two assignments of one symbol.
pub fn write_assigned(alloc: Global, out: &mut Vec<u8>) -> io::Result<()> {
    let mut symbols = Symbols::new(alloc);
    write_answers(alloc, &mut symbols, out)
}
