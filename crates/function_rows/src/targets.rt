//! What jumps and calls lead to: labels of the function, and other symbols.

use asm_base::{Place, Pos, SectionPlace};
use asm_expr::{Name, Spelling, symbol_form};
use asm_frags::{Field, FieldRole, FieldSize};
use asm_symbols::{Binding, Definition, Spot, Symbols};
use std::alloc::Global;
use x86_insn::FieldKind;

/// The number of the section of all functions.
pub const SECTION: u32 = 1;

/// The place of all statements.
pub const POS: Pos = Pos { file: 0, line: 1 };

/// The spot of a label at an item.
fn spot(item: u64) -> Spot {
    Spot {
        place: SectionPlace {
            section: SECTION,
            place: Place {
                item: 0,
                offset: item,
            },
        },
        stretch: 0,
        at: item,
    }
}

/// A field with a symbol: a label at an item, which is weak where a `w` stands behind its number, or
/// another symbol.
pub fn target_field(alloc: Global, symbols: &mut Symbols, text: &str) -> Option<Field> {
    let name = Name::Plain(Spelling::new(alloc, text.as_bytes()).ok()?);
    let id = symbols.name_of(&name).ok()?;
    let (number, weak) = match text.split_once('w') {
        Some((number, _)) => (number, true),
        None => (text, false),
    };
    if let Ok(item) = number.parse::<u64>() {
        let _ = symbols.define(id, Definition::Label(spot(item)));
        if weak {
            symbols.bind(id, Binding::Weak).ok()?;
        }
    }
    Some(Field {
        pos: POS,
        item: 0,
        section: SECTION,
        offset: 0,
        size: FieldSize::Four,
        role: FieldRole {
            kind: FieldKind::Branch,
            suffix: None,
            behind: 0,
        },
        in_item: false,
        form: symbol_form(alloc, id).ok()?,
    })
}
