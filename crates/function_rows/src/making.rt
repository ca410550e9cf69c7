//! The items of a function.

ghost use Rattle.std.specs.Prelude.{◌<◌, ◌^◌, IfOk, length};
ghost use Rattle.code_functions.specs.InOrder.{AreInOrder};

use crate::effects::effect_by;
use crate::targets::{POS, target_field};
use asm_base::Place;
use asm_frags::Field;
use asm_symbols::Symbols;
use code_functions::CodeItem;
use insn_effects::Effect;
use std::alloc::{AllocError, Global};

/// An item, before it has a place.
#[derive(Clone, Copy)]
pub struct Unplaced {
    effect: Effect,
    field: Option<u32>,
}

/// The item of a word, and of a target behind the sign `>`.
fn read_item(
    alloc: Global,
    text: &str,
    symbols: &mut Symbols,
    fields: &mut Vec<Field>,
) -> Option<Unplaced> {
    let (item, target) = text.split_once('>').unwrap_or((text, ""));
    let (word, numbers) = item.split_once(':').unwrap_or((item, ""));
    let effect = effect_by(word, numbers)?;
    if target.is_empty() {
        return Some(Unplaced {
            effect,
            field: None,
        });
    }
    let field = u32::try_from(fields.len()).ok()?;
    fields.push(target_field(alloc, symbols, target)?).ok()?;
    Some(Unplaced {
        effect,
        field: Some(field),
    })
}

/// The items of a line, with a space between two.
pub fn read_items(
    alloc: Global,
    line: &str,
    symbols: &mut Symbols,
    fields: &mut Vec<Field>,
) -> Option<Vec<Unplaced>> {
    let mut items = Vec::new(alloc);
    for text in line.split(' ') {
        items.push(read_item(alloc, text, symbols, fields)?).ok()?;
    }
    Some(items)
}

/// The items at their places, one byte behind the other.
pub fn placed(alloc: Global, items: &[Unplaced]) -> Result<Vec<CodeItem>, AllocError>
    ensures { IfOk result (λ made. AreInOrder made.items) }
{
    let mut made = Vec::new(alloc);
    for at in 0..items.len() {
        made.push(CodeItem {
            effect: items[at].effect,
            place: Place {
                item: 0,
                offset: at as u64,
            },
            field: items[at].field,
            pos: POS,
        })?;
    }
    Ok(made)
}
