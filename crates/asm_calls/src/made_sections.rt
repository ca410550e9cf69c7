//! Sections that are made by hand: an item of `.text` a word.

use asm_base::{Place, Pos, SectionPlace};
use asm_expr::{Linear, Name, Spelling, SymId, plus_times, symbol_form};
use asm_frags::{Frag, Sections, own_place};
use asm_symbols::{Binding, Definition, Spot, Symbols};
use item_bytes::Condition;
use item_contents::{Align, Content, Fill, Growth, Org, Padding};
use std::alloc::Global;
use x86_insn::Suffix;

/// The sections and the symbols so far.
#[derive(Drop)]
pub struct Made<'a> {
    pub alloc: Global,
    pub sections: &'a mut Sections,
    pub symbols: &'a mut Symbols,
}

/// The symbol of this name.
fn symbol(made: &mut Made<'_>, text: &str) -> Option<SymId> {
    let name = Name::Plain(Spelling::new(made.alloc, text.as_bytes()).ok()?);
    made.symbols.name_of(&name).ok()
}

/// The place behind all that stands in `.text`.
fn spot(sections: &Sections) -> Option<Spot> {
    if sections.is_empty() {
        return None;
    }
    let text = sections.section(0);
    Some(Spot {
        place: SectionPlace {
            section: 0,
            place: Place {
                item: text.items().len() as u64,
                offset: text.bytes().len() as u64,
            },
        },
        stretch: text.extent().breaks,
        at: 0,
    })
}

/// `label=NAME`
fn put_label(made: &mut Made<'_>, text: &str) -> Option<()> {
    let spot = spot(made.sections)?;
    let id = symbol(made, text)?;
    if id.index() as usize >= made.symbols.as_slice().len() {
        return None;
    }
    made.symbols.define(id, Definition::Label(spot)).ok()
}

/// `weak=NAME`
fn put_weak(made: &mut Made<'_>, text: &str) -> Option<()> {
    let id = symbol(made, text)?;
    if id.index() as usize >= made.symbols.as_slice().len() {
        return None;
    }
    made.symbols.bind(id, Binding::Weak).ok()
}

/// One symbol less another.
fn difference(alloc: Global, one: SymId, other: SymId) -> Option<Linear> {
    let one = symbol_form(alloc, one).ok()?;
    let other = symbol_form(alloc, other).ok()?;
    plus_times(one, u64::MAX, &other).ok()
}

/// An item that grows with its value.
fn put_growing(
    made: &mut Made<'_>,
    pos: Pos,
    kind: Growth,
    suffix: Option<Suffix>,
    form: Linear,
) -> Option<()> {
    if made.sections.is_empty() {
        return None;
    }
    made.sections.push_growing(0, pos, kind, suffix, form).ok()
}

/// `jmp=NAME`, `plt=NAME`, `je=NAME`
fn put_jump(
    made: &mut Made<'_>,
    pos: Pos,
    condition: Option<Condition>,
    suffix: Option<Suffix>,
    text: &str,
) -> Option<()> {
    let target = symbol(made, text)?;
    let form = difference(made.alloc, target, own_place())?;
    put_growing(made, pos, Growth::Jump(condition), suffix, form)
}

/// `uleb=NAME-NAME`, `sleb=NAME-NAME`, `advance=NAME-NAME`
fn put_number(made: &mut Made<'_>, pos: Pos, kind: Growth, text: &str) -> Option<()> {
    let (one, other) = text.split_once('-')?;
    let one = symbol(made, one)?;
    let other = symbol(made, other)?;
    let form = difference(made.alloc, one, other)?;
    put_growing(made, pos, kind, None, form)
}

/// An item that holds no value.
fn put_item(made: &mut Made<'_>, pos: Pos, content: Content) -> Option<()> {
    if made.sections.is_empty() {
        return None;
    }
    made.sections.push(0, Frag::new(pos, content)).ok()
}

/// `zero=BYTES`
fn put_zeros(made: &mut Made<'_>, pos: Pos, text: &str) -> Option<()> {
    let count = text.parse::<u64>().ok()?;
    put_item(
        made,
        pos,
        Content::Fill(Fill::new(count.min(1 << 30), 1, 0)),
    )
}

/// `byte=VALUE`
fn put_byte(made: &mut Made<'_>, pos: Pos, text: &str) -> Option<()> {
    let byte = text.parse::<u8>().ok()?;
    if made.sections.is_empty() {
        return None;
    }
    made.sections.push_bytes(0, pos, &[byte]).ok()
}

/// `align=LOG,MOST`, `code=LOG,MOST`
fn put_alignment(made: &mut Made<'_>, pos: Pos, padding: Padding, text: &str) -> Option<()> {
    let (log, most) = text.split_once(',')?;
    let log = log.parse::<u8>().ok()?;
    let most = most.parse::<u64>().ok()?;
    put_item(
        made,
        pos,
        Content::Align(Align::new(log.min(30), most, padding)),
    )
}

/// `org=ITEMS,AHEAD`, filled with ones
fn put_org(made: &mut Made<'_>, pos: Pos, text: &str) -> Option<()> {
    let (from, ahead) = text.split_once(',')?;
    let from = from.parse::<u32>().ok()?;
    let ahead = ahead.parse::<u64>().ok()?;
    put_item(
        made,
        pos,
        Content::Org(Org::new(from, ahead.min(1 << 34), 0, 1)),
    )
}

/// Puts the item of a word.
fn put_word(made: &mut Made<'_>, pos: Pos, word: &str) -> Option<()> {
    let (kind, text) = word.split_once('=')?;
    match kind {
        "label" => put_label(made, text),
        "weak" => put_weak(made, text),
        "jmp" => put_jump(made, pos, None, None, text),
        "plt" => put_jump(made, pos, None, Some(Suffix::Plt), text),
        "je" => put_jump(made, pos, Some(Condition::Equal), None, text),
        "uleb" => put_number(made, pos, Growth::Leb128 { signed: false }, text),
        "sleb" => put_number(made, pos, Growth::Leb128 { signed: true }, text),
        "advance" => put_number(made, pos, Growth::Advance, text),
        "zero" => put_zeros(made, pos, text),
        "byte" => put_byte(made, pos, text),
        "align" => put_alignment(made, pos, Padding::Byte(0), text),
        "code" => put_alignment(made, pos, Padding::NoOperations, text),
        "org" => put_org(made, pos, text),
        _ => None,
    }
}

/// Puts the items of words, each of which is a statement of a line of its own.
pub fn put_words(made: &mut Made<'_>, words: &str) -> Option<()> {
    let mut line = 0u32;
    for word in words.split(' ') {
        line = line.saturating_add(1);
        put_word(made, Pos { file: 0, line }, word)?;
    }
    Some(())
}
