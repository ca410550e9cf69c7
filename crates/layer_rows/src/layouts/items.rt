//! The items of a case, a line each.

/// On which side of a line the label stands that it names.
#[derive(Clone, Copy)]
pub enum Side {
    /// `1b`: the last one before the line.
    Before,
    /// `1f`: the first one behind it.
    Behind,
}

/// A label as a line names it.
#[derive(Clone, Copy)]
pub struct LabelName {
    pub number: u64,
    pub side: Side,
}

/// What a line says.
#[derive(Clone, Copy)]
pub enum Item {
    /// So many plain bytes.
    Bytes(u64),
    /// A label of this number.
    Label(u64),
    /// `jmp`, or with a condition `je`.
    Jump {
        conditional: bool,
        target: LabelName,
    },
    /// The distance from a start to an end.
    Leb128 {
        signed: bool,
        end: LabelName,
        start: LabelName,
    },
    /// An advance of a frame table by the distance from a start to an end.
    Advance {
        end: LabelName,
        start: LabelName,
    },
    /// Up to a multiple of 2^log, where that takes no more than `most` bytes.
    Align {
        log: u8,
        most: u64,
    },
    /// Up to so many bytes behind a label.
    Org {
        label: LabelName,
        bytes: u64,
    },
    /// The end of a section. The lines behind it are of the next one.
    Section,
}

/// `1f` or `1b`
fn label_name(text: &str) -> Option<LabelName> {
    if let Some(digits) = text.strip_suffix("b") {
        let number = digits.parse::<u64>().ok()?;
        return Some(LabelName {
            number,
            side: Side::Before,
        });
    }
    let digits = text.strip_suffix("f")?;
    let number = digits.parse::<u64>().ok()?;
    Some(LabelName {
        number,
        side: Side::Behind,
    })
}

/// `2f-1f`: an end, and the start before it.
fn span(text: &str) -> Option<(LabelName, LabelName)> {
    let (end, start) = text.split_once('-')?;
    Some((label_name(end)?, label_name(start)?))
}

/// `LABEL`, of a jump
fn jump(conditional: bool, text: &str) -> Option<Item> {
    let target = label_name(text)?;
    Some(Item::Jump {
        conditional,
        target,
    })
}

/// `LABEL-LABEL`, of a number
fn leb128(signed: bool, text: &str) -> Option<Item> {
    let (end, start) = span(text)?;
    Some(Item::Leb128 { signed, end, start })
}

/// `LABEL-LABEL`, of an advance
fn advance(text: &str) -> Option<Item> {
    let (end, start) = span(text)?;
    Some(Item::Advance { end, start })
}

/// `LOG` or `LOG MOST`
fn align(text: &str) -> Option<Item> {
    match text.split_once(' ') {
        Some((log, most)) => {
            let log = log.parse::<u8>().ok()?;
            let most = most.parse::<u64>().ok()?;
            Some(Item::Align { log, most })
        }
        None => {
            let log = text.parse::<u8>().ok()?;
            Some(Item::Align {
                log,
                most: u64::MAX,
            })
        }
    }
}

/// `LABEL BYTES`
fn org(text: &str) -> Option<Item> {
    let (label, bytes) = text.split_once(' ')?;
    let label = label_name(label)?;
    let bytes = bytes.parse::<u64>().ok()?;
    Some(Item::Org { label, bytes })
}

/// The item of this word, with what stands behind it.
fn item_with(word: &str, text: &str) -> Option<Item> {
    match word {
        "bytes" => Some(Item::Bytes(text.parse::<u64>().ok()?)),
        "label" => Some(Item::Label(text.parse::<u64>().ok()?)),
        "jmp" => jump(false, text),
        "je" => jump(true, text),
        "uleb128" => leb128(false, text),
        "sleb128" => leb128(true, text),
        "advance" => advance(text),
        "align" => align(text),
        "org" => org(text),
        _ => None,
    }
}

/// The item that a line spells.
pub fn item_of(line: &str) -> Option<Item> {
    if line == "section" {
        return Some(Item::Section);
    }
    let (word, text) = line.split_once(' ')?;
    item_with(word, text)
}
