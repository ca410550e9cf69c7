//! The symbols, and what is known of each.

use asm_base::SectionPlace;
use asm_expr::{BoxedForm, Name};

/// Where a label stands: its place, the stretch that it stands in, and its distance from the
/// beginning of the stretch.
#[derive(Clone, Copy, PartialEq, Eq, Debug)]
pub struct Spot {
    pub place: SectionPlace,
    pub stretch: u64,
    pub at: u64,
}

/// What defines a symbol.
#[derive(Clone, Copy, PartialEq, Eq, Debug)]
pub enum Definition {
    /// A label.
    Label(Spot),
    /// Space that the linker finds, which all objects that name the symbol have in common.
    Common { size: u64, align: u64 },
    /// Space of this object.
    Space(Spot),
}

/// What a symbol is.
#[derive(Drop)]
pub enum Meaning {
    /// It is named, and nothing else.
    Undefined,
    Label(Spot),
    Common { size: u64, align: u64 },
    Space(Spot),
    /// It stands for a form.
    Assigned(BoxedForm),
}

/// Who sees a symbol (gABI, "Symbol Table").
#[derive(Clone, Copy, PartialEq, Eq, Debug)]
pub enum Binding {
    Local,
    Global,
    Weak,
}

/// What a symbol names (gABI, "Symbol Table").
#[derive(Clone, Copy, PartialEq, Eq, Debug)]
pub enum Kind {
    NoType,
    Object,
    Function,
    Tls,
    Common,
}

/// How far a symbol is seen, where it is not by default (gABI, "Symbol Table").
#[derive(Clone, Copy, PartialEq, Eq, Debug)]
pub enum Visibility {
    Internal,
    Hidden,
    Protected,
}

/// What a directive says of symbols.
#[derive(Clone, Copy)]
pub enum SymbolAttribute {
    Bind(Binding),
    See(Visibility),
}

/// A symbol: its name, what it is, and what was said of it.
#[derive(Drop)]
pub struct Symbol {
    pub name: Name,
    pub meaning: Meaning,
    pub binding: Option<Binding>,
    pub kind: Option<Kind>,
    /// It stands beside the other small fields: a symbol is eight bytes shorter so.
    pub visibility: Option<Visibility>,
    pub size: Option<BoxedForm>,
    /// The number of its size among all sizes in the order in which they were said, from 1; 0 where
    /// it has none.
    pub sized: u64,
}
