//! Functions.

ghost use Rattle.std.specs.Prelude.{◌<◌, ◌^◌, length};
ghost use Rattle.code_functions.specs.InOrder.{AreInOrder};

use crate::items::CodeItem;

/// A function, as its items are looked at.
#[derive(Clone, Copy)]
pub struct Function<'a> {
    /// The number of its section.
    pub section: u32,
    /// Its items, in the order of their places.
    pub items: &'a [CodeItem],
    ghost ordered: { AreInOrder items.now },
    ghost few: { length items.now < 2 ^ 32 },
}
