//! Where functions stand.

use asm_base::{Place, Pos};
use asm_expr::SymId;

/// A function without its items.
#[derive(Clone, Copy)]
pub struct Extent {
    /// The symbol at whose label it begins.
    pub symbol: SymId,
    /// The statement of that label.
    pub pos: Pos,
    /// The number of its section.
    pub section: u32,
    /// Where it begins.
    pub start: Place,
    /// Where it ends. None while it is open.
    pub stop: Option<Place>,
}

/// What tells where sections end so far.
pub trait SectionEnds {
    ghost use Rattle.std.specs.Prelude.{◌≡◌, ℕ};
    ghost use Rattle.asm_base.specs.declared.places.Place.{Place};

    /// The end of the section of each number.
    ghost ends: { Self → ℕ → Place };

    /// Where the section of this number ends.
    fn end_of(&self, section: u32) -> Place
        ensures { result ≡ ends self.now section };
}
