//! What is known of symbols and names at a place.

ghost use Rattle.std.specs.Prelude.{◌≡◌, ℕ};
ghost use Rattle.asm_expr.specs.declared.trees.Written.{Written};
ghost use Rattle.asm_expr.specs.Knowledge.{Told, told_by};

use crate::forms::Linear;
use crate::ids::SymId;
use crate::trees::Written;

/// What a symbol is known as.
#[derive(Clone, Copy)]
pub enum Look<'a> {
    /// Nothing is known.
    Absent,
    Constant(u64),
    /// Labels of one stretch have a known distance: that of their `at`s.
    Label { stretch: u64, at: u64 },
    /// An assigned symbol, which stands for this form.
    Form(&'a Linear),
}

/// What is known of symbols and names at the place of a statement.
pub trait Known {
    /// What each symbol is known as.
    ghost told: { Self → ℕ → Told };

    /// The symbol that a name means.
    ghost meant: { Self → Written → ℕ };

    /// The symbol that the place is.
    ghost place: { Self → ℕ };

    /// What the symbol is known as.
    fn look(&self, symbol: SymId) -> Look<'_>
        ensures { told_by result ≡ told self.now symbol };

    /// The symbol that the name means.
    fn symbol(&self, written: &Written) -> SymId
        ensures { result ≡ meant self.now written.now };

    /// The symbol that the place is.
    fn here(&self) -> SymId
        ensures { result ≡ place self.now };
}
