//! Two symbols of a form, of which one counts once and the other minus once.

ghost use Rattle.std.specs.Prelude.{◌≡◌};
ghost use Rattle.row_distances.specs.Pairs as spec;

use asm_expr::{SymId, Term};

/// The symbol that counts once, and the one that counts minus once.
#[derive(Clone, Copy)]
pub(crate) struct Pair {
    pub(crate) ahead: SymId,
    pub(crate) behind: SymId,
}

/// The two symbols of the terms, if these are all.
pub(crate) fn pair_of(terms: &[Term]) -> Option<Pair>
    ensures { result ≡ spec.pair_of terms.now }
{
    let [one, other] = terms else {
        return None;
    };
    if one.coefficient == 1 && other.coefficient == u64::MAX {
        Some(Pair {
            ahead: one.symbol,
            behind: other.symbol,
        })
    } else if one.coefficient == u64::MAX && other.coefficient == 1 {
        Some(Pair {
            ahead: other.symbol,
            behind: one.symbol,
        })
    } else {
        None
    }
}
