//! Why a call is refused that may want memory.

ghost use Rattle.std.specs.Prelude.{◌≡◌};
ghost use Rattle.asm_base.specs.declared.refusals.Refusal.TheVariants.{NoMemory};
ghost use Rattle.asm_base.specs.Refusals.{Raises};

use std::alloc::{AllocError, AllocFailed};
use std::fmt::{self, Display};

/// Why a call is refused: what it was given has a fault, or memory ran out.
#[derive(Clone, Copy, PartialEq, Eq, Debug, Drop)]
pub enum Refusal<F> {
    /// What was given has this fault.
    Fault(F),
    /// Memory ran out.
    NoMemory,
}

impl<F> Refusal<F> {
    /// The refusal with its fault as one of the layer above.
    pub fn raise<G: From<F>>(self) -> Refusal<G>
        ensures { Raises G.from_gives self result }
    {
        match self {
            Refusal::Fault(fault) => Refusal::Fault(G::from(fault)),
            Refusal::NoMemory => Refusal::NoMemory,
        }
    }
}

impl<F> From<AllocError> for Refusal<F> {
    ghost from_gives = { λ _ e. e ≡ NoMemory };

    fn from(_refused: AllocError) -> Refusal<F> {
        Refusal::NoMemory
    }
}

impl<F, T: Drop> From<AllocFailed<T>> for Refusal<F> {
    ghost from_gives = { λ _ e. e ≡ NoMemory };

    fn from(_refused: AllocFailed<T>) -> Refusal<F> {
        Refusal::NoMemory
    }
}

impl<F: Display> Display for Refusal<F> {
    fn fmt<W: fmt::Write>(&self, f: &mut fmt::Formatter<W>) -> fmt::Result {
        match self {
            Refusal::Fault(fault) => write!(f, "{fault}"),
            Refusal::NoMemory => write!(f, "out of memory"),
        }
    }
}
