//! Faults of expansion, where they stand.

ghost use Rattle.asm_macro.specs.Turning.{IsWhole, Stands, StandsAt, StandsRaised};

use crate::faults::ExpandFault;
use crate::turned::{MacroFault, Turned};
use asm_base::{Pos, Refusal};
use macro_texts::MacroLineFault;
use macro_words::{MacroCause, raised};

/// A fault of expansion that stands here. No count and no condition has the fault of a file that is too large.
pub(crate) fn fault_at(cause: MacroCause, pos: Pos) -> Refusal<MacroFault>
    ensures { StandsAt pos cause result }
{
    if cause == MacroCause::FileTooLarge {
        return Refusal::NoMemory;
    }
    Refusal::Fault(MacroFault { cause, pos })
}

/// A refusal whose fault stands here.
pub(crate) fn standing(refusal: Refusal<MacroCause>, pos: Pos) -> Refusal<MacroFault>
    ensures { Stands pos refusal result }
{
    match refusal {
        Refusal::Fault(cause) => fault_at(cause, pos),
        Refusal::NoMemory => Refusal::NoMemory,
    }
}

/// A refusal of a line of a macro, whose fault stands here.
pub(crate) fn standing_line(refusal: MacroLineFault, pos: Pos) -> Refusal<MacroFault>
    ensures { StandsRaised pos refusal result }
{
    match refusal {
        Refusal::Fault(cause) => fault_at(raised(cause), pos),
        Refusal::NoMemory => Refusal::NoMemory,
    }
}

/// The answer with its refusal as one of the whole expansion.
pub(crate) fn whole<F: Drop>(
    answer: Result<Turned, Refusal<MacroFault>>,
) -> Result<Turned, ExpandFault<F>>
    ensures { IsWhole answer result }
{
    match answer {
        Ok(turned) => Ok(turned),
        Err(Refusal::Fault(fault)) => Err(ExpandFault::Expansion(fault.cause, fault.pos)),
        Err(Refusal::NoMemory) => Err(ExpandFault::NoMemory),
    }
}
