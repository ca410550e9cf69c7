//! What holds of all instructions, and effects that were worked out by hand.

ghost use Rattle.insn_effects.specs.Seven.{AreNumbered};
ghost use Rattle.insn_effects.specs.Listed.{WritesAreListed};
ghost use Rattle.insn_effects.specs.Worked.{WorkedEffects};

/// Each of the seven registers has its number.
#[tactic(auto, using(crate::proofs::Bits::numbered))]
pub fn registers_are_numbered()
    ensures { AreNumbered }
{}

/// What is looked up of an instruction is what the first row says that admits it.
#[tactic(auto, using(crate::proofs::Listing::listed))]
pub fn writes_are_listed()
    ensures { WritesAreListed }
{}

/// What is followed of the instructions on the stack, and of some others, worked out by hand.
#[tactic(auto, using(crate::proofs::Worked::worked))]
pub fn worked_effects()
    ensures { WorkedEffects }
{}
