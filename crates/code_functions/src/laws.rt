//! Functions that were worked out by hand.

ghost use Rattle.code_functions.specs.Worked.{WorkedFunctions};

/// What statements do to functions, worked out by hand.
#[tactic(auto, using(crate::proofs::Worked::worked))]
pub fn worked_functions()
    ensures { WorkedFunctions }
{}
