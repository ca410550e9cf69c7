//! What holds of all instructions.

ghost use Rattle.x86_steps.specs.Acts.{EffectsHold, SupportedUsesAre};
ghost use Rattle.x86_steps.specs.Fillings.{FillingsAreCovered, FillingsFall};
ghost use Rattle.x86_steps.specs.Leading.{FlowsHold};
ghost use Rattle.x86_steps.specs.WorkedActions.{WorkedActions, WorkedLists};
ghost use Rattle.x86_steps.specs.WorkedChanges.{WorkedChanges};
ghost use Rattle.x86_steps.specs.WorkedOperands.{WorkedOperands};
ghost use Rattle.x86_steps.specs.WorkedReadings.{WorkedReadings};
ghost use Rattle.x86_steps.specs.WorkedSteps.{WorkedSteps};

/// Whatever an instruction does is of its effect, where its use of the stack is supported.
#[tactic(auto, using(crate::proofs::Acting::acts, crate::proofs::Supporting::supported))]
pub fn effects_hold()
    ensures holds { EffectsHold }
    ensures supported { SupportedUsesAre }
{}

/// Whatever an instruction does goes where its flow leads.
#[tactic(auto, using(crate::proofs::Leading::led))]
pub fn flows_hold()
    ensures { FlowsHold }
{}

/// With any numbers in place of those that are not known an instruction does no more, and may go
/// on just where it may without them.
#[tactic(auto, using(crate::proofs::Filling::fillings_covered, crate::proofs::Filling::fillings_fall))]
pub fn fillings_are_covered()
    ensures covered { FillingsAreCovered }
    ensures fall { FillingsFall }
{}

/// What some instructions do, and write, worked out by hand.
#[tactic(auto, using(crate::proofs::WorkedTable::actions, crate::proofs::WorkedTable::lists))]
pub fn worked_actions()
    ensures actions { WorkedActions }
    ensures lists { WorkedLists }
{}

/// What operands show and get in some states, worked out by hand.
#[tactic(auto, using(crate::proofs::WorkedShown::operands))]
pub fn worked_operands()
    ensures { WorkedOperands }
{}

/// What some instructions do to registers and memory, worked out by hand.
#[tactic(auto, using(crate::proofs::WorkedChanged::changes))]
pub fn worked_changes()
    ensures { WorkedChanges }
{}

/// What the bytes of some instructions read as, worked out by hand.
#[tactic(auto, using(crate::proofs::WorkedBytes::readings))]
pub fn worked_readings()
    ensures { WorkedReadings }
{}

/// A function of four instructions runs through all of them.
#[tactic(auto, using(crate::proofs::WorkedRuns::steps))]
pub fn worked_steps()
    ensures { WorkedSteps }
{}
