//! Executions from item to item.

ghost use Rattle.scfi_laws.specs.Performing.{EffectsAreFollowed};
ghost use Rattle.scfi_laws.specs.ItemLaws.{ExecutionsAreWalks, KnownIsTrue, ReturnAddressStands, RowsRecover, ExitsRestore, RowsAreSupported, QuietStepsKeep};

/// What a step does by the effect of an instruction, it does by what is followed of that effect. Of one
/// that neither stores nor calls nothing more is asked.
#[tactic(auto, using(crate::proofs::FollowedEffects::effects_followed, crate::proofs::FollowedEffects::quiet_steps_keep))]
pub fn effects_are_followed()
    ensures followed { EffectsAreFollowed }
    ensures quiet { QuietStepsKeep }
{}

/// The items that a kept execution passes are a walk, and what is known and stands at its last item is
/// true of its last state.
#[tactic(auto, using(crate::proofs::Standing::executions_are_walks, crate::proofs::Standing::known_is_true))]
pub fn known_is_true()
    ensures walks { ExecutionsAreWalks }
    ensures known { KnownIsTrue }
{}

/// Where nothing overwrites the return address, it stands, and each row that is supported at the last
/// item recovers the caller.
#[tactic(auto, using(crate::proofs::Returning::return_address_stands, crate::proofs::Returning::rows_recover))]
pub fn rows_recover()
    ensures stands { ReturnAddressStands }
    ensures rows { RowsRecover }
{}

/// At exits rsp and the callee-saved registers are as at entry.
#[tactic(auto, using(crate::proofs::Restoring::exits_restore))]
pub fn exits_restore()
    ensures { ExitsRestore }
{}

/// The row that synthesis gives an item is supported there.
#[tactic(auto, using(crate::proofs::Supporting::rows_are_supported))]
pub fn rows_are_supported()
    ensures { RowsAreSupported }
{}
