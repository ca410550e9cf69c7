//! The first fault of an item.

ghost use Rattle.std.specs.Prelude.{◌≡◌, IfErr, IfOk, IsTrue, OnOk, Some};
ghost use Rattle.scfi_pass.specs.Rows.{cfa_of};
ghost use Rattle.scfi_pass.specs.Faults.{IsFirst, IsSound, IsFollowed, IsFirstUnfollowed};
ghost use Rattle.scfi_pass.specs.Looking.{seen, IsClear, IsToldAt};

use crate::checks::{
    AT_EXIT, first_changed, first_lost, is_changed_after, is_data, is_far, is_unsupported,
    overwrites,
};
use crate::frames::cfa_of;
use crate::looking::Looked;
use crate::registers::saved_register;
use crate::rows::Cfa;
use asm_base::ScfiFault;
use stack_depths::is_call;

#[tactic(auto, using(crate::proofs::RankLemmas::clear_frame))]
#[inline(always)]
pub(crate) fn check_frame(looked: &Looked) -> Result<Cfa, ScfiFault>
    ensures told { IfErr result (IsToldAt (seen looked.now) 1) }
    ensures clear { OnOk result (IsClear (seen looked.now) 1) }
    ensures frame { IfOk result (λ cfa. cfa_of (seen looked.now).known ≡ Some cfa) }
{
    match cfa_of(looked.depths, looked.place) {
        None => Err(ScfiFault::FrameLost),
        Some(cfa) => Ok(cfa),
    }
}

#[tactic(auto, using(crate::proofs::RankLemmas::clear_lost))]
fn check_lost(looked: &Looked) -> Result<(), ScfiFault>
    ensures told { IfErr result (IsToldAt (seen looked.now) 2) }
    ensures clear { OnOk result (IsClear (seen looked.now) 2) }
{
    let register = first_lost(looked);
    if register < 7 {
        return Err(ScfiFault::RegisterLost(saved_register(register)));
    }
    Ok(())
}

/// The same, where it may be known already that none is lost.
fn check_held(looked: &Looked, held: bool) -> Result<(), ScfiFault>
    requires { IsTrue held → IsClear (seen looked.now) 2 }
    ensures told { IfErr result (IsToldAt (seen looked.now) 2) }
    ensures clear { OnOk result (IsClear (seen looked.now) 2) }
{
    if held {
        return Ok(());
    }
    check_lost(looked)
}

#[tactic(auto, using(crate::proofs::RankLemmas::clear_return))]
fn check_return_address(looked: &Looked) -> Result<(), ScfiFault>
    ensures told { IfErr result (IsToldAt (seen looked.now) 3) }
    ensures clear { OnOk result (IsClear (seen looked.now) 3) }
{
    if overwrites(looked) {
        return Err(ScfiFault::ReturnAddressOverwritten);
    }
    Ok(())
}

#[tactic(auto, using(crate::proofs::RankLemmas::clear_stack))]
fn check_stack(looked: &Looked) -> Result<(), ScfiFault>
    ensures told { IfErr result (IsToldAt (seen looked.now) 4) }
    ensures clear { OnOk result (IsClear (seen looked.now) 4) }
{
    if !looked.node.exits {
        return Ok(());
    }
    match looked.depths.distance(looked.place, 0) {
        None => Err(ScfiFault::StackNotRestored(None)),
        Some(distance) => {
            if distance == AT_EXIT {
                Ok(())
            } else {
                Err(ScfiFault::StackNotRestored(Some(distance.cast_signed())))
            }
        }
    }
}

#[tactic(auto, using(crate::proofs::RankLemmas::clear_changed))]
fn check_registers(looked: &Looked) -> Result<(), ScfiFault>
    ensures told { IfErr result (IsToldAt (seen looked.now) 5) }
    ensures clear { OnOk result (IsClear (seen looked.now) 5) }
{
    if !looked.node.exits {
        return Ok(());
    }
    let register = first_changed(looked);
    if register < 7 {
        return Err(ScfiFault::RegisterNotRestored(saved_register(register)));
    }
    Ok(())
}

#[tactic(auto, using(crate::proofs::RankLemmas::clear_jump))]
fn check_jump(looked: &Looked) -> Result<(), ScfiFault>
    ensures told { IfErr result (IsToldAt (seen looked.now) 6) }
    ensures clear { OnOk result (IsClear (seen looked.now) 6) }
{
    if looked.node.untraced {
        return Err(ScfiFault::UntraceableJump);
    }
    Ok(())
}

#[tactic(auto, using(crate::proofs::RankLemmas::clear_call))]
fn check_call(looked: &Looked) -> Result<(), ScfiFault>
    ensures told { IfErr result (IsToldAt (seen looked.now) 7) }
    ensures clear { OnOk result (IsClear (seen looked.now) 7) }
{
    if looked.node.calls_inside {
        return Err(ScfiFault::CallIntoFunction);
    }
    Ok(())
}

#[tactic(auto, using(crate::proofs::RankLemmas::clear_data))]
fn check_data(looked: &Looked) -> Result<(), ScfiFault>
    ensures told { IfErr result (IsToldAt (seen looked.now) 8) }
    ensures clear { OnOk result (IsClear (seen looked.now) 8) }
{
    if is_data(looked.item.effect.role) {
        return Err(ScfiFault::NotInstructions);
    }
    Ok(())
}

#[tactic(auto, using(crate::proofs::RankLemmas::clear_end))]
fn check_end(looked: &Looked) -> Result<(), ScfiFault>
    ensures told { IfErr result (IsToldAt (seen looked.now) 9) }
    ensures clear { OnOk result (IsClear (seen looked.now) 9) }
{
    let runs = looked.last && looked.node.falls && !is_call(&looked.item.effect);
    if runs && is_changed_after(looked) {
        return Err(ScfiFault::RunsPastEnd);
    }
    Ok(())
}

#[tactic(auto, using(crate::proofs::RankLemmas::clear_use))]
fn check_use(looked: &Looked) -> Result<(), ScfiFault>
    ensures told { IfErr result (IsToldAt (seen looked.now) 10) }
    ensures clear { OnOk result (IsClear (seen looked.now) 10) }
{
    if is_unsupported(looked.item.effect.role) {
        return Err(ScfiFault::UnsupportedStackUse);
    }
    Ok(())
}

#[tactic(auto, using(crate::proofs::RankLemmas::clear_far))]
#[inline(always)]
pub(crate) fn check_far(looked: &Looked) -> Result<(), ScfiFault>
    ensures told { IfErr result (IsToldAt (seen looked.now) 11) }
    ensures clear { OnOk result (IsClear (seen looked.now) 11) }
{
    if is_far(looked) {
        return Err(ScfiFault::OffsetTooLarge);
    }
    Ok(())
}

/// The frame address, where no fault is told at an item, or else the fault of the least rank. Where it
/// is known already that no register is lost, that is not asked again.
pub(crate) fn checked(looked: &Looked, held: bool) -> Result<Cfa, ScfiFault>
    requires { IsTrue held → IsClear (seen looked.now) 2 }
    ensures first { IfErr result (IsFirst (seen looked.now)) }
    ensures sound { OnOk result (IsSound (seen looked.now)) }
    ensures frame { IfOk result (λ cfa. cfa_of (seen looked.now).known ≡ Some cfa) }
{
    let cfa = check_frame(looked)?;
    check_held(looked, held)?;
    check_return_address(looked)?;
    check_stack(looked)?;
    check_registers(looked)?;
    check_jump(looked)?;
    check_call(looked)?;
    check_data(looked)?;
    check_end(looked)?;
    check_use(looked)?;
    check_far(looked)?;
    Ok(cfa)
}

/// Whether what an item does can be followed, or else the first fault that says that it cannot. Such
/// faults stand in the way of any frame table, also of one that is written.
pub fn check_followed(looked: &Looked) -> Result<(), ScfiFault>
    ensures first { IfErr result (IsFirstUnfollowed (seen looked.now)) }
    ensures followed { OnOk result (IsFollowed (seen looked.now)) }
{
    check_return_address(looked)?;
    check_jump(looked)?;
    check_call(looked)?;
    check_data(looked)?;
    check_use(looked)?;
    check_far(looked)?;
    Ok(())
}
