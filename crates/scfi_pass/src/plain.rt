//! Items that do nothing to the stack: most of a function's are.

ghost use Rattle.std.specs.Prelude.{◌≡◌, ◌<◌, ℕ, IfErr, IfOk, IsTrue, OnOk, Some};
ghost use Rattle.scfi_pass.specs.Rows.{cfa_of, AreRules};
ghost use Rattle.scfi_pass.specs.Faults.{IsFirst, IsSound};
ghost use Rattle.scfi_pass.specs.Looking.{seen, IsClear, IsToldAt};
ghost use Rattle.scfi_pass.specs.Plain.{IsPlain};

use crate::checks::{is_above, is_data, is_return, is_unsupported};
use crate::faults::{check_far, check_frame};
use crate::looking::Looked;
use crate::rows::{Cfa, StackRow};
use crate::rules::same_cfa;
use asm_base::ScfiFault;
use stack_facts::is_quiet;

/// Whether an item does nothing to the stack, and control goes from it to items alone, by a look at it.
#[inline(always)]
fn is_plain(looked: &Looked) -> bool
    ensures { IsTrue result → IsPlain (seen looked.now) }
{
    let node = looked.node;
    if looked.last || node.exits || node.untraced || node.calls_inside {
        return false;
    }
    let role = looked.item.effect.role;
    if is_return(role) || is_data(role) || is_unsupported(role) {
        return false;
    }
    is_quiet(&looked.item.effect)
}

/// That rsp is above the return address is the one way in which a plain item overwrites that.
#[inline(always)]
#[tactic(auto, using(crate::proofs::PlainLemmas::risen, crate::proofs::PlainLemmas::not_risen))]
fn check_height(looked: &Looked) -> Result<(), ScfiFault>
    requires { IsPlain (seen looked.now) }
    ensures told { IfErr result (IsToldAt (seen looked.now) 3) }
    ensures clear { OnOk result (IsClear (seen looked.now) 3) }
{
    if is_above(looked.depths.distance(looked.place, 0)) {
        return Err(ScfiFault::ReturnAddressOverwritten);
    }
    Ok(())
}

/// The frame address, where no fault is told at a plain item of which no register is lost, or else the
/// fault of the least rank.
#[inline(always)]
#[tactic(auto, using(crate::proofs::PlainLemmas::plain_clear))]
fn checked_plain(looked: &Looked) -> Result<Cfa, ScfiFault>
    requires plain { IsPlain (seen looked.now) }
    requires held { IsClear (seen looked.now) 2 }
    ensures first { IfErr result (IsFirst (seen looked.now)) }
    ensures sound { OnOk result (IsSound (seen looked.now)) }
    ensures frame { IfOk result (λ cfa. cfa_of (seen looked.now).known ≡ Some cfa) }
{
    let cfa = check_frame(looked)?;
    check_height(looked)?;
    check_far(looked)?;
    Ok(cfa)
}

/// Whether no fault is told at an item, and its row is this one, by a look at a plain item whose rules it
/// has.
#[inline(always)]
#[tactic(auto, using(crate::proofs::RowLemmas::rules_clear))]
pub(crate) fn keeps_row(looked: &Looked, row: &StackRow) -> bool
    requires { AreRules (seen looked.now).stands row.now }
    ensures sound { IsTrue result → IsSound (seen looked.now) }
    ensures frame { IsTrue result → cfa_of (seen looked.now).known ≡ Some row.now.cfa }
{
    if !is_plain(looked) {
        return false;
    }
    match checked_plain(looked) {
        Err(_) => false,
        Ok(cfa) => same_cfa(row.cfa, cfa),
    }
}
