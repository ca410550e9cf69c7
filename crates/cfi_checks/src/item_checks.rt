//! The first fault of an item.

ghost use Rattle.std.specs.Prelude.{◌≡◌, IfErr, IsTrue, OnOk};
ghost use Rattle.scfi_pass.specs.Looking.{seen};
ghost use Rattle.cfi_checks.specs.Shown.{ShowsFrame, ShowsRegisters, ShowsReturn};
ghost use Rattle.cfi_checks.specs.Faults.{IsFirst, IsShown};
ghost use Rattle.cfi_checks.specs.Places.{IsClear, IsToldAt};

use crate::faults::CheckFault;
use crate::rows::WrittenRow;
use crate::shown::{first_hidden, shows_frame, shows_return};
use scfi_pass::{Looked, check_followed, saved_register};

#[tactic(auto, using(crate::proofs::RankLemmas::clear_frame))]
fn check_frame(looked: &Looked, row: &WrittenRow) -> Result<(), CheckFault>
    ensures told { IfErr result (IsToldAt (seen looked.now) row.now 1) }
    ensures clear { OnOk result (IsClear (seen looked.now) row.now 1) }
    ensures shown { OnOk result (ShowsFrame (seen looked.now).known row.now) }
{
    if !shows_frame(looked, row) {
        return Err(CheckFault::FrameNotShown);
    }
    Ok(())
}

/// Whether the entry value of each of the six stands where its rule says, which may be known already.
#[tactic(auto, using(crate::proofs::RankLemmas::clear_registers))]
fn check_registers(looked: &Looked, row: &WrittenRow, held: bool) -> Result<(), CheckFault>
    requires { IsTrue held → ShowsRegisters (seen looked.now).stands row.now }
    ensures told { IfErr result (IsToldAt (seen looked.now) row.now 2) }
    ensures clear { OnOk result (IsClear (seen looked.now) row.now 2) }
    ensures shown { OnOk result (ShowsRegisters (seen looked.now).stands row.now) }
{
    if held {
        return Ok(());
    }
    let register = first_hidden(looked, row);
    if register < 7 {
        return Err(CheckFault::RegisterNotShown(saved_register(register)));
    }
    Ok(())
}

#[tactic(auto, using(crate::proofs::RankLemmas::clear_return))]
fn check_return(looked: &Looked, row: &WrittenRow) -> Result<(), CheckFault>
    ensures told { IfErr result (IsToldAt (seen looked.now) row.now 3) }
    ensures clear { OnOk result (IsClear (seen looked.now) row.now 3) }
    ensures shown { OnOk result (ShowsReturn row.now) }
{
    let _ = looked;
    if !shows_return(row) {
        return Err(CheckFault::ReturnAddressNotShown);
    }
    Ok(())
}

/// The fault of the least rank, if one is told at an item. Where it is known already that the entry values
/// of the six stand where their rules say, that is not asked again.
#[tactic(auto, using(crate::proofs::RankLemmas::first_frame, crate::proofs::RankLemmas::first_register, crate::proofs::RankLemmas::first_return, crate::proofs::RankLemmas::first_unfollowed))]
pub(crate) fn check_item(looked: &Looked, row: &WrittenRow, held: bool) -> Result<(), CheckFault>
    requires { IsTrue held → ShowsRegisters (seen looked.now).stands row.now }
    ensures first { IfErr result (IsFirst (seen looked.now) row.now) }
    ensures shown { OnOk result (IsShown (seen looked.now) row.now) }
{
    check_frame(looked, row)?;
    check_registers(looked, row, held)?;
    check_return(looked, row)?;
    match check_followed(looked) {
        Err(fault) => Err(CheckFault::Unfollowed(fault)),
        Ok(()) => Ok(()),
    }
}
