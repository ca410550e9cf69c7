//! What holds of rows that are shown, and tables that were checked by hand.

ghost use Rattle.cfi_checks.specs.Faults.{ShownRowsHaveNoFault};
ghost use Rattle.cfi_checks.specs.Worked.{AreWorkedRows, IsWorkedFault};

/// A row that is shown at an item has no fault there.
#[tactic(auto, using(crate::proofs::RankLemmas::no_fault))]
pub fn shown_rows_have_no_fault()
    ensures { ShownRowsHaveNoFault }
{}

/// Rows that are shown, and two that are not, of functions of a few items.
#[tactic(auto, using(crate::proofs::WorkedLemmas::worked_rows, crate::proofs::WorkedLemmas::worked_fault))]
pub fn worked_checks()
    ensures rows { AreWorkedRows }
    ensures fault { IsWorkedFault }
{}
