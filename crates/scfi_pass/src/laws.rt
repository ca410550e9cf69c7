//! What holds of rows, and a function that was worked out by hand.

ghost use Rattle.std.specs.Prelude.{◌≡◌};
ghost use Rattle.cfi_rows.specs.Rows.{common_row};
ghost use Rattle.scfi_pass.specs.Rows.{whole_row};
ghost use Rattle.scfi_pass.specs.Tables.{entry_row};
ghost use Rattle.scfi_pass.specs.Worked.{AreWorkedDistances, AreWorkedFacts, AreWorkedRows};

/// The row before the first item is that of the common entry.
#[tactic(auto, using(crate::proofs::ChangingLemmas::common))]
pub fn rows_begin()
    ensures { whole_row entry_row ≡ common_row }
{}

/// The distances, facts, rows and instructions of a function of four items.
#[tactic(auto, using(crate::proofs::WorkedLemmas::worked_distances, crate::proofs::WorkedLemmas::worked_facts, crate::proofs::WorkedLemmas::worked_rows))]
pub fn worked_function()
    ensures distances { AreWorkedDistances }
    ensures facts { AreWorkedFacts }
    ensures rows { AreWorkedRows }
{}
