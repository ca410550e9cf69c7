//! What holds of the number of rounds.

ghost use Rattle.std.specs.Prelude.{◌≡◌, ℕ};
ghost use Rattle.asm_symbols.specs.SymbolMap.{SymbolMap};
ghost use Rattle.asm_relax.specs.Settling.{LaidSections, LooseSections, IsLaidOut, planned};
ghost use Rattle.layout_counts.specs.Counted.{rounds_of};

use asm_levels::needs_stay_within_tops;
use level_ranks::{one_ranking, one_round_more, rounds_are_few, rounds_reach_the_layout};

/// The rounds that a layout takes are those that are counted: one more than raise a level.
pub fn rounds_are_counted()
    ensures { (map : SymbolMap) (sections : LooseSections) (laid : LaidSections) (rounds : ℕ)
        → IsLaidOut map (planned map sections) laid rounds → rounds ≡ rounds_of map sections }
{
    needs_stay_within_tops();
    one_ranking();
    one_round_more();
    rounds_are_few();
    rounds_reach_the_layout();
}
