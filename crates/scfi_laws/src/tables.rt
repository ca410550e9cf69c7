//! Frame tables of synthesized functions.

ghost use Rattle.scfi_laws.specs.TableLaws.{TablesRecover, TablesRestore};

use synthesis_laws::{analyses_are_one, table_frames_mean_rows};

/// Along each kept execution over bytes the procedure with the frame table of a function means at each
/// place a row that recovers the caller, and at exits registers are as at entry.
pub fn tables_recover()
    ensures rows { TablesRecover }
    ensures exits { TablesRestore }
{
    analyses_are_one();
    table_frames_mean_rows();
}
