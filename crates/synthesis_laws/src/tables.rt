//! Frame tables can be written and run, and give the rows of items.

ghost use Rattle.synthesis_laws.specs.RowsInForce.{TablesGiveRows};
ghost use Rattle.synthesis_laws.specs.WrittenTables.{TablesAreOfItems, TablesCanBeWritten};

use cfi_entries::{differences_lead, rows_stand_at_places};
use scfi_pass::rows_begin;

/// Each instruction of a frame table has a form, and all of them can be run from the row of the
/// common entry, whatever places they get: a procedure with them is sound.
pub fn tables_can_be_written()
    ensures { TablesCanBeWritten }
{
    differences_lead();
    rows_begin();
}

/// Wherever the items of a function stand, in order, the instructions of its frame table give at an
/// address the row of the last item up to it.
pub fn tables_give_rows()
    ensures { TablesGiveRows }
{
    differences_lead();
    rows_begin();
    rows_stand_at_places();
}

/// Each instruction of a frame table is told at an item of the function.
pub fn tables_are_of_items()
    ensures { TablesAreOfItems }
{}
