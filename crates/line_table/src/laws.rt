//! What the definitions come to.

ghost use Rattle.std.specs.Prelude.{◌≡◌, ◌↔◌, ℕ, All, IsSome, None, Some, Ok, Err};
ghost use Rattle.asm_base.specs.declared.causes.FragCause.TheVariants.{BadSection};
ghost use Rattle.asm_base.specs.declared.positions.Pos.{Pos as PosValue};
ghost use Rattle.section_laws.specs.Within.{IsWithin};
ghost use Rattle.line_directives.specs.Taking.{LineTable};
ghost use Rattle.table_pieces.specs.Labels.{GetsLabels};
ghost use Rattle.table_pieces.specs.Pieces.{Tables};
ghost use Rattle.table_pieces.specs.Standing.{OneExtends};
ghost use Rattle.line_table.specs.Additions.{OthersStay, TablesAddLittle};
ghost use Rattle.line_table.specs.Counts.{LabelsAreFew};
ghost use Rattle.line_table.specs.FoundTables.{IsPlaced};
ghost use Rattle.line_table.specs.ListedFiles.{FilesAreListed};
ghost use Rattle.line_table.specs.Placing.{placed, table_put};
ghost use Rattle.line_table.specs.Refused.{HasTakenTable};
ghost use Rattle.line_table.specs.StandingLines.{LabelsStand};
ghost use Rattle.line_table.specs.WorkedTables.{WorkedTables};

use line_directives::directives_mean_rows;
use table_pieces::{
    pieces_are_counted, pieces_are_found, pieces_bring_standing_labels, pieces_stand_behind,
    places_are_named, sections_keep_places,
};

/// A table stands behind all that was in its section, and all other sections stay as they are.
pub fn tables_stand_behind()
    ensures { (section : ℕ) (pos : PosValue) (lines : LineTable) (tables : Tables)
        → OneExtends section tables.sections (table_put section pos lines tables).sections }
{
    pieces_stand_behind();
}

/// A table adds labels of places alone to the symbols, behind them all.
pub fn tables_get_labels()
    ensures { (section : ℕ) (pos : PosValue) (lines : LineTable) (tables : Tables)
        → GetsLabels tables.symbols (table_put section pos lines tables).symbols }
{
    places_are_named();
}

/// A table is refused exactly where there is a `.file` with a number and `.debug_line` has the type `SHT_NOBITS`, or has
/// items or plain bytes; without such a `.file` nothing is put.
pub fn zeros_are_refused()
    ensures exactly { (lines : LineTable) (tables : Tables) → (placed lines tables ≡ Err BadSection)
        ↔ (IsSome lines.first × HasTakenTable tables.sections) }
    ensures nothing { (lines : LineTable) (tables : Tables) → lines.first ≡ None
        → placed lines tables ≡ Ok tables }
{}

/// Line tables worked out by hand.
#[tactic(auto, using(crate::proofs::WorkedLemmas::worked))]
pub fn worked_tables()
    ensures { WorkedTables }
{}

/// The pieces of a table stand in its section in the end, one behind the other from its beginning to its end, where the
/// fields and items of all sections stand within their bytes; and they still do.
pub fn tables_are_found()
    ensures { (pos : PosValue) (lines : LineTable) (tables after : Tables) → lines.first ≡ Some pos
        → All IsWithin tables.sections → placed lines tables ≡ Ok after
        → IsPlaced pos lines tables after }
{
    pieces_stand_behind();
    pieces_are_found();
}

/// A table brings at most one section, `.debug_line`, and symbols whose names take no bytes; sections keep their names
/// and types, and groups and files stay.
pub fn tables_add_little()
    ensures { TablesAddLittle }
{
    pieces_stand_behind();
    places_are_named();
}

/// Each section but `.debug_line` stays as it was.
pub fn others_stay()
    ensures { OthersStay }
{
    pieces_stand_behind();
    pieces_are_found();
    places_are_named();
}

/// Where the places of rows stand in their sections, so do those of the labels that their table brings: each is one of a row,
/// or the end of a section with rows, or of the table itself.
pub fn labels_stand()
    ensures { LabelsStand }
{
    directives_mean_rows();
    pieces_stand_behind();
    pieces_are_found();
    pieces_bring_standing_labels();
    sections_keep_places();
}

/// A table of directives brings no more labels than its section has bytes.
pub fn labels_are_few()
    ensures { LabelsAreFew }
{
    directives_mean_rows();
    pieces_are_counted();
}

/// The header lists each file that a directive gives under its number, with its name and its directory, and no directory twice.
pub fn files_are_listed()
    ensures { FilesAreListed }
{}
