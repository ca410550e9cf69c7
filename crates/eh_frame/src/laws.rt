//! What the definitions come to.

ghost use Rattle.std.specs.Prelude.{◌≡◌, ◌↔◌, ℕ, List, [], ◌∷◌, All, Ok, Err};
ghost use Rattle.section_laws.specs.Within.{IsWithin};
ghost use Rattle.eh_frame.specs.FoundTables.{IsPlaced};
ghost use Rattle.asm_base.specs.declared.causes.FragCause.TheVariants.{BadSection};
ghost use Rattle.cfi_directives.specs.declared.frames.Frame.{Frame as FrameValue};
ghost use Rattle.table_pieces.specs.Labels.{GetsLabels};
ghost use Rattle.table_pieces.specs.Pieces.{Tables};
ghost use Rattle.table_pieces.specs.Standing.{OneExtends};
ghost use Rattle.eh_frame.specs.Placing.{Putting, entries_put, placed, table_put};
ghost use Rattle.eh_frame.specs.Additions.{TablesAddLittle};
ghost use Rattle.eh_frame.specs.Sharing.{CommonsAreFirst, SharingIsEquality, TablesAreListed};
ghost use Rattle.eh_frame.specs.Refused.{HasZerosAlone};
ghost use Rattle.eh_frame.specs.WorkedTables.{WorkedTables};
ghost use Rattle.eh_frame.specs.StandingFrames.{LabelsStand};
ghost use Rattle.eh_frame.specs.Reading.{EntriesRead, RowsAreMeant};

use cfi_entries::entries_read_back;
use item_bytes::advances_hold_their_distance;
use table_pieces::{
    ends_are_counted, pieces_are_found, pieces_bring_standing_labels, pieces_stand_behind,
    places_are_named, sections_keep_places,
};

/// Wherever places stand, and whatever sizes layout gives to the advances and the padding, if each advance holds its
/// distance: the bytes of the CIE, with any pointer to the personality, and of an entry read, at each place, as the
/// row that the directives of the entry's procedure mean there, and none where it has ended.
pub fn entries_read()
    ensures read { EntriesRead }
    ensures meant { RowsAreMeant }
{
    entries_read_back();
    advances_hold_their_distance();
}

/// Procedures share a CIE exactly where they have one personality and their pointers are written alike. A table is put as the
/// list of its entries says: for each procedure its CIE, unless an earlier procedure shares one, then its FDE. Each FDE leads
/// to the CIE of the first procedure that shares it.
pub fn commons_are_shared()
    ensures equal { SharingIsEquality }
    ensures listed { TablesAreListed }
    ensures first { CommonsAreFirst }
{}

/// A table stands behind all that was in its section, which stays as it is, and so do all other sections.
pub fn tables_stand_behind()
    ensures entries { (section : ℕ) (frames : List FrameValue) (putting : Putting)
        → OneExtends section putting.tables.sections
        (entries_put section frames putting).tables.sections }
    ensures table { (section : ℕ) (first : FrameValue) (frames : List FrameValue) (tables : Tables)
        → OneExtends section tables.sections (table_put section first frames tables).sections }
{
    pieces_stand_behind();
}

/// A table adds labels of places alone to the symbols, behind them all.
pub fn tables_get_labels()
    ensures { (section : ℕ) (first : FrameValue) (frames : List FrameValue) (tables : Tables)
        → GetsLabels tables.symbols (table_put section first frames tables).symbols }
{
    places_are_named();
}

/// A table is refused exactly where there is a procedure and `.eh_frame` has the type `SHT_NOBITS`; without a procedure
/// nothing is put.
pub fn zeros_are_refused()
    ensures exactly { (frames : List FrameValue) (tables : Tables)
        → (placed frames tables ≡ Err BadSection)
        ↔ ((frames ≡ [] → ⊥) × HasZerosAlone tables.sections) }
    ensures nothing { (tables : Tables) → placed [] tables ≡ Ok tables }
{}

/// Frame tables worked out by hand.
#[tactic(auto, using(crate::proofs::WorkedLemmas::worked))]
pub fn worked_tables()
    ensures { WorkedTables }
{}

/// The CIEs and the entries of a table stand in its section in the end, each where its end is counted to be, where
/// the fields and items of all sections stand within their bytes; and they still do.
pub fn tables_are_found()
    ensures { (frame : FrameValue) (frames : List FrameValue) (tables after : Tables)
        → All IsWithin tables.sections → placed (frame ∷ frames) tables ≡ Ok after
        → IsPlaced frame frames tables after }
{
    pieces_stand_behind();
    pieces_are_found();
}

/// A table brings at most one section, `.eh_frame`, and symbols whose names take no bytes; sections keep their
/// names and types, and groups and files stay.
pub fn tables_add_little()
    ensures { TablesAddLittle }
{
    pieces_stand_behind();
    places_are_named();
}

/// Where the places of procedures stand in their sections, so do those of the labels that their table brings: each is one
/// of a procedure, or of the table itself.
pub fn labels_stand()
    ensures { LabelsStand }
{
    ends_are_counted();
    pieces_stand_behind();
    pieces_are_found();
    pieces_bring_standing_labels();
    sections_keep_places();
}
