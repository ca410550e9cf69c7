//! What holds of every source.

ghost use Rattle.std.specs.Prelude.{◌≡◌, ℕ, List, Some};
ghost use Rattle.asm_base.specs.Inputs.{Contents};
ghost use Rattle.asm_macro.specs.Placing.{untold};
ghost use Rattle.source_ends.specs.Ending.{Flags};
ghost use Rattle.source_ends.specs.declared.ending.NotedObject.{NotedObject};
ghost use Rattle.asm_front.specs.Assembly.{assembled, assembly_of, expansion_of, handed_of, SourceIsMade};
ghost use Rattle.asm_front.specs.Fitting.{ObjectIsReadable, StepFits};
ghost use Rattle.asm_front.specs.Made.{IsMadeOf};
ghost use Rattle.asm_front.specs.ReadsBack.{ReadsBack};

use crate::placers::SourcePlacer;
use asm_functions::{following_is_placing, functions_stand_in_order};
use asm_macro::handed_statements_are_placed;
use asm_place::sources_are_small;
use asm_relax::layouts_keep_sections;
use loc_laws::locs_read_back;
use object_laws::{groups_read, groups_stand, objects_fit, source_sections_found};
use readback_laws::{statements_read_back, tables_continue};
use source_ends::{ending_frames_are_ready, objects_are_finished};

/// Where contents are told, no file that a source starts is untold.
pub fn told_files_are_known()
    ensures { (flags : Flags) (contents : Contents) (name source : List ℕ)
        → expansion_of flags (Some contents) name source ≡ untold → ⊥ }
{}

/// The statements of a source that has an object are all placed and followed, and the object is that of the layout of what they
/// place with its frame table and its line table, in which all that was placed stands as it was.
pub fn objects_are_made()
    ensures { (flags : Flags) (contents : Contents) (name source : List ℕ) (made : NotedObject)
        (files : List (List ℕ)) → assembly_of flags contents name source ≡ assembled made files
        → SourceIsMade flags contents name source
        → IsMadeOf flags contents name source made.object }
{
    handed_statements_are_placed::<SourcePlacer>();
    following_is_placing();
    functions_stand_in_order();
    objects_are_finished();
    ending_frames_are_ready();
    tables_continue();
}

/// The object is that of a layout of all that the expansion of a source hands out. Each instruction of it stands in the object,
/// where the statements before it end, as bytes that read as it, with the values that its fields have there, and as no other
/// instruction. A direct jump, short or near, reads as the jump to its target: a label stands as far from the place behind the
/// jump as the jump's bytes say. The frame table of the procedures stands in the object: at each place of a procedure its
/// entry gives, by its bytes, the row that the procedure's directives mean there. Where frame tables are worked out of
/// functions, these stand in place of procedures, with the instructions of their tables. The line table gives by its bytes, for each
/// instruction behind a `.loc` of its section, the row of the last such `.loc`.
pub fn written_reads_back()
    ensures { (flags : Flags) (contents : Contents) (name source : List ℕ) (made : NotedObject)
        (files : List (List ℕ)) → assembly_of flags contents name source ≡ assembled made files
        → SourceIsMade flags contents name source
        → ReadsBack flags (handed_of flags contents name source) made.object }
{
    handed_statements_are_placed::<SourcePlacer>();
    following_is_placing();
    functions_stand_in_order();
    objects_are_finished();
    ending_frames_are_ready();
    statements_read_back();
    locs_read_back();
}

/// Where the program's own numbers fit, all numbers of the object fit their fields in the file, it has fewer headers than the
/// first reserved index, and a reader finds each section by its header, with its bytes where they stand in the file: at the
/// offset from which `written_reads_back` counts the places of instructions. The header of each group of sections lists
/// just the headers of its sections and of their relocations, just those have the flag `SHF_GROUP`, and no other header has
/// the type of a group.
pub fn written_is_readable()
    ensures { (flags : Flags) (contents : Contents) (name source : List ℕ) (made : NotedObject)
        (files : List (List ℕ)) → assembly_of flags contents name source ≡ assembled made files
        → SourceIsMade flags contents name source
        → StepFits flags (expansion_of flags (Some contents) name source)
        → ObjectIsReadable flags (handed_of flags contents name source) made.object }
{
    written_reads_back();
    handed_statements_are_placed::<SourcePlacer>();
    following_is_placing();
    sources_are_small();
    eh_frame::tables_add_little();
    line_table::tables_add_little();
    layouts_keep_sections();
    objects_fit();
    source_sections_found();
    groups_read();
    groups_stand();
}
