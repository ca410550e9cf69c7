//! What holds of every end of a source.

ghost use Rattle.std.specs.Prelude.{◌≡◌, Err, false};
ghost use Rattle.asm_functions.specs.FollowedSource.{FollowedSource};
ghost use Rattle.asm_place.specs.Faults.{is_file_too_large};
ghost use Rattle.asm_place.specs.declared.place_faults.FaultAt.{FaultAt};
ghost use Rattle.source_ends.specs.Synthesis.{FunctionsAreReady, IsSynthesis, Synthesis};
ghost use Rattle.source_ends.specs.Ending.{Flags, followed_end};
ghost use Rattle.source_ends.specs.Finished.{EndingFramesAreReady, ObjectsAreFinished};

use synthesis_laws::{answers_are_one, synthesis_sees, tables_are_of_items, tables_can_be_written};

/// Only the reading of files calls one too large: the end of a source does not.
pub fn the_end_is_no_reading()
    ensures { (flags : Flags) (f : FollowedSource) (fault : FaultAt)
        → followed_end flags f ≡ Err fault → is_file_too_large fault.fault ≡ false }
{}

/// What the functions of a source come to is one thing: of all that was placed and followed there is one synthesis.
pub fn synthesis_is_one()
    ensures { (f : FollowedSource) (one other : Synthesis) → IsSynthesis f one → IsSynthesis f other
        → one ≡ other }
{
    answers_are_one();
    synthesis_sees();
}

/// Functions that stand in order are ready to be analyzed.
pub fn functions_are_ready()
    ensures { FunctionsAreReady }
{}

/// The object at the end of a source is that of a layout of what was placed with its frame table and its line table.
pub fn objects_are_finished()
    ensures { ObjectsAreFinished }
{}

/// Where there is an object, no procedure is open, and the frames that were worked out of functions that stand in order cover
/// places of their sections.
pub fn ending_frames_are_ready()
    ensures { EndingFramesAreReady }
{
    tables_can_be_written();
    tables_are_of_items();
}
