//! What holds of a function as a procedure with the instructions of its frame table.

ghost use Rattle.synthesis_laws.specs.MeantRows.{TableFramesMeanRows};
ghost use Rattle.synthesis_laws.specs.TableFrames.{TableFramesAreWhole};

use crate::tables::{tables_can_be_written, tables_give_rows};

/// Where no place of a function is before the one before it, from its beginning over its items to its
/// end, the procedure with the instructions of its frame table, each at the place of its item, has
/// ended and is sound, and its places never fall either.
pub fn table_frames_are_whole()
    ensures { TableFramesAreWhole }
{
    tables_can_be_written();
}

/// Wherever places stand in their order, that procedure means so far from its beginning the row of
/// the last item up to there: by what is known and what stands at that item, where a walk leads to it.
pub fn table_frames_mean_rows()
    ensures { TableFramesMeanRows }
{
    tables_give_rows();
}
