//! How many labels a frame table brings.

ghost use Rattle.frame_laws.specs.LabelCounts.{LabelsAreFew};

use table_pieces::{ends_are_counted, pieces_are_counted};

/// A frame table brings no more labels than twice the bytes of its section, where each instruction has a form.
pub fn labels_are_few()
    ensures { LabelsAreFew }
{
    ends_are_counted();
    pieces_are_counted();
}
