//! What holds of the definitions.

ghost use Rattle.line_directives.specs.Meanings.{RowsAreMeant, RowsAreMade};
ghost use Rattle.line_directives.specs.WorkedLines.{WorkedLines};

/// The rows of each section are those that the directives mean there, one after the other: each `.loc` is one, with `is_stmt` and
/// `isa` as they stay from the `.loc` before it. They are made of the rows and their distances, as `line_rows` makes them.
pub fn directives_mean_rows()
    ensures meant { RowsAreMeant }
    ensures made { RowsAreMade }
{}

/// Directives of line tables and what they mean, worked out by hand.
#[tactic(auto, using(crate::proofs::WorkedLemmas::worked))]
pub fn worked_lines()
    ensures { WorkedLines }
{}
