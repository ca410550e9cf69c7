//! What synthesis answers is one answer.

ghost use Rattle.synthesis_laws.specs.SomeAnswer.{FunctionsHaveAnswers};
ghost use Rattle.synthesis_laws.specs.OneAnswer.{AnalysesAreOne, AnswersAreOne, FaultsAreOne, RowsAreOne, TablesAreOne, TablesHaveNoFault};

/// Two analyses of the same items and nodes are one: the same walks, distances and facts. And an
/// analyzed function has one list of rows.
pub fn analyses_are_one()
    ensures analyses { AnalysesAreOne }
    ensures rows { RowsAreOne }
{}

/// An analyzed function of as many nodes as items has a frame table or a first fault.
pub fn functions_have_answers()
    ensures { FunctionsHaveAnswers }
{}

/// What synthesis answers of the same items and nodes is one answer, but for want of memory, and
/// whatever the counts of steps: two frame tables are one, and so are two faults; where there is a
/// table, there is no fault.
pub fn answers_are_one()
    ensures answers { AnswersAreOne }
    ensures tables { TablesAreOne }
    ensures faults { FaultsAreOne }
    ensures apart { TablesHaveNoFault }
{}
