//! What synthesis sees of items.

ghost use Rattle.synthesis_laws.specs.Sights.{AnswersAreSeen, FaultsAreSeen, NodesAreSeen, SeenLookAlike, TablesAreSeen};

/// Items that look alike have the same nodes, frame tables and faults: of an item no more tells than
/// what is followed of it, where control goes from it, whether its use of the stack is supported,
/// whether it is an instruction, where it begins, and the field of its target. So what synthesis
/// answers of them is one answer, but for want of memory.
pub fn synthesis_sees()
    ensures seen { SeenLookAlike }
    ensures tables { TablesAreSeen }
    ensures faults { FaultsAreSeen }
    ensures nodes { NodesAreSeen }
    ensures answers { AnswersAreSeen }
{}
