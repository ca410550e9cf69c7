//! What is put stands within its section.

ghost use Rattle.section_laws.specs.Within.{PutsStayWithin};

/// Fields and items stand within the bytes of their section, in order, and each field counts the
/// items before it: each way to put something into the section keeps it so.
#[tactic(auto, using(crate::proofs::PutLemmas::puts_stay_within))]
pub fn puts_stay_within()
    ensures { PutsStayWithin }
{}
