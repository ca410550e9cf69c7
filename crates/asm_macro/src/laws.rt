//! What holds of every list that is rewritten.

ghost use Rattle.std.specs.Prelude.{ℕ, List, Option};
ghost use Rattle.asm_base.specs.Inputs.{Contents};
ghost use Rattle.asm_lines.specs.NextStatements.{TokenStatement};
ghost use Rattle.macro_words.specs.Conditions.{Knowledge};
ghost use Rattle.asm_macro.specs.Laws.{Ends, HasOneOutcome, PlacesHanded, PlacesPlain, StaysShallow};

use asm_lines::Placer;

/// However many turns of a source's list are looked at, it has one outcome: its end, a fault, or a file that is not there.
pub fn one_outcome<P: Placer>()
    ensures { (known : P → Knowledge) → (files : List (List ℕ)) → (statements : List TokenStatement)
        → (contents : Option Contents) → (placer : P)
        → HasOneOutcome P.placed known files statements contents placer }
{}

/// A source without words of expansion is placed statement by statement.
pub fn plain_statements_are_placed<P: Placer>()
    ensures { (known : P → Knowledge) → (files : List (List ℕ)) → (statements : List TokenStatement)
        → (contents : Option Contents) → (placer : P)
        → PlacesPlain P.placed known files statements contents placer }
{}

/// Every list comes to its outcome: each turn takes a statement or an end mark away, and each end mark but the first comes of a statement.
pub fn expansions_end<P: Placer>()
    ensures { (known : P → Knowledge) → (files : List (List ℕ)) → (statements : List TokenStatement)
        → (contents : Option Contents) → (placer : P)
        → Ends P.placed known files statements contents placer }
{}

/// Where a list comes to its end, the statements that it handed out, placed in order, make what was made.
pub fn handed_statements_are_placed<P: Placer>()
    ensures { (known : P → Knowledge) → (files : List (List ℕ)) → (statements : List TokenStatement)
        → (contents : Option Contents) → (placer : P)
        → PlacesHanded P.placed known files statements contents placer }
{}

/// However many turns of a list are looked at, few files, calls and repeats are open.
pub fn lists_stay_shallow<P: Placer>()
    ensures { (known : P → Knowledge) → (files : List (List ℕ)) → (statements : List TokenStatement)
        → (contents : Option Contents) → (placer : P)
        → StaysShallow P.placed known files statements contents placer }
{}
