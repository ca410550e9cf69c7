//! How statements are spelled that expansion hands out.

ghost use Rattle.std.specs.Prelude.{ℕ, List, Option};
ghost use Rattle.asm_base.specs.Inputs.{Contents};
ghost use Rattle.asm_lines.specs.NextStatements.{TokenStatement};
ghost use Rattle.macro_words.specs.Conditions.{Knowledge};
ghost use Rattle.expansion_laws.specs.Handing.{HandsBytes, HandsSpelled, PartsAreSpelled};

use asm_lines::Placer;
use form_laws::tokens_are_in_bytes;

/// Where files are bytes, a list of statements that are spelled in bytes hands out such statements.
pub fn handed_statements_are_spelled<P: Placer>()
    ensures { (known : P → Knowledge) → (files : List (List ℕ)) → (statements : List TokenStatement)
        → (contents : Option Contents) → (placer : P)
        → HandsSpelled P.placed known files statements contents placer }
{
    tokens_are_in_bytes();
}

/// So does the list of a source that is bytes.
pub fn handed_of_bytes_are_spelled<P: Placer>()
    ensures { (known : P → Knowledge) → (files : List (List ℕ)) → (contents : Option Contents)
        → (placer : P) → HandsBytes P.placed known files contents placer }
{
    tokens_are_in_bytes();
}

/// What is placed of such statements is spelled in bytes.
pub fn placed_parts_are_spelled()
    ensures { PartsAreSpelled }
{}
