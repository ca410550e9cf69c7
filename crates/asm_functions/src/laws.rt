//! What holds of all that is followed.

ghost use Rattle.std.specs.Prelude.{◌≡◌, ◌≢◌, ℕ, Bool, List, All, map, Ok, Err, Some, slice_get, false};
ghost use Rattle.asm_lines.specs.NextStatements.{TokenStatement};
ghost use Rattle.asm_lines.specs.Placing.{placed_in_order};
ghost use Rattle.asm_place.specs.Faults.{is_file_too_large};
ghost use Rattle.asm_operands.specs.Operands.{begins_with_label};
ghost use Rattle.asm_values.specs.State.{Placed};
ghost use Rattle.asm_place.specs.Bodies.{body_of};
ghost use Rattle.asm_place.specs.Sources.{place, place_all};
ghost use Rattle.asm_place.specs.declared.place_faults.FaultAt.{FaultAt};
ghost use Rattle.asm_frags.specs.Writing.{LooseSection};
ghost use Rattle.code_functions.specs.declared.items.CodeItem.{CodeItem};
ghost use Rattle.code_functions.specs.InOrder.{AreInOrder};
ghost use Rattle.code_functions.specs.Recorded.{Recorded, items_of};
ghost use Rattle.code_functions.specs.Seen.{all_seen};
ghost use Rattle.asm_functions.specs.FollowedSource.{FollowedSource, nothing_followed, place_of, place_followed, follow_all, functions_at_end, placed_alone, placed_part};
ghost use Rattle.asm_functions.specs.Standing.{StandsInOrder};
ghost use Rattle.asm_functions.specs.Following.{end_of};
ghost use Rattle.asm_functions.specs.Joined.{body_put, PutsInto, IsJoined};
ghost use Rattle.asm_functions.specs.Worked.{WorkedSteps};

use asm_place::{
    labels_change_symbols, places_stand, placing_grows, placing_is_not_reading, placing_within,
    statements_put_into_one_section, statements_split,
};

/// Statements that are followed as they are handed out are followed in order.
#[tactic(auto, using(crate::proofs::FollowingLaws::in_order))]
pub fn following_in_order()
    ensures { (statements : List TokenStatement) (before : FollowedSource)
        → placed_in_order (λ followed statement. place_followed statement followed) before
        statements ≡ follow_all statements before }
{}

/// What is placed of statements that are followed is what placing alone makes of them; of a directive
/// of a frame table the labels alone are placed where functions are asked for. Where they are not,
/// following is placing, and its faults are those of placing.
pub fn following_is_placing()
    ensures placed { (statements : List TokenStatement) (before f : FollowedSource)
        → follow_all statements before ≡ Ok f
        → place_all (map (placed_part before.asked) statements) before.placed ≡ Ok f.placed }
    ensures asked { (statements : List TokenStatement) (before f : FollowedSource)
        → follow_all statements before ≡ Ok f → f.asked ≡ before.asked }
    ensures unasked { (statements : List TokenStatement) (before : FollowedSource)
        → before.asked ≡ false
        → follow_all statements before ≡ placed_alone statements before }
{
    statements_split();
}

/// The functions of a source begin inside their sections, and so do their items, in order from there;
/// those that have ended have ended behind their items. So it is too once all have ended at the end
/// of their sections.
pub fn functions_stand_in_order()
    ensures so_far { (statements : List TokenStatement) (no_warn asked : Bool) (f : FollowedSource)
        → follow_all statements (nothing_followed no_warn asked) ≡ Ok f
        → All (StandsInOrder f.placed.sections) f.functions }
    ensures whole { (statements : List TokenStatement) (no_warn asked : Bool) (f : FollowedSource)
        → follow_all statements (nothing_followed no_warn asked) ≡ Ok f
        → All (StandsInOrder f.placed.sections) (functions_at_end f) }
{
    placing_grows();
    placing_within();
    places_stand();
}

/// The items of a function that stands in order are in the order of their places.
pub fn standing_items_are_in_order()
    ensures { (sections : List LooseSection) (functions : List (Recorded CodeItem)) (number : ℕ)
        → All (StandsInOrder sections) (all_seen functions)
        → AreInOrder (items_of number functions) }
{}

/// A statement without labels that moves the end of a section puts an item into it, at the end that was.
pub fn moves_are_items()
    ensures { (s : TokenStatement) (before after : Placed) (number : ℕ) (held : LooseSection)
        → begins_with_label s.tokens ≡ false → place s before ≡ Ok after
        → slice_get before.sections number ≡ Some held
        → end_of after.sections number ≢ end_of before.sections number
        → PutsInto before number (body_put (body_of s.tokens) (place_of s) s.tokens before after) }
{
    statements_put_into_one_section();
}

/// The items of a function are all that its section gets from the function's beginning to its end: each
/// is what one statement put there, the first begins where the function does, each other one where the
/// one before it ends, and the last one ends where the function has ended, or where its section ends so
/// far. So it is too once all have ended at the end of their sections.
pub fn items_are_joined()
    ensures so_far { (statements : List TokenStatement) (no_warn asked : Bool) (f : FollowedSource)
        → follow_all statements (nothing_followed no_warn asked) ≡ Ok f
        → All (IsJoined statements (nothing_followed no_warn asked) f.placed.sections) f.functions }
    ensures whole { (statements : List TokenStatement) (no_warn asked : Bool) (f : FollowedSource)
        → follow_all statements (nothing_followed no_warn asked) ≡ Ok f
        → All (IsJoined statements (nothing_followed no_warn asked) f.placed.sections)
        (functions_at_end f) }
{
    placing_grows();
    places_stand();
    labels_change_symbols();
    statements_split();
    statements_put_into_one_section();
}

/// Only the reading of a file calls it too large: no step of following does.
pub fn following_is_not_reading()
    ensures one { (statement : TokenStatement) (before : FollowedSource) (stop : FaultAt)
        → place_followed statement before ≡ Err stop → is_file_too_large stop.fault ≡ false }
    ensures all { (statements : List TokenStatement) (before : FollowedSource) (stop : FaultAt)
        → follow_all statements before ≡ Err stop → is_file_too_large stop.fault ≡ false }
{
    placing_is_not_reading();
}

/// Steps that were worked out by hand.
#[tactic(auto, using(crate::proofs::Worked::worked))]
pub fn worked_steps()
    ensures { WorkedSteps }
{}
