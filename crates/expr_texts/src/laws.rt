//! What holds of the texts and trees of all expressions, and of all folds over them.

ghost use Rattle.std.specs.Prelude.{◌≡◌, ◌≤◌, ◌+◌, ℕ, true, false, List, Ok, length};
ghost use Rattle.std.specs.List.{list_all};
ghost use Rattle.asm_base.specs.Tokens.{SpelledToken, tokens_of};
ghost use Rattle.asm_expr.specs.Trees.{Tree, height};
ghost use Rattle.asm_expr.specs.Folds.{Folds};
ghost use Rattle.expr_texts.specs.Parts.{EachCall, RisesBy, RisesByAtMost, parts};
ghost use Rattle.expr_texts.specs.Leaves.{leaf_of};
ghost use Rattle.expr_texts.specs.Reading.{ReadTree, reading_of};
ghost use Rattle.expr_texts.specs.Grammar.{IsTextOf, IsFoundIn, IsReadAs, operator_follows};
ghost use Rattle.expr_texts.specs.Failing.{HasFaultExactly};
ghost use Rattle.asm_expr.specs.declared.faults.ExprCause.{ExprCause};
ghost use Rattle.expr_texts.specs.Shown.{is_byte, IsShowable, IsReadBack};

use asm_base::one_value;
use asm_expr::ExprFold;

/// A text of a tree is read as that tree, whatever stands before it, and whatever stands behind it
/// that is no operator.
#[tactic(auto, using(crate::proofs::GrammarLaws::text_is_read))]
pub fn written_is_read()
    ensures { (tree : Tree) (before text behind : List SpelledToken)
        → IsTextOf tree text → operator_follows behind ≡ false → IsReadAs tree before text behind }
{}

/// What is read as a tree begins with a text of it, up to where no operator follows.
#[tactic(auto, using(crate::proofs::GrammarLaws::read_is_text))]
pub fn read_is_written()
    ensures { (tokens : List SpelledToken) (at : ℕ) (found : ReadTree)
        → reading_of tokens at ≡ Ok found → IsFoundIn tokens at found }
{}

/// A text has one tree.
#[tactic(auto, using(crate::proofs::GrammarLaws::text_has_one_tree))]
pub fn one_tree()
    ensures { (one other : Tree) (text : List SpelledToken)
        → IsTextOf one text → IsTextOf other text → one ≡ other }
{}

/// What a token alone spells is a tree of one node.
#[tactic(auto, using(crate::proofs::LeafLemmas::leaf_height))]
pub fn leaves_are_single()
    ensures { (token : SpelledToken) (tree : Tree) → leaf_of token ≡ Ok tree → height tree ≡ 1 }
{}

/// A fold calls its visitor once for each part of the tree: a measure of the visitor that each call
/// raises by one is raised by the number of parts, and one that a call raises by one at most by no
/// more.
pub fn each_part_counts_once<V: ExprFold>()
    ensures exactly { (count : V → ℕ)
        → EachCall V.num_gives V.name_gives V.here_gives V.unary_gives V.binary_gives
        (RisesBy count 1)
        → (tree : Tree) (first : V) (answer : V.Out) (last : V)
        → Folds V.num_gives V.name_gives V.here_gives V.unary_gives V.binary_gives
        tree first answer last → RisesBy count (parts tree) first last }
    ensures at_most { (count : V → ℕ)
        → EachCall V.num_gives V.name_gives V.here_gives V.unary_gives V.binary_gives
        (RisesByAtMost count 1)
        → (tree : Tree) (first : V) (answer : V.Out) (last : V)
        → Folds V.num_gives V.name_gives V.here_gives V.unary_gives V.binary_gives
        tree first answer last → RisesByAtMost count (parts tree) first last }
{}

/// A tree has no more parts than its text has tokens, and than the tokens that it was read from.
#[tactic(auto, using(crate::proofs::PartCounts::text_parts, crate::proofs::PartCounts::found_parts))]
pub fn parts_are_few()
    ensures text { (tree : Tree) (text : List SpelledToken)
        → IsTextOf tree text → parts tree ≤ length text }
    ensures found { (tokens : List SpelledToken) (at : ℕ) (found : ReadTree)
        → IsFoundIn tokens at found → at + parts found.tree ≤ found.next }
{}

/// The reading of an expression has a fault exactly where the expression fails for it: at the first
/// place from the left where no text of the grammar goes on, or where a text is beyond the limits.
pub fn faults_of_an_expression()
    ensures { (tokens : List SpelledToken) (cause : ExprCause) → HasFaultExactly tokens cause }
{}

/// The shown text of an expression that has any text is read as the expression, whole; so is that
/// of what was read from the bytes of a statement.
pub fn shown_is_read()
    ensures tree { (tree : Tree) (text : List SpelledToken)
        → IsTextOf tree text → IsShowable tree → IsReadBack tree }
    ensures statement { (statement : List ℕ) (at : ℕ) (found : ReadTree)
        → list_all is_byte statement ≡ true → reading_of (tokens_of statement) at ≡ Ok found
        → IsReadBack found.tree }
{
    one_value();
}
