//! What holds of the forms of all expressions.

ghost use Rattle.std.specs.Prelude.{◌≡◌, ℕ, Ok};
ghost use Rattle.asm_expr.specs.Trees.{Tree};
ghost use Rattle.asm_expr.specs.Forms.{Form};
ghost use Rattle.asm_expr.specs.Coefficients.{AreAdded, IsSettled, IsReduced, KnowsReduced, IsEmptyExactly};
ghost use Rattle.asm_expr.specs.FormValues.{KeepsValue};
ghost use Rattle.asm_expr.specs.Knowledge.{Told, Knowledge};
ghost use Rattle.asm_expr.specs.Linear.{linear};

/// Forms are maps from symbols to coefficients, which are added symbol by symbol.
#[tactic(auto, using(crate::proofs::CoefficientLaws::are_added))]
pub fn coefficients_add()
    ensures { (one other : Form) → AreAdded one other }
{}

/// Settling takes out the labels of whole stretches that cancel, and nothing else.
pub fn whole_stretches_cancel()
    ensures { (told : ℕ → Told) (made : Form) → IsSettled told made }
{}

/// Settling leaves the value of a form as it was, wherever the stretches begin and whatever values
/// the other symbols have. `whole_stretches_cancel` takes the numbers of labels from the definition
/// that settling itself uses, and would hold of others too; by this law they are the right ones.
pub fn cancelled_labels_keep_the_value()
    ensures { (told : ℕ → Told) (made : Form) → KeepsValue told made }
{}

/// In the form of an expression no symbol stands twice, and each counts. The forms of the assigned
/// symbols that are known have to be as the forms of expressions are.
pub fn symbols_of_a_form_are_apart()
    ensures { (known : Knowledge) (tree : Tree) (made : Form)
        → KnowsReduced known → linear known tree ≡ Ok made → IsReduced made }
{}

/// The form of an expression has no term exactly where the coefficient of every symbol is 0.
#[tactic(auto, using(crate::proofs::ReducedForms::linear_empty))]
pub fn a_form_is_empty()
    ensures { (known : Knowledge) (tree : Tree) (made : Form)
        → KnowsReduced known → linear known tree ≡ Ok made → IsEmptyExactly made }
{}
