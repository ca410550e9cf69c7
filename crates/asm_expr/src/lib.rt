//! Expressions: their trees, and what they count.
#![tactic(auto)]

mod arithmetic;
mod evaluating;
mod faults;
mod folding;
mod forms;
mod gathering;
mod ids;
mod knowledge;
mod laws;
mod naming;
mod settling;
mod summing;
mod trees;
mod visiting;
mod visitors;

pub use arithmetic::{combined, turned};
pub use evaluating::{form_of, settled_difference, settled_sum, value_of};
pub use faults::{ExprCause, ExprFault};
pub use folding::fold;
pub use forms::{
    BoxedForm, Linear, Term, constant_form, copied_form, symbol_and_number, symbol_form,
};
pub use gathering::{Names, names_of};
pub use ids::SymId;
pub use knowledge::{Known, Look};
pub use laws::{
    a_form_is_empty, cancelled_labels_keep_the_value, coefficients_add,
    symbols_of_a_form_are_apart, whole_stretches_cancel,
};
pub use naming::{Name, Spelling};
pub use settling::{settled, settled_value};
pub use summing::plus_times;
pub use trees::{BinaryOp, Expr, UnaryOp, Written};
pub use visiting::ExprFold;
pub use visitors::{KnownNow, ToLinear, known_value, linear_form};
