//! What holds of the graphs of all functions, and graphs that were worked out by hand.

ghost use Rattle.std.specs.Prelude.{ℕ, List};
ghost use Rattle.asm_base.specs.declared.places.Place.{Place};
ghost use Rattle.asm_expr.specs.Forms.{Form};
ghost use Rattle.asm_frags.specs.declared.fields.Field.{Field};
ghost use Rattle.asm_symbols.specs.SymbolMap.{SymbolMap};
ghost use Rattle.code_functions.specs.declared.items.CodeItem.{CodeItem};
ghost use Rattle.flow_graph.specs.declared.targets.Target.{Target};
ghost use Rattle.flow_graph.specs.Rules.{LastIsFound, LoneIsLeft, TargetIsLabel, ControlGoes, TellsOf, AreItems};
ghost use Rattle.flow_graph.specs.AddedLabels.{TargetsStay, NodesStay, GraphsStay};
ghost use Rattle.flow_graph.specs.Worked.{WorkedGraphs};

use assigned_forms::expansions_are_exact;

/// The item that is found at a place is the last one that begins there.
pub fn last_item_is_found()
    ensures { (items : List CodeItem) (place : Place) → LastIsFound items place }
{}

/// The one symbol of a form is what is left of it without the place of the field.
#[tactic(auto, using(crate::proofs::FieldLemmas::lone_is_left))]
pub fn lone_symbol_is_left()
    ensures { (form : Form) (symbol : ℕ) → LoneIsLeft form symbol }
{}

/// A field leads to an item where its form comes to a label at the place of the item.
pub fn targets_are_labels()
    ensures { (symbols : SymbolMap) (section : ℕ) (items : List CodeItem) (field : Field)
        → TargetIsLabel symbols section items field }
{}

/// Where control goes from each kind of item, and which items are exits.
#[tactic(auto, using(crate::proofs::RuleLemmas::control))]
pub fn control_goes()
    ensures { (symbols : SymbolMap) (section : ℕ) (fields : List Field) (items : List CodeItem)
        (item : ℕ) (target : Target) → ControlGoes symbols section fields items item target }
{}

/// Which items are untraced, and which call a label inside other than that of the first item.
#[tactic(auto, using(crate::proofs::RuleLemmas::tells))]
pub fn refusals_are_told()
    ensures { (symbols : SymbolMap) (section : ℕ) (fields : List Field) (items : List CodeItem)
        (item : ℕ) (target : Target) → TellsOf symbols section fields items item target }
{}

/// Each successor is an item of the function: the next one, or the target of a direct jump.
pub fn successors_are_items()
    ensures { (symbols : SymbolMap) (section : ℕ) (fields : List Field) (items : List CodeItem)
        → AreItems symbols section fields items }
{}

/// Labels that come behind all symbols change no target and no node, where forms name symbols that
/// were there, and lead back to none of their own symbols.
pub fn added_labels_change_no_target()
    ensures targets { TargetsStay }
    ensures nodes { NodesStay }
    ensures graphs { GraphsStay }
{
    expansions_are_exact();
}

/// The graphs of some functions, worked out by hand.
#[tactic(auto, using(crate::proofs::Worked::worked))]
pub fn worked_graphs()
    ensures { WorkedGraphs }
{}
