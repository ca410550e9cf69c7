//! From the items of a function to their nodes.

ghost use Rattle.std.specs.Prelude.{◌≡◌, IfOk};
ghost use Rattle.insn_effects.specs.Flows.{through, returns};
ghost use Rattle.flow_graph.specs.declared.targets.Target.TheVariants.{Unknown};
ghost use Rattle.flow_graph.specs.Nodes as spec;

use crate::fields::FinalForms;
use crate::nodes::Node;
use crate::pointing::item_target;
use crate::targets::Target;
use asm_base::NoMemory;
use code_functions::{CodeItem, Function};
use insn_effects::Role;
use std::alloc::Global;

/// An item from which control may go on or not, and nowhere else.
#[inline(always)]
fn going_on(falls: bool) -> Node
    ensures { result ≡ record spec.ending { falls = falls } }
{
    Node {
        target: None,
        falls,
        exits: false,
        untraced: false,
        calls_inside: false,
    }
}

/// A direct jump, which may go on or not.
fn jump_node(falls: bool, target: Target) -> Node
    ensures { result ≡ spec.jump_node falls target }
{
    let mut node = going_on(falls);
    match target {
        Target::Inside { item, preemptible } => {
            node.target = Some(item);
            node.exits = preemptible;
        },
        Target::Outside => node.exits = true,
        Target::Unknown => {
            node.falls = false;
            node.untraced = true;
        },
    }
    node
}

/// A direct call.
fn call_node(target: Target) -> Node
    ensures { result ≡ spec.call_node target }
{
    let mut node = going_on(true);
    match target {
        Target::Inside { item, .. } => node.calls_inside = item != 0,
        Target::Outside => {},
        Target::Unknown => node.untraced = true,
    }
    node
}

/// A jump to what a register or memory holds.
#[inline(always)]
fn through_node() -> Node
    ensures { result ≡ spec.node_by through Unknown }
{
    let mut node = going_on(false);
    node.untraced = true;
    node
}

/// A return.
#[inline(always)]
fn return_node() -> Node
    ensures { result ≡ spec.node_by returns Unknown }
{
    let mut node = going_on(false);
    node.exits = true;
    node
}

/// The node of an item.
#[inline(always)]
pub(crate) fn node_of(
    alloc: Global,
    function: &Function,
    forms: &FinalForms,
    item: &CodeItem,
) -> Result<Node, NoMemory>
    ensures { IfOk result (λ made. made ≡ spec.node_of forms.now.symbols.now
        function.now.section forms.now.fields.now function.now.items.now item.now) }
{
    Ok(match item.effect.role {
        Role::Call => call_node(item_target(alloc, function, forms, item)?),
        Role::Jump => jump_node(false, item_target(alloc, function, forms, item)?),
        Role::Branch => jump_node(true, item_target(alloc, function, forms, item)?),
        Role::JumpThrough => through_node(),
        Role::Return | Role::ReturnPopping => return_node(),
        Role::Stop | Role::Data => going_on(false),
        Role::Other
        | Role::Move
        | Role::Push
        | Role::Pop
        | Role::PopMemory
        | Role::PopStack
        | Role::PushWord
        | Role::PopWord
        | Role::Store
        | Role::Load
        | Role::Leave
        | Role::CallThrough
        | Role::Padding => going_on(true),
    })
}
