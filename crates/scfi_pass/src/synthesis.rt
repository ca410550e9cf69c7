//! From a function to its frame table.

ghost use Rattle.std.specs.Prelude.{◌≡◌, IfOk, length};
ghost use Rattle.flow_graph.specs.Nodes.{nodes_of};
ghost use Rattle.scfi_pass.specs.Synthesis.{IsTableOf, IsFaultOf};

use crate::item_ops::ItemOp;
use crate::tables::frame_table;
use crate::walked::{ItemFault, Walked};
use asm_base::{Refusal, Steps};
use code_functions::{CodeItem, Function};
use flow_graph::{FinalForms, Graph};
use stack_depths::depths;
use stack_facts::facts;
use std::alloc::Global;
use std::sync::ledger::Ledger;

/// The frame table of a function with this graph, or its first fault.
fn analyze<L: Ledger>(
    alloc: Global,
    items: &[CodeItem],
    graph: &Graph,
    steps: &mut Steps<L>,
) -> Result<Vec<ItemOp>, Refusal<ItemFault>>
    requires { length items.now ≡ length graph.now }
    ensures table { IfOk result (λ ops.
        IsTableOf items.now graph.now steps.old steps.new ops.items) }
    ensures fault { IsFaultOf items.now graph.now steps.old steps.new result }
{
    let known = depths(alloc, graph, items, steps)?;
    let standing = facts(alloc, graph, items, &known, steps)?;
    let walked = Walked {
        items,
        graph,
        depths: &known,
        facts: &standing,
    };
    frame_table(alloc, &walked)
}

/// The instructions of the frame table of a function, by what the forms of its section's fields
/// come to, or its first fault.
pub fn synthesize<L: Ledger>(
    alloc: Global,
    function: &Function,
    forms: &FinalForms,
    steps: &mut Steps<L>,
) -> Result<Vec<ItemOp>, Refusal<ItemFault>>
    ensures table { IfOk result (λ ops. IsTableOf function.now.items.now
        (nodes_of forms.now.symbols.now function.now.section forms.now.fields.now
        function.now.items.now) steps.old steps.new ops.items) }
    ensures fault { IsFaultOf function.now.items.now
        (nodes_of forms.now.symbols.now function.now.section forms.now.fields.now
        function.now.items.now) steps.old steps.new result }
{
    let graph = Graph::build(alloc, function, forms)?;
    analyze(alloc, function.items, &graph, steps)
}
