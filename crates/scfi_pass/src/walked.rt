//! A function whose walks were gone through.

ghost use Rattle.std.specs.Prelude.{◌≡◌, length};

use asm_base::ScfiFault;
use code_functions::CodeItem;
use flow_graph::Graph;
use stack_depths::DepthTable;
use stack_facts::FactTable;

/// The items of a function, its graph, and what is known and stands at each item.
#[derive(Clone, Copy)]
pub(crate) struct Walked<'a> {
    pub(crate) items: &'a [CodeItem],
    pub(crate) graph: &'a Graph,
    pub(crate) depths: &'a DepthTable,
    pub(crate) facts: &'a FactTable,
    ghost as_many: { length items.now ≡ length graph.now },
}

/// A fault, and the item at which it is told.
#[derive(Clone, Copy, Drop)]
pub struct ItemFault {
    pub item: usize,
    pub fault: ScfiFault,
}
