//! A function whose walks were gone through, and its written rows.

ghost use Rattle.std.specs.Prelude.{◌≡◌, length};
ghost use Rattle.cfi_checks.specs.Rows.{AreInOrder};

use crate::rows::RowFrom;
use code_functions::CodeItem;
use flow_graph::Graph;
use stack_depths::DepthTable;
use stack_facts::FactTable;

/// The items of a function, its graph, what is known and stands at each item, and the rows in the order of
/// their items.
#[derive(Clone, Copy)]
pub(crate) struct Checked<'a> {
    pub(crate) items: &'a [CodeItem],
    pub(crate) graph: &'a Graph,
    pub(crate) depths: &'a DepthTable,
    pub(crate) facts: &'a FactTable,
    pub(crate) rows: &'a [RowFrom],
    ghost as_many: { length items.now ≡ length graph.now },
    ghost in_order: { AreInOrder rows.now },
}
