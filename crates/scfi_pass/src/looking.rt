//! An item of a function, and what is known and stands there.

use code_functions::CodeItem;
use flow_graph::Node;
use stack_depths::DepthTable;
use stack_facts::FactTable;

/// An item that is looked at.
#[derive(Clone, Copy)]
pub struct Looked<'a> {
    /// What is known at each item of the function.
    pub depths: &'a DepthTable,
    /// What stands at each item.
    pub facts: &'a FactTable,
    /// Which of the items it is.
    pub place: usize,
    pub item: CodeItem,
    /// Where control goes from it.
    pub node: Node,
    /// Whether it is the last one.
    pub last: bool,
}
