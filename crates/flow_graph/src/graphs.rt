//! The graph of a function.

ghost use Rattle.std.specs.Prelude.{◌≡◌, [], ◌∷◌, ◌++◌, OnOk};

use crate::fields::FinalForms;
use crate::making::node_of;
use crate::nodes::Node;
use arrayvec::ArrayVec;
use asm_base::NoMemory;
use code_functions::Function;
use std::alloc::{AllocError, Global};
use std::marker::Model;

/// The graph of a function: a node for each item.
#[derive(Drop)]
pub struct Graph {
    nodes: Vec<Node>,
}

impl Model for Graph {
    ghost use Rattle.std.specs.Prelude.{List};
    ghost use Rattle.flow_graph.specs.declared.nodes.Node.{Node};
    ghost use Rattle.flow_graph.specs.Walks.{IsInside};

    ghost Value = { List Node };

    ghost view = { λ graph. graph.nodes.items };

    ghost invariant = { λ graph. IsInside graph.nodes.items };
}

/// Puts a node last, at once where there is room for it.
#[inline(always)]
fn put_last(nodes: &mut Vec<Node>, node: Node) -> Result<(), AllocError>
    ensures { OnOk result (nodes.new.items ≡ nodes.old.items ++ node ∷ []) }
{
    if nodes.len() < nodes.capacity() {
        nodes.push_reserved(node);
        return Ok(());
    }
    Ok(nodes.push(node)?)
}

impl Graph {
    ghost use Rattle.std.specs.Prelude.{◌≡◌, ◌<◌, ◌∷◌, [], length, slice_get, Some, false, IfOk, IfSome};
    ghost use Rattle.std.specs.Option.{option_map_or};
    ghost use Rattle.flow_graph.specs.Nodes.{nodes_of};
    ghost use Rattle.flow_graph.specs.Walks.{successors, IsInside};

    /// The graph of a function, by what the forms of its section's fields come to.
    #[tactic(auto, unfolding(crate::specs::Nodes::nodes_of))]
    pub fn build(alloc: Global, function: &Function, forms: &FinalForms) -> Result<Graph, NoMemory>
        ensures { IfOk result (λ graph. graph ≡ nodes_of forms.now.symbols.now
            function.now.section forms.now.fields.now function.now.items.now) }
    {
        let mut nodes = Vec::with_capacity(alloc, function.items.len())?;
        for item in function.items {
            put_last(&mut nodes, node_of(alloc, function, forms, item)?)?;
        }
        Ok(Graph { nodes })
    }

    /// How many items there are.
    pub fn len(&self) -> usize
        ensures { result ≡ length self.now }
    {
        self.nodes.len()
    }

    /// The node of an item.
    #[inline(always)]
    pub fn node(&self, item: usize) -> Node
        requires { item < length self.now }
        ensures { slice_get self.now item ≡ Some result }
    {
        self.nodes[item]
    }

    /// The items to which control may go from an item.
    #[inline(always)]
    #[tactic(auto, unfolding(crate::specs::Walks::successors))]
    pub fn succ(&self, item: usize) -> ArrayVec<usize, 2>
        requires { item < length self.now }
        ensures { result.items ≡ successors self.now item }
    {
        let count = self.len();
        let node = self.node(item);
        let mut items = ArrayVec::new();
        let next = item + 1;
        let goes_on = node.falls && next < count;
        match node.target {
            Some(target) => {
                let target = target as usize;
                items.push(target);
                if goes_on && target != next {
                    items.push(next);
                }
            },
            None => {
                if goes_on {
                    items.push(next);
                }
            },
        }
        items
    }

    /// The one item to which control may go from an item that is no jump, or none.
    #[inline(always)]
    #[tactic(auto, unfolding(crate::specs::Walks::successors))]
    pub fn only(&self, item: usize) -> Option<usize>
        requires { item < length self.now }
        ensures { IfSome result (λ next. successors self.now item ≡ next ∷ []) }
    {
        let count = self.len();
        let node = self.node(item);
        let next = item + 1;
        let goes_on = node.falls && next < count;
        match node.target {
            Some(_) => None,
            None => { if goes_on { Some(next) } else { None } },
        }
    }

    /// Whether the item may leave the function.
    #[inline(always)]
    pub fn exits(&self, item: usize) -> bool
        requires { item < length self.now }
        ensures { result ≡ option_map_or (λ node. node.exits) (slice_get self.now item) false }
    {
        self.node(item).exits
    }

    /// Each successor is an item of the function.
    pub fn targets_are_inside(&self)
        ensures { IsInside self.now }
    {
        let _ = &self.nodes;
    }
}
