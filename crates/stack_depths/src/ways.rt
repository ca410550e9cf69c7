//! The graph of a function as the work list goes over it.

ghost use Rattle.std.specs.Prelude.{◌≡◌, ◌<◌, List, ℕ, length};
ghost use Rattle.flow_graph.specs.declared.nodes.Node.{Node};
ghost use Rattle.flow_graph.specs.Walks.{successor_lists, IsInside, IsWalk};
ghost use Rattle.work_lists.specs.Graphs as lists;

use arrayvec::ArrayVec;
use flow_graph::Graph;
use work_lists::Edges;

/// The edges of a function's graph.
#[derive(Clone, Copy)]
pub struct Ways<'a> {
    pub graph: &'a Graph,
}

impl<'a> Edges for Ways<'a> {
    ghost use Rattle.flow_graph.specs.Walks.{successor_lists};

    ghost rows = { λ ways. successor_lists ways.graph.now };

    #[inline(always)]
    #[tactic(auto, using(crate::proofs::WayLemmas::count_of))]
    fn len(&self) -> usize {
        self.graph.len()
    }

    #[inline(always)]
    #[tactic(auto, using(crate::proofs::WayLemmas::row_of))]
    fn succ(&self, item: usize) -> ArrayVec<usize, 2> {
        self.graph.succ(item)
    }

    #[inline(always)]
    #[tactic(auto, using(crate::proofs::WayLemmas::row_of))]
    fn only(&self, item: usize) -> Option<usize> {
        self.graph.only(item)
    }
}

/// The walks along the nodes of a graph are those along the lists of successors.
#[tactic(auto, using(crate::proofs::WayLemmas::listed, crate::proofs::WayLemmas::unlisted, crate::proofs::WayLemmas::inside_lists, crate::proofs::WayLemmas::count_of))]
pub fn walks_are_listed()
    ensures listed { (nodes : List Node) (w : List ℕ) (j : ℕ)
        → IsWalk nodes w j → lists.IsWalk (successor_lists nodes) w j }
    ensures unlisted { (nodes : List Node) (w : List ℕ) (j : ℕ) → 0 < length nodes
        → lists.IsWalk (successor_lists nodes) w j → IsWalk nodes w j }
    ensures inside { (nodes : List Node) → IsInside nodes
        → lists.IsInside (successor_lists nodes) }
    ensures count { (nodes : List Node) → length (successor_lists nodes) ≡ length nodes }
{}
