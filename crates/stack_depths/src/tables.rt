//! The distances at all items.

ghost use Rattle.std.specs.Prelude.{◌≤◌, ◌+◌, ◌*◌, IfOk};
ghost use Rattle.stack_depths.specs.Distances.{AreDistances, AreReached, edges};
ghost use Rattle.stack_depths.specs.States.{distances_in, reached_in};

use crate::tracing::Tracing;
use crate::values::Distance;
use crate::ways::{Ways, walks_are_listed};
use asm_base::{NoMemory, Steps};
use code_functions::CodeItem;
use flow_graph::Graph;
use std::alloc::Global;
use std::marker::Model;
use std::sync::ledger::Ledger;
use work_lists::flow;

/// What is known at each item: whether a walk leads there, and the distances of the seven.
#[derive(Drop)]
pub struct DepthTable {
    states: Vec<Option<[Option<Distance>; 7]>>,
}

impl Model for DepthTable {
    ghost use Rattle.stack_depths.specs.States.{Depths};

    ghost Value = { Depths };

    ghost view = { λ table. table.states.items };
}

impl DepthTable {
    ghost use Rattle.std.specs.Prelude.{◌≡◌};
    ghost use Rattle.stack_depths.specs.States.{distances_in, reached_in};

    /// The distance of a register at an item, modulo 2^64.
    #[inline(always)]
    #[tactic(auto, unfolding(crate::specs::States::distances_in))]
    pub fn distance(&self, item: usize, register: u8) -> Option<u64>
        ensures { result ≡ distances_in self.now item register }
    {
        if register >= 7 {
            return None;
        }
        match self.states.get(item) {
            Some(Some(state)) => match state[register as usize] {
                Some(d) => Some(d.value),
                None => None,
            },
            _ => None,
        }
    }

    /// Whether a walk leads to an item.
    #[inline(always)]
    #[tactic(auto, unfolding(crate::specs::States::reached_in))]
    pub fn is_reached(&self, item: usize) -> bool
        ensures { result ≡ reached_in self.now item }
    {
        match self.states.get(item) {
            Some(Some(_)) => true,
            _ => false,
        }
    }
}

/// The distances of the seven registers at each item, in at most 8 steps for each edge and one
/// more.
pub fn depths<L: Ledger>(
    alloc: Global,
    graph: &Graph,
    items: &[CodeItem],
    steps: &mut Steps<L>,
) -> Result<DepthTable, NoMemory>
    ensures distances { IfOk result (λ table.
        AreDistances graph.now items.now (distances_in table)) }
    ensures reached { IfOk result (λ table. AreReached graph.now (reached_in table)) }
    ensures cost { IfOk result (λ _. steps.new ≤ steps.old + (8 * edges graph.now + 1)) }
{
    if graph.len() == 0 {
        return Ok(DepthTable {
            states: Vec::new(alloc),
        });
    }
    graph.targets_are_inside();
    walks_are_listed();
    let ways = Ways { graph };
    let tracing = Tracing { items };
    let states = flow(alloc, &ways, &tracing, steps)?;
    Ok(DepthTable { states })
}
