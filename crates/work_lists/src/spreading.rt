//! A state is carried over the edges of an item.

ghost use Rattle.std.specs.Prelude.{◌≡◌, ◌<◌, ◌≤◌, ◌+◌, IfOk, length};
ghost use Rattle.work_lists.specs.Graphs.{row, IsInside};
ghost use Rattle.work_lists.specs.Search.{Searching, Spreading, owed};

use crate::analyses::Analysis;
use crate::carrying::carry;
use crate::graphs::Edges;
use asm_base::Steps;
use std::alloc::{AllocError, Global};
use std::sync::ledger::Ledger;

/// Carries the state after item i over each of these edges, which are all it has.
#[inline(always)]
fn spread<G: Edges, A: Analysis, L: Ledger>(
    alloc: Global,
    graph: &G,
    analysis: &A,
    states: &mut Vec<Option<A::State>>,
    todo: &mut Vec<usize>,
    i: usize,
    targets: &[usize],
    out: &A::State,
    steps: &mut Steps<L>,
) -> Result<(), AllocError>
    requires fits { IsInside (G.rows graph.now) }
    requires place { i < length (G.rows graph.now) }
    requires targets { targets.now ≡ row (G.rows graph.now) i }
    requires weight { (A.rules analysis.now).weight out.now ≤ (A.rules analysis.now).limit }
    requires begun { Spreading (A.rules analysis.now) (G.rows graph.now) states.old.items
        todo.old.items i out.now 0 }
    ensures searching { IfOk result (λ _. Searching (A.rules analysis.now) (G.rows graph.now)
        states.new.items todo.new.items) }
    ensures paid { IfOk result (λ _. steps.new
        + owed (A.rules analysis.now) length (G.rows graph.now) states.new.items todo.new.items
        ≤ steps.old
        + owed (A.rules analysis.now) length (G.rows graph.now) states.old.items todo.old.items
        + length (row (G.rows graph.now) i)) }
    ensures fewer { IfOk result (λ _.
        owed (A.rules analysis.now) (λ _. 1) (G.rows graph.now) states.new.items todo.new.items
        ≤ owed (A.rules analysis.now) (λ _. 1) (G.rows graph.now) states.old.items todo.old.items) }
{
    for j in targets {
        steps.tick();
        carry(alloc, analysis, states, todo, *j, out)?;
    }
    Ok(())
}

/// Carries the state after item i over each of its edges.
#[inline(never)]
pub(crate) fn spread_each<G: Edges, A: Analysis, L: Ledger>(
    alloc: Global,
    graph: &G,
    analysis: &A,
    states: &mut Vec<Option<A::State>>,
    todo: &mut Vec<usize>,
    i: usize,
    out: &A::State,
    steps: &mut Steps<L>,
) -> Result<(), AllocError>
    requires fits { IsInside (G.rows graph.now) }
    requires place { i < length (G.rows graph.now) }
    requires weight { (A.rules analysis.now).weight out.now ≤ (A.rules analysis.now).limit }
    requires begun { Spreading (A.rules analysis.now) (G.rows graph.now) states.old.items
        todo.old.items i out.now 0 }
    ensures searching { IfOk result (λ _. Searching (A.rules analysis.now) (G.rows graph.now)
        states.new.items todo.new.items) }
    ensures paid { IfOk result (λ _. steps.new
        + owed (A.rules analysis.now) length (G.rows graph.now) states.new.items todo.new.items
        ≤ steps.old
        + owed (A.rules analysis.now) length (G.rows graph.now) states.old.items todo.old.items
        + length (row (G.rows graph.now) i)) }
    ensures fewer { IfOk result (λ _.
        owed (A.rules analysis.now) (λ _. 1) (G.rows graph.now) states.new.items todo.new.items
        ≤ owed (A.rules analysis.now) (λ _. 1) (G.rows graph.now) states.old.items todo.old.items) }
{
    let targets = graph.succ(i);
    spread(
        alloc,
        graph,
        analysis,
        states,
        todo,
        i,
        targets.as_slice(),
        out,
        steps,
    )
}
