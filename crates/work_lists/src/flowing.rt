//! The work list.

ghost use Rattle.std.specs.Prelude.{◌≡◌, ◌<◌, ◌≤◌, ◌+◌, ◌*◌, ◌++◌, ◌∷◌, [], ℕ, IfOk, None, get_or, length};
ghost use Rattle.work_lists.specs.Graphs.{IsInside, edges};
ghost use Rattle.work_lists.specs.Exact.{AreExact};

use crate::analyses::Analysis;
use crate::carrying::carry;
use crate::following::follow;
use crate::graphs::Edges;
use asm_base::Steps;
use std::alloc::{AllocError, Global};
use std::sync::ledger::Ledger;

/// Puts no state last, at once where there is room for it.
#[inline(always)]
fn put_none<S: Drop>(states: &mut Vec<Option<S>>) -> Result<(), AllocError>
    ensures { IfOk result (λ _. states.new.items ≡ states.old.items ++ None ∷ []) }
{
    if states.len() < states.capacity() {
        states.push_reserved(None);
        return Ok(());
    }
    states.push(None)?;
    Ok(())
}

/// No state, for so many items.
fn none_yet<S: Drop>(alloc: Global, count: usize) -> Result<Vec<Option<S>>, AllocError>
    ensures long { IfOk result (λ states. length states.items ≡ count) }
    ensures none { IfOk result (λ states. (k : ℕ) → get_or states.items k None ≡ None) }
{
    let mut states = Vec::with_capacity(alloc, count)?;
    for item in 0..count {
        put_none(&mut states)?;
    }
    Ok(states)
}

/// For each item the facts that every walk to it carries, or none where there is no walk. A step
/// goes over one edge, or into the entry: over each edge once for every fact that a state can
/// lose, and once more.
pub fn flow<G: Edges, A: Analysis, L: Ledger>(
    alloc: Global,
    graph: &G,
    analysis: &A,
    steps: &mut Steps<L>,
) -> Result<Vec<Option<A::State>>, AllocError>
    requires fits { IsInside (G.rows graph.now) }
    requires some { 0 < length (G.rows graph.now) }
    ensures exact { IfOk result (λ states. AreExact (A.rules analysis.now) (G.rows graph.now)
        states.items) }
    ensures cost { IfOk result (λ _. steps.new
        ≤ steps.old + ((A.rules analysis.now).limit + 1) * edges (G.rows graph.now) + 1) }
{
    let mut states = none_yet(alloc, graph.len())?;
    let mut todo = Vec::new(alloc);
    let first = analysis.enter(alloc)?;
    steps.tick();
    carry(alloc, analysis, &mut states, &mut todo, 0, &first)?;
    while let Some(i) = todo.pop() {
        follow(alloc, graph, analysis, &mut states, &mut todo, i, steps)?;
    }
    Ok(states)
}
