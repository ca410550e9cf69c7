//! Items are worked off one behind the other.

ghost use Rattle.std.specs.Prelude.{◌≡◌, ◌<◌, ◌≤◌, ◌+◌, ◌++◌, ◌∷◌, [], ℕ, List, IfOk, None, length};
ghost use Rattle.work_lists.specs.Graphs.{row, IsInside};
ghost use Rattle.work_lists.specs.Exact.{look};
ghost use Rattle.work_lists.specs.Search.{Carried, Searching, Spreading, owed, with_next};

use crate::analyses::Analysis;
use crate::carrying::carry_there;
use crate::graphs::Edges;
use crate::spreading::spread_each;
use asm_base::Steps;
use std::alloc::{AllocError, Global};
use std::sync::ledger::Ledger;

/// Moves a state into item j, which has none yet and waits then.
#[inline(always)]
fn move_first<A: Analysis>(
    analysis: &A,
    states: &mut Vec<Option<A::State>>,
    j: usize,
    out: A::State,
)
    requires place { j < length states.old.items }
    requires none { look states.old.items j ≡ None }
    requires weight { (A.rules analysis.now).weight out ≤ (A.rules analysis.now).limit }
    ensures { (todo : List ℕ) → Carried (A.rules analysis.now) states.old.items states.new.items
        todo (todo ++ j ∷ []) j out }
{
    let _ = analysis;
    states[j] = Some(out);
}

/// Carries the state after item i into the one to which it leads, and tells that one if it had none
/// yet: it waits then before all others.
#[inline(always)]
fn go_on<G: Edges, A: Analysis, L: Ledger>(
    alloc: Global,
    graph: &G,
    analysis: &A,
    states: &mut Vec<Option<A::State>>,
    todo: &mut Vec<usize>,
    i: usize,
    j: usize,
    out: A::State,
    steps: &mut Steps<L>,
) -> Result<Option<usize>, AllocError>
    requires fits { IsInside (G.rows graph.now) }
    requires only { row (G.rows graph.now) i ≡ j ∷ [] }
    requires weight { (A.rules analysis.now).weight out ≤ (A.rules analysis.now).limit }
    requires begun { Spreading (A.rules analysis.now) (G.rows graph.now) states.old.items
        todo.old.items i out 0 }
    ensures searching { IfOk result (λ next. Searching (A.rules analysis.now) (G.rows graph.now)
        states.new.items (with_next todo.new.items next)) }
    ensures paid { IfOk result (λ next. steps.new
        + owed (A.rules analysis.now) length (G.rows graph.now) states.new.items
        (with_next todo.new.items next)
        ≤ steps.old
        + owed (A.rules analysis.now) length (G.rows graph.now) states.old.items todo.old.items
        + 1) }
    ensures fewer { IfOk result (λ next.
        owed (A.rules analysis.now) (λ _. 1) (G.rows graph.now) states.new.items
        (with_next todo.new.items next)
        ≤ owed (A.rules analysis.now) (λ _. 1) (G.rows graph.now) states.old.items todo.old.items) }
{
    let _ = graph;
    steps.tick();
    match &states[j] {
        None => {
            move_first(analysis, states, j, out);
            Ok(Some(j))
        }
        Some(_) => {
            carry_there(alloc, analysis, states, todo, j, &out)?;
            Ok(None)
        }
    }
}

/// Works off an item, and tells the one behind it if that waits then before all others.
#[inline(always)]
fn work_off<G: Edges, A: Analysis, L: Ledger>(
    alloc: Global,
    graph: &G,
    analysis: &A,
    states: &mut Vec<Option<A::State>>,
    todo: &mut Vec<usize>,
    i: usize,
    steps: &mut Steps<L>,
) -> Result<Option<usize>, AllocError>
    requires fits { IsInside (G.rows graph.now) }
    requires waits { Searching (A.rules analysis.now) (G.rows graph.now) states.old.items
        (todo.old.items ++ i ∷ []) }
    ensures searching { IfOk result (λ next. Searching (A.rules analysis.now) (G.rows graph.now)
        states.new.items (with_next todo.new.items next)) }
    ensures paid { IfOk result (λ next. steps.new
        + owed (A.rules analysis.now) length (G.rows graph.now) states.new.items
        (with_next todo.new.items next)
        ≤ steps.old
        + owed (A.rules analysis.now) length (G.rows graph.now) states.old.items
        (todo.old.items ++ i ∷ [])) }
    ensures fewer { IfOk result (λ next.
        owed (A.rules analysis.now) (λ _. 1) (G.rows graph.now) states.new.items
        (with_next todo.new.items next)
        < owed (A.rules analysis.now) (λ _. 1) (G.rows graph.now) states.old.items
        (todo.old.items ++ i ∷ [])) }
{
    match &states[i] {
        None => Ok(None),
        Some(before) => {
            let out = analysis.after(alloc, i, before)?;
            match graph.only(i) {
                Some(j) => go_on(alloc, graph, analysis, states, todo, i, j, out, steps),
                None => {
                    spread_each(alloc, graph, analysis, states, todo, i, &out, steps)?;
                    Ok(None)
                }
            }
        }
    }
}

/// Works off an item and all that wait then before all others.
pub(crate) fn follow<G: Edges, A: Analysis, L: Ledger>(
    alloc: Global,
    graph: &G,
    analysis: &A,
    states: &mut Vec<Option<A::State>>,
    todo: &mut Vec<usize>,
    first: usize,
    steps: &mut Steps<L>,
) -> Result<(), AllocError>
    requires fits { IsInside (G.rows graph.now) }
    requires waits { Searching (A.rules analysis.now) (G.rows graph.now) states.old.items
        (todo.old.items ++ first ∷ []) }
    ensures searching { IfOk result (λ _. Searching (A.rules analysis.now) (G.rows graph.now)
        states.new.items todo.new.items) }
    ensures paid { IfOk result (λ _. steps.new
        + owed (A.rules analysis.now) length (G.rows graph.now) states.new.items todo.new.items
        ≤ steps.old
        + owed (A.rules analysis.now) length (G.rows graph.now) states.old.items
        (todo.old.items ++ first ∷ [])) }
    ensures fewer { IfOk result (λ _.
        owed (A.rules analysis.now) (λ _. 1) (G.rows graph.now) states.new.items todo.new.items
        < owed (A.rules analysis.now) (λ _. 1) (G.rows graph.now) states.old.items
        (todo.old.items ++ first ∷ [])) }
{
    let mut next = Some(first);
    while let Some(i) = next {
        next = work_off(alloc, graph, analysis, states, todo, i, steps)?;
    }
    Ok(())
}
