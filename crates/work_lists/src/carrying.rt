//! A state is carried into an item.

ghost use Rattle.std.specs.Prelude.{◌≡◌, ◌<◌, ◌≤◌, ◌++◌, ◌∷◌, [], IfOk, None, get_or, length};
ghost use Rattle.work_lists.specs.Exact.{look};
ghost use Rattle.work_lists.specs.Search.{Carried};

use crate::analyses::Analysis;
use std::alloc::{AllocError, Global};

/// Lets an item wait, at once where there is room for it.
#[inline(always)]
fn wait(todo: &mut Vec<usize>, j: usize) -> Result<(), AllocError>
    ensures { IfOk result (λ _. todo.new.items ≡ todo.old.items ++ j ∷ []) }
{
    if todo.len() < todo.capacity() {
        todo.push_reserved(j);
        return Ok(());
    }
    todo.push(j)?;
    Ok(())
}

/// Carries a state into item j, which has none yet, and waits then.
#[inline(always)]
fn carry_first<A: Analysis>(
    alloc: Global,
    analysis: &A,
    states: &mut Vec<Option<A::State>>,
    todo: &mut Vec<usize>,
    j: usize,
    out: &A::State,
) -> Result<(), AllocError>
    requires place { j < length states.old.items }
    requires none { look states.old.items j ≡ None }
    requires weight { (A.rules analysis.now).weight out.now ≤ (A.rules analysis.now).limit }
    ensures { IfOk result (λ _. Carried (A.rules analysis.now) states.old.items states.new.items
        todo.old.items todo.new.items j out.now) }
{
    let copy = analysis.copy(alloc, out)?;
    states[j] = Some(copy);
    wait(todo, j)?;
    Ok(())
}

/// Carries a state into item j, which waits then if it lost anything by that.
fn carry_again<A: Analysis>(
    alloc: Global,
    analysis: &A,
    states: &mut Vec<Option<A::State>>,
    todo: &mut Vec<usize>,
    j: usize,
    out: &A::State,
) -> Result<(), AllocError>
    requires place { j < length states.old.items }
    requires weight { (A.rules analysis.now).weight out.now ≤ (A.rules analysis.now).limit }
    ensures { IfOk result (λ _. Carried (A.rules analysis.now) states.old.items states.new.items
        todo.old.items todo.new.items j out.now) }
{
    match states[j].take() {
        None => {
            let copy = analysis.copy(alloc, out)?;
            states[j] = Some(copy);
            todo.push(j)?;
        }
        Some(mut state) => {
            let changed = analysis.meet(alloc, &mut state, out)?;
            states[j] = Some(state);
            if changed {
                todo.push(j)?;
            }
        }
    }
    Ok(())
}

/// Carries a state into item j, which may have one, and waits then if anything changed there.
#[inline(never)]
pub(crate) fn carry_there<A: Analysis>(
    alloc: Global,
    analysis: &A,
    states: &mut Vec<Option<A::State>>,
    todo: &mut Vec<usize>,
    j: usize,
    out: &A::State,
) -> Result<(), AllocError>
    requires place { j < length states.old.items }
    requires weight { (A.rules analysis.now).weight out.now ≤ (A.rules analysis.now).limit }
    ensures { IfOk result (λ _. Carried (A.rules analysis.now) states.old.items states.new.items
        todo.old.items todo.new.items j out.now) }
{
    match &states[j] {
        None => carry_first(alloc, analysis, states, todo, j, out),
        Some(state) => {
            if analysis.keeps(state, out) {
                return Ok(());
            }
            carry_again(alloc, analysis, states, todo, j, out)
        }
    }
}

/// Carries a state into item j, which waits then if anything changed there.
#[inline(always)]
pub(crate) fn carry<A: Analysis>(
    alloc: Global,
    analysis: &A,
    states: &mut Vec<Option<A::State>>,
    todo: &mut Vec<usize>,
    j: usize,
    out: &A::State,
) -> Result<(), AllocError>
    requires place { j < length states.old.items }
    requires weight { (A.rules analysis.now).weight out.now ≤ (A.rules analysis.now).limit }
    ensures { IfOk result (λ _. Carried (A.rules analysis.now) states.old.items states.new.items
        todo.old.items todo.new.items j out.now) }
{
    match &states[j] {
        None => carry_first(alloc, analysis, states, todo, j, out),
        Some(_) => carry_there(alloc, analysis, states, todo, j, out),
    }
}
