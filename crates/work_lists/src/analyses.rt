//! Analyses.

ghost use Rattle.std.specs.Prelude.{◌≡◌, ◌<◌, ◌≤◌, ◌&&◌, IfOk, OnOk, IsTrue, IsFalse};
ghost use Rattle.work_lists.specs.Exact.{Fact, Rules, carried_from};

use std::alloc::{AllocError, Global};

/// An analysis: the state at entry, the state after an item, and what two states have both.
pub trait Analysis {
    /// What is known at an item.
    type State: Drop;

    /// Which facts a state has, which stand at entry, and from which one before an item a fact
    /// after it comes.
    ghost rules: { Self → Rules Self.State };

    /// The state at entry.
    fn enter(&self, alloc: Global) -> Result<Self::State, AllocError>
        ensures holds { IfOk result (λ s. (f : Fact)
            → (rules self.now).holds s f ≡ (rules self.now).given f) }
        ensures weight { IfOk result (λ s. (rules self.now).weight s ≤ (rules self.now).limit) };

    /// The state after an item.
    fn after(
        &self,
        alloc: Global,
        item: usize,
        before: &Self::State,
    ) -> Result<Self::State, AllocError>
        ensures holds { IfOk result (λ s. (f : Fact) → (rules self.now).holds s f
            ≡ carried_from ((rules self.now).holds before.now) ((rules self.now).source item f)) }
        ensures weight { IfOk result (λ s. (rules self.now).weight s ≤ (rules self.now).limit) };

    /// The same state once more.
    fn copy(&self, alloc: Global, from: &Self::State) -> Result<Self::State, AllocError>
        ensures { IfOk result (λ s. s ≡ from.now) };

    /// Whether a state has nothing that another does not have, by a look at both.
    fn keeps(&self, state: &Self::State, from: &Self::State) -> bool
        ensures { IsTrue result → (f : Fact) → (rules self.now).holds state.now f
            ≡ ((rules self.now).holds state.now f && (rules self.now).holds from.now f) };

    /// Leaves what both states have, and tells whether that is less.
    fn meet(
        &self,
        alloc: Global,
        into: &mut Self::State,
        from: &Self::State,
    ) -> Result<bool, AllocError>
        ensures holds { OnOk result ((f : Fact) → (rules self.now).holds into.new f
            ≡ ((rules self.now).holds into.old f && (rules self.now).holds from.now f)) }
        ensures less { IfOk result (λ changed. IsTrue changed
            → (rules self.now).weight into.new < (rules self.now).weight into.old) }
        ensures same { IfOk result (λ changed. IsFalse changed → into.new ≡ into.old) };
}
