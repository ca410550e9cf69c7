//! The facts at all items.

ghost use Rattle.std.specs.Prelude.{◌≡◌, ◌<◌, ◌≤◌, ◌+◌, ◌*◌, false, IfOk, length};
ghost use Rattle.stack_depths.specs.Distances.{edges};
ghost use Rattle.stack_depths.specs.States.{distances_in};
ghost use Rattle.stack_facts.specs.Facts.{AreFacts, AreFactsBy, AreKeptFacts, saves};
ghost use Rattle.stack_facts.specs.Sets.{IsPlain, IsTable};
ghost use Rattle.stack_facts.specs.Ranks.{IsRanked};
ghost use Rattle.stack_facts.specs.States.{facts_in};

use crate::changes::change_by;
use crate::finding::{each_highest, no_slots};
use crate::gathering::gather;
use crate::passing::{entry_after, greatest, has_entry, has_slot};
use crate::set_finding::{each_greatest, greatest_in};
use crate::set_passing::{entries_alone, same_of, set_after, stands};
use crate::values::{Clauses, Slot};
use crate::word_passing::word_after;
use asm_base::{NoMemory, Steps};
use code_functions::CodeItem;
use flow_graph::Graph;
use insn_effects::Effect;
use number_sets::{NumberSet, Word};
use stack_depths::{DepthTable, Ways, walks_are_listed};
use std::alloc::{AllocError, Global};
use std::marker::Model;
use std::sync::ledger::Ledger;
use work_lists::{Analysis, flow};

/// The items of a function, their distances, and the slots that they can make; and by which clauses
/// they change facts.
#[derive(Clone, Copy)]
struct Passing<'a> {
    clauses: Clauses,
    items: &'a [CodeItem],
    depths: &'a DepthTable,
    slots: &'a [Slot],
    ghost table: { IsTable items.now (distances_in depths.now) slots.now },
    ghost ranked: { IsRanked slots.now },
}

impl<'a> Analysis for Passing<'a> {
    ghost use Rattle.stack_depths.specs.States.{distances_in};
    ghost use Rattle.stack_facts.specs.States.{fact_rules};

    type State = NumberSet;

    ghost rules = { λ passing.
        fact_rules passing.clauses passing.items.now (distances_in passing.depths.now)
        passing.slots.now };

    fn enter(&self, alloc: Global) -> Result<NumberSet, AllocError> {
        let out = entries_alone(alloc, self.slots.len())?;
        Ok(out)
    }

    #[inline(always)]
    fn after(
        &self,
        alloc: Global,
        item: usize,
        before: &NumberSet,
    ) -> Result<NumberSet, AllocError> {
        match self.items.get(item) {
            None => {
                let out = same_of(alloc, self.slots, before)?;
                Ok(out)
            }
            Some(found) => {
                let by = self.clauses;
                let effect = &found.effect;
                let out = set_after(alloc, by, self.slots, self.depths, item, effect, before)?;
                Ok(out)
            }
        }
    }

    #[inline(always)]
    fn copy(&self, _alloc: Global, from: &NumberSet) -> Result<NumberSet, AllocError> {
        from.copy()
    }

    #[inline(always)]
    fn keeps(&self, state: &NumberSet, from: &NumberSet) -> bool {
        state.is_within(from)
    }

    fn meet(
        &self,
        alloc: Global,
        into: &mut NumberSet,
        from: &NumberSet,
    ) -> Result<bool, AllocError> {
        into.meet(alloc, from)
    }
}

/// The same, where a word has room for all facts.
#[derive(Clone, Copy)]
struct WordPassing<'a> {
    clauses: Clauses,
    items: &'a [CodeItem],
    depths: &'a DepthTable,
    slots: &'a [Slot],
    ghost table: { IsTable items.now (distances_in depths.now) slots.now },
    ghost few: { length slots.now < 58 },
}

impl<'a> Analysis for WordPassing<'a> {
    ghost use Rattle.stack_depths.specs.States.{distances_in};
    ghost use Rattle.stack_facts.specs.States.{fact_rules};

    type State = Word;

    ghost rules = { λ passing.
        fact_rules passing.clauses passing.items.now (distances_in passing.depths.now)
        passing.slots.now };

    fn enter(&self, _alloc: Global) -> Result<Word, AllocError> {
        Ok(Word::six())
    }

    #[inline(always)]
    fn after(&self, _alloc: Global, item: usize, before: &Word) -> Result<Word, AllocError> {
        match self.items.get(item) {
            None => Ok(before.first(6 + self.slots.len())),
            Some(found) => {
                let by = self.clauses;
                let effect = &found.effect;
                Ok(word_after(by, self.slots, self.depths, item, effect, before))
            }
        }
    }

    #[inline(always)]
    fn copy(&self, _alloc: Global, from: &Word) -> Result<Word, AllocError> {
        Ok(from.again())
    }

    #[inline(always)]
    fn keeps(&self, state: &Word, from: &Word) -> bool {
        state.is_within(from)
    }

    fn meet(&self, _alloc: Global, into: &mut Word, from: &Word) -> Result<bool, AllocError> {
        Ok(into.meet(from))
    }
}

/// The facts that stand at each item: in words where these have room for all, or else in sets.
#[derive(Drop)]
pub struct FactTable {
    slots: Vec<Slot>,
    by_words: bool,
    words: Vec<Option<Word>>,
    sets: Vec<Option<NumberSet>>,
    ghost plain: { IsPlain slots.items },
    ghost ranked: { by_words ≡ false → IsRanked slots.items },
}

impl Model for FactTable {
    ghost use Rattle.std.specs.Prelude.{if◌then◌else◌};
    ghost use Rattle.stack_facts.specs.States.{Facts};

    ghost Value = { Facts };

    ghost view = { λ table. (
      table.slots.items,
      if table.by_words then table.words.items else table.sets.items,
    ) };
}

impl FactTable {
    ghost use Rattle.std.specs.Prelude.{◌≡◌, ◌<◌, ℕ, None, IsTrue, get_or};
    ghost use Rattle.insn_effects.specs.Followed.{followed_by};
    ghost use Rattle.stack_depths.specs.States.{distances_in};
    ghost use Rattle.stack_facts.specs.Places.{change_of, writes};
    ghost use Rattle.stack_facts.specs.Facts.{Fact, entry, slot, facts_after, IsSlotOf};
    ghost use Rattle.stack_facts.specs.States.{facts_in};

    /// Whether a register has its entry value at an item.
    #[inline(always)]
    #[tactic(auto, unfolding(crate::specs::States::facts_in))]
    pub fn has_entry(&self, item: usize, register: u8) -> bool
        ensures { result ≡ facts_in self.now item (entry register) }
    {
        if self.by_words {
            match self.words.get(item) {
                Some(Some(word)) => has_entry(&self.slots, word, register),
                _ => false,
            }
        } else {
            match self.sets.get(item) {
                Some(Some(bits)) => has_entry(&self.slots, bits, register),
                _ => false,
            }
        }
    }

    /// Whether the 8 bytes at a distance from the frame address hold a register's entry value at an item.
    #[tactic(auto, unfolding(crate::specs::States::facts_in))]
    pub fn has_slot(&self, item: usize, distance: u64, register: u8) -> bool
        ensures { result ≡ facts_in self.now item (slot distance register) }
    {
        if self.by_words {
            match self.words.get(item) {
                Some(Some(word)) => has_slot(&self.slots, word, distance, register),
                _ => false,
            }
        } else {
            match self.sets.get(item) {
                Some(Some(bits)) => stands(&self.slots, bits, Slot { distance, register }),
                _ => false,
            }
        }
    }

    /// Whether a register has its entry value after an item.
    #[tactic(auto, unfolding(crate::specs::States::facts_in))]
    pub fn has_entry_after(
        &self,
        depths: &DepthTable,
        item: usize,
        effect: &Effect,
        register: u8,
    ) -> bool
        requires { register < 7 }
        ensures { result ≡ facts_after (writes (followed_by effect.now))
            (change_of (followed_by effect.now) (distances_in depths.now item))
            (facts_in self.now item) (entry register) }
    {
        let change = change_by(Clauses::Synthesis, depths, item, effect);
        if self.by_words {
            match self.words.get(item) {
                Some(Some(word)) => entry_after(&self.slots, effect, &change, word, register),
                _ => false,
            }
        } else {
            match self.sets.get(item) {
                Some(Some(bits)) => entry_after(&self.slots, effect, &change, bits, register),
                _ => false,
            }
        }
    }

    /// Whether the same facts stand at two items, by a look at their words.
    #[inline(always)]
    #[tactic(auto, using(crate::proofs::QuietLemmas::same_facts), unfolding(crate::specs::States::facts_in))]
    pub fn are_same(&self, one: usize, other: usize) -> bool
        ensures { IsTrue result → (f : Fact) → facts_in self.now one f
            ≡ facts_in self.now other f }
    {
        if !self.by_words {
            return false;
        }
        match self.words.get(one) {
            Some(Some(word)) => match self.words.get(other) {
                Some(Some(others)) => word.is_same(others),
                _ => false,
            },
            _ => false,
        }
    }

    /// For each of the seven registers the slot with the greatest distance, of those that stand at an item.
    #[tactic(auto, using(crate::proofs::BestLemmas::nothing_stands), unfolding(crate::specs::States::facts_in))]
    pub fn slots_of(&self, item: usize) -> [Option<u64>; 7]
        ensures { (r : ℕ) → r < 7
            → IsSlotOf (facts_in self.now item) r (get_or result r None) }
    {
        if self.by_words {
            match self.words.get(item) {
                Some(Some(word)) => each_highest(&self.slots, word),
                _ => no_slots(),
            }
        } else {
            match self.sets.get(item) {
                Some(Some(bits)) => each_greatest(&self.slots, bits),
                _ => no_slots(),
            }
        }
    }

    /// The slot of a register with the greatest distance, of those that stand at an item.
    #[tactic(auto, unfolding(crate::specs::States::facts_in))]
    pub fn slot_of(&self, item: usize, register: u8) -> Option<u64>
        ensures { IsSlotOf (facts_in self.now item) register result }
    {
        if self.by_words {
            match self.words.get(item) {
                Some(Some(word)) => greatest(&self.slots, word, register),
                _ => None,
            }
        } else {
            match self.sets.get(item) {
                Some(Some(bits)) => greatest_in(&self.slots, bits, register),
                _ => None,
            }
        }
    }
}

/// The sets of facts over a table of slots.
fn sets<L: Ledger>(
    alloc: Global,
    clauses: Clauses,
    graph: &Graph,
    items: &[CodeItem],
    depths: &DepthTable,
    slots: &[Slot],
    steps: &mut Steps<L>,
) -> Result<Vec<Option<NumberSet>>, AllocError>
    requires table { IsTable items.now (distances_in depths.now) slots.now }
    requires ranked { IsRanked slots.now }
    ensures facts { IfOk result (λ states.
        AreFactsBy clauses graph.now items.now (distances_in depths.now)
        (facts_in (slots.now, states.items))) }
    ensures cost { IfOk result (λ _. steps.new ≤ steps.old
        + ((length slots.now + 7) * edges graph.now + 1)) }
{
    if graph.len() == 0 {
        return Ok(Vec::new(alloc));
    }
    graph.targets_are_inside();
    walks_are_listed();
    let ways = Ways { graph };
    let passing = Passing {
        clauses,
        items,
        depths,
        slots,
    };
    let states = flow(alloc, &ways, &passing, steps)?;
    Ok(states)
}

/// The facts over a table of few slots, in words.
fn words<L: Ledger>(
    alloc: Global,
    clauses: Clauses,
    graph: &Graph,
    items: &[CodeItem],
    depths: &DepthTable,
    slots: &[Slot],
    steps: &mut Steps<L>,
) -> Result<Vec<Option<Word>>, AllocError>
    requires table { IsTable items.now (distances_in depths.now) slots.now }
    requires few { length slots.now < 58 }
    ensures facts { IfOk result (λ states.
        AreFactsBy clauses graph.now items.now (distances_in depths.now)
        (facts_in (slots.now, states.items))) }
    ensures cost { IfOk result (λ _. steps.new ≤ steps.old
        + ((length slots.now + 7) * edges graph.now + 1)) }
{
    if graph.len() == 0 {
        return Ok(Vec::new(alloc));
    }
    graph.targets_are_inside();
    walks_are_listed();
    let ways = Ways { graph };
    let passing = WordPassing {
        clauses,
        items,
        depths,
        slots,
    };
    let states = flow(alloc, &ways, &passing, steps)?;
    Ok(states)
}

/// The facts by these clauses.
fn facts_by<L: Ledger>(
    alloc: Global,
    clauses: Clauses,
    graph: &Graph,
    items: &[CodeItem],
    depths: &DepthTable,
    steps: &mut Steps<L>,
) -> Result<FactTable, NoMemory>
    ensures facts { IfOk result (λ table.
        AreFactsBy clauses graph.now items.now (distances_in depths.now) (facts_in table)) }
    ensures cost { IfOk result (λ _. steps.new ≤ steps.old
        + ((saves items.now (distances_in depths.now) + 7) * edges graph.now + 1)) }
{
    let slots = gather(alloc, items, depths)?;
    if slots.len() < 58 {
        let words = words(alloc, clauses, graph, items, depths, &slots, steps)?;
        return Ok(FactTable {
            slots,
            by_words: true,
            words,
            sets: Vec::new(alloc),
        });
    }
    let sets = sets(alloc, clauses, graph, items, depths, &slots, steps)?;
    Ok(FactTable {
        slots,
        by_words: false,
        words: Vec::new(alloc),
        sets,
    })
}

/// The facts that stand at each item of a function whose distances are these, in at most as many
/// steps for each edge as there are items that can make a slot, and 7, and one step more.
pub fn facts<L: Ledger>(
    alloc: Global,
    graph: &Graph,
    items: &[CodeItem],
    depths: &DepthTable,
    steps: &mut Steps<L>,
) -> Result<FactTable, NoMemory>
    ensures facts { IfOk result (λ table.
        AreFacts graph.now items.now (distances_in depths.now) (facts_in table)) }
    ensures cost { IfOk result (λ _. steps.new ≤ steps.old
        + ((saves items.now (distances_in depths.now) + 7) * edges graph.now + 1)) }
{
    facts_by(alloc, Clauses::Synthesis, graph, items, depths, steps)
}

/// The kept facts that stand at each item, of which a load leaves its slot standing, and an rsp that
/// rises drops no slot; in as many steps.
pub fn facts_kept<L: Ledger>(
    alloc: Global,
    graph: &Graph,
    items: &[CodeItem],
    depths: &DepthTable,
    steps: &mut Steps<L>,
) -> Result<FactTable, NoMemory>
    ensures facts { IfOk result (λ table.
        AreKeptFacts graph.now items.now (distances_in depths.now) (facts_in table)) }
    ensures cost { IfOk result (λ _. steps.new ≤ steps.old
        + ((saves items.now (distances_in depths.now) + 7) * edges graph.now + 1)) }
{
    facts_by(alloc, Clauses::Kept, graph, items, depths, steps)
}
