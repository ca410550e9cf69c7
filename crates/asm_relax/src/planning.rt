//! From sections to their layout. Making the plan takes all memory, and settling it none.

ghost use Rattle.std.specs.Prelude.{◌≡◌};

use crate::faults::LayoutFault;
use crate::laying::lay_all;
use crate::plan_states::PlanState;
use crate::range_checks::first_fault;
use asm_base::{NoMemory, Steps};
use asm_expr::Linear;
use asm_frags::{FragFault, Laid, Loose, Sections, Substitution};
use asm_levels::needs_stay_within_tops;
use asm_symbols::Symbols;
use assigned_forms::{Expansions, linked_expansions};
use level_ranks::layouts_are_reached;
use row_plans::RowPlan;
use std::alloc::{AllocError, Global};
use std::marker::Model;
use std::sync::ledger::Ledger;

/// The expansion of assigned symbols but weak aliases, as the substitution of forms.
#[derive(Drop)]
struct AssignedExpansion<'a> {
    alloc: Global,
    symbols: &'a Symbols,
    expansions: Expansions<'a>,
}

impl<'a> Model for AssignedExpansion<'a> {
    ghost use Rattle.asm_symbols.specs.SymbolMap.{SymbolMap};
    ghost use Rattle.assigned_forms.specs.Expanding.{AreExpansions};
    ghost use Rattle.assigned_forms.specs.Linked.{linked_map};

    ghost Value = { SymbolMap };

    ghost view = { λ expansion. expansion.symbols.now };

    ghost invariant = { λ expansion.
        AreExpansions (linked_map expansion.symbols.now) expansion.expansions };
}

impl Substitution for AssignedExpansion<'_> {
    ghost use Rattle.assigned_forms.specs.Linked.{linked};

    ghost substitute = { λ symbols form. linked symbols form };

    fn substitute(&self, form: &mut Linear) -> Result<(), FragFault> {
        Ok(
            self.expansions
                .expand_linked(self.alloc, self.symbols, form)?,
        )
    }
}

/// What a layout took.
#[derive(Clone, Copy, PartialEq, Eq, Debug)]
pub struct Settled {
    /// The number of rounds: one more than those that raised levels.
    pub rounds: u64,
}

/// A plan of a layout: the sections, the symbols that their fields name, and the rows of their items.
#[derive(Drop)]
pub struct Plan<'a> {
    symbols: &'a Symbols,
    sections: Sections<Laid>,
    rows: RowPlan,
    state: PlanState,
}

impl<'a> Model for Plan<'a> {
    ghost use Rattle.asm_relax.specs.RowBounds.{IsPlanFor};
    ghost use Rattle.asm_relax.specs.Settling.{PlanOf};

    ghost Value = { PlanOf };

    ghost view = { λ plan.
        record { map = plan.symbols.now; sections = plan.sections; state = plan.state } };

    ghost invariant = { λ plan. IsPlanFor plan.symbols.now plan.sections plan.rows plan.state };
}

impl<'a> Plan<'a> {
    ghost use Rattle.std.specs.Prelude.{◌≡◌, ◌+◌, ◌*◌, ◌≤◌, IfOk, IfErr, OnOk, sum};
    ghost use Rattle.asm_levels.specs.Needs.{several, tops};
    ghost use Rattle.asm_relax.specs.declared.plan_states.PlanState.TheVariants.{Fresh, LaidOut, Refused};
    ghost use Rattle.item_rows.specs.ItemRows.{rows_of};
    ghost use Rattle.asm_relax.specs.Settling.{plan_of, settled_sections, settled_plan, Settles, IsLaidOut};

    /// A plan of the sections, with assigned symbols expanded in their fields. It takes all memory that layout takes.
    #[tactic(auto, unfolding(crate::specs::Settling::planned))]
    pub fn new(
        alloc: Global,
        sections: Sections<Loose>,
        symbols: &'a Symbols,
    ) -> Result<Plan<'a>, NoMemory>
        ensures { IfOk result (λ plan. plan ≡ plan_of symbols.now sections) }
    {
        let expansion = AssignedExpansion {
            alloc,
            symbols,
            expansions: linked_expansions(alloc, symbols)?,
        };
        let Ok(sections) = sections.substituted(&expansion) else {
            return Err(AllocError);
        };
        let rows = item_rows::plan_of(alloc, symbols, &sections)?;
        Ok(Plan {
            symbols,
            sections,
            rows,
            state: PlanState::Fresh,
        })
    }

    /// Sets the address and the size of each item, and answers the first fault where there is one. It takes no memory.
    /// A step is a look at a distance.
    pub fn settle<L: Ledger>(&mut self, steps: &mut Steps<L>) -> Result<Settled, LayoutFault>
        requires fresh { self.old.state ≡ Fresh }
        ensures value { Settles self.new.sections result
            (settled_plan self.old.map self.old.sections) }
        ensures layout { IfOk result (λ done.
            IsLaidOut self.old.map self.old.sections self.new.sections done.rounds) }
        ensures rounds { IfOk result (λ done.
            done.rounds ≤ 1 + sum (tops (rows_of self.old.map self.old.sections))) }
        ensures at_most { IfOk result (λ done. steps.new
            ≤ steps.old + done.rounds * several (rows_of self.old.map self.old.sections)) }
        ensures at_least { steps.old + several (rows_of self.old.map self.old.sections) ≤ steps.new }
        ensures sections { self.new.sections ≡ settled_sections self.old.map self.old.sections }
        ensures kept { self.new.map ≡ self.old.map }
        ensures always { steps.new ≤ steps.old + (1 + sum (tops (rows_of self.old.map self.old.sections)))
            * several (rows_of self.old.map self.old.sections) }
        ensures laid { OnOk result (self.new.state ≡ LaidOut) }
        ensures refused { IfErr result (λ fault. self.new.state ≡ Refused) }
    {
        layouts_are_reached();
        needs_stay_within_tops();
        self.state = PlanState::Refused;
        let rounds = self.rows.settle(steps);
        lay_all(&mut self.sections, &self.rows);
        match first_fault(self.symbols, &self.sections) {
            Some(fault) => Err(fault),
            None => {
                self.state = PlanState::LaidOut;
                Ok(Settled { rounds })
            }
        }
    }

    /// The sections, each item with its address and its size.
    pub fn laid(self) -> Sections<Laid>
        requires { self.state ≡ LaidOut }
        ensures { result ≡ self.entry.sections }
    {
        let Plan {
            symbols,
            sections,
            rows: _,
            state: _,
        } = self;
        let _ = symbols;
        sections
    }
}
