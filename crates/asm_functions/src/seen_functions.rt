//! Functions whose items are seen as the analysis of the stack sees them.

ghost use Rattle.std.specs.Prelude.{◌≡◌, [], OnOk};

use asm_base::{NoMemory, Place, Pos};
use asm_expr::SymId;
use code_functions::{CodeItem, Functions, SectionEnds};
use std::alloc::Global;
use std::marker::Model;

/// The functions of a source so far: what is seen of their items is a matter of the source alone.
#[derive(Drop)]
pub struct SeenFunctions {
    /// The functions with the items that are kept.
    pub functions: Functions,
}

impl Model for SeenFunctions {
    ghost use Rattle.std.specs.Prelude.{List};
    ghost use Rattle.code_functions.specs.Recorded.{Recorded};
    ghost use Rattle.code_functions.specs.Seen.{SeenItem, all_seen};

    ghost Value = { List (Recorded SeenItem) };

    ghost view = { λ inside. all_seen inside.functions };
}

impl SeenFunctions {
    ghost use Rattle.code_functions.specs.Recorded.{begun, added, is_split, closed_of, all_closed};
    ghost use Rattle.code_functions.specs.Seen.{seen};

    /// No function.
    pub(crate) fn new(alloc: Global) -> SeenFunctions
        ensures { result ≡ [] }
    {
        SeenFunctions {
            functions: Functions::new(alloc),
        }
    }

    /// A function begins at a label of the symbol.
    #[tactic(auto, using(crate::proofs::SeenLemmas::begun_seen))]
    pub(crate) fn begin(
        &mut self,
        symbol: SymId,
        pos: Pos,
        section: u32,
        start: Place,
    ) -> Result<(), NoMemory>
        ensures { OnOk result (self.new ≡ begun symbol pos section start self.old) }
    {
        self.functions.begin(symbol, pos, section, start)
    }

    /// An item is put into a section.
    #[tactic(auto, using(crate::proofs::SeenLemmas::added_seen))]
    pub(crate) fn add(&mut self, section: u32, item: CodeItem) -> Result<(), NoMemory>
        ensures { OnOk result (self.new ≡ added section (seen item) self.old) }
    {
        self.functions.add(section, item)
    }

    /// The function of a symbol ends where its section does, if it is open.
    #[tactic(auto, using(crate::proofs::SeenLemmas::closed_of_seen))]
    pub(crate) fn end<E: SectionEnds>(&mut self, symbol: SymId, ends: &E)
        ensures { self.new ≡ closed_of symbol (E.ends ends.now) self.old }
    {
        self.functions.end(symbol, ends)
    }

    /// All functions that are open end, each where its section does.
    #[tactic(auto, using(crate::proofs::SeenLemmas::all_closed_seen))]
    pub(crate) fn end_all<E: SectionEnds>(&mut self, ends: &E)
        ensures { self.new ≡ all_closed (E.ends ends.now) self.old }
    {
        self.functions.end_all(ends)
    }

    /// Whether an instruction in this section splits a function.
    #[tactic(auto, using(crate::proofs::SeenLemmas::split_seen))]
    pub(crate) fn splits(&self, section: u32) -> bool
        ensures { result ≡ is_split section self.now }
    {
        self.functions.splits(section)
    }
}
