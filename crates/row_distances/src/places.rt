//! Where symbols stand among rows.

ghost use Rattle.std.specs.Prelude.{◌≡◌};
ghost use Rattle.asm_expr.specs.Knowledge.{told_by};
ghost use Rattle.row_distances.specs.Places as spec;

use asm_base::SectionPlace;
use asm_expr::{Known, Look, SymId, Written};
use asm_symbols::{Meaning, Symbols};

/// The place of an item, and the number of the symbol that stands for it in forms.
#[derive(Clone, Copy)]
pub struct OwnPlace {
    pub symbol: u32,
    pub place: SectionPlace,
}

/// Where symbols stand: the symbols, the first row of each section, and the place of the item itself.
#[derive(Clone, Copy)]
pub struct RowView<'a> {
    pub symbols: &'a Symbols,
    pub starts: &'a [u32],
    pub own: OwnPlace,
}

/// Where a symbol of this meaning stands.
fn meant_place(meaning: &Meaning) -> Option<SectionPlace>
    ensures { result ≡ spec.meant_place meaning.now }
{
    match meaning {
        Meaning::Label(spot) | Meaning::Space(spot) => Some(spot.place),
        Meaning::Undefined | Meaning::Common { .. } | Meaning::Assigned(_) => None,
    }
}

/// Where a symbol stands.
#[tactic(auto, unfolding(crate::specs::Places::place_of))]
pub(crate) fn place_of(view: RowView, symbol: SymId) -> Option<SectionPlace>
    ensures { result ≡ spec.place_of view.entry.symbols.now view.entry.own symbol }
{
    if symbol.index() == view.own.symbol {
        return Some(view.own.place);
    }
    match view.symbols.as_slice().get(symbol.index() as usize) {
        Some(found) => meant_place(&found.meaning),
        None => None,
    }
}

/// The symbols as they are known where no row is moved.
impl Known for RowView<'_> {
    ghost use Rattle.std.specs.Prelude.{[]};
    ghost use Rattle.row_distances.specs.Places.{row_told};

    ghost told = { λ view symbol. row_told view.symbols.now view.own view.starts.now [] symbol };

    ghost meant = { λ _ _. 0 };

    ghost place = { λ _. 0 };

    fn look(&self, symbol: SymId) -> Look<'_> {
        match place_of(*self, symbol) {
            Some(place) => Look::Label {
                stretch: u64::from(place.section),
                at: place.place.offset,
            },
            None => Look::Absent,
        }
    }

    fn symbol(&self, _written: &Written) -> SymId {
        SymId::new(0)
    }

    fn here(&self) -> SymId {
        SymId::new(0)
    }
}

/// The row that moves a place, if it is one of so many.
pub(crate) fn row_at(starts: &[u32], place: SectionPlace, count: u32) -> Option<u32>
    ensures { result ≡ spec.row_among starts.now place count }
{
    let first = match starts.get(place.section as usize) {
        Some(first) => u64::from(*first),
        None => 0,
    };
    let row = first.checked_add(place.place.item)?;
    if row < u64::from(count) {
        Some(row as u32)
    } else {
        None
    }
}
