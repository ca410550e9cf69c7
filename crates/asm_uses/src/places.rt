//! Where what is put into a section next goes, and what is known of symbols and names there.

ghost use Rattle.std.specs.Prelude.{◌≡◌};
ghost use Rattle.std.specs.List.{list_any};
ghost use Rattle.asm_uses.specs.Places.{spot_at, here_name, told_at, uses_place};
ghost use Rattle.asm_symbols.specs.Interning.{number_of};
ghost use Rattle.asm_symbols.specs.Counting.{meant_name};

use asm_base::{Place, SectionPlace};
use asm_expr::{Known, Linear, Look, Name, SymId, Written};
use asm_frags::Sections;
use asm_symbols::{Spot, Symbols};

/// Behind the bytes and items of the section of this number.
#[tactic(auto, unfolding(crate::specs::Places::spot_at))]
pub fn spot_at(sections: &Sections, number: u32) -> Spot
    ensures { result ≡ spot_at sections.now number }
{
    if (number as usize) < sections.len() {
        let section = sections.section(number);
        let extent = section.extent();
        let offset = section.bytes().len() as u64;
        Spot {
            place: SectionPlace {
                section: number,
                place: Place {
                    item: section.items().len() as u64,
                    offset,
                },
            },
            stretch: number as u64 * (1 << 32) + extent.breaks,
            at: offset + extent.bytes,
        }
    } else {
        Spot {
            place: SectionPlace {
                section: number,
                place: Place { item: 0, offset: 0 },
            },
            stretch: 0,
            at: 0,
        }
    }
}

/// The name of the place itself.
pub fn here_name(spot: Spot) -> Name
    ensures { result ≡ here_name spot }
{
    let SectionPlace { section, place } = spot.place;
    Name::Place {
        section,
        item: place.item,
        offset: place.offset,
    }
}

/// Whether a form keeps the symbol of the place.
pub fn uses_place(place: u32, form: &Linear) -> bool
    ensures { result ≡ uses_place place form.now }
{
    form.terms().iter().any(|term| term.symbol.index() == place)
}

/// Whether one of the forms keeps the symbol of the place.
pub fn one_uses_place(place: u32, forms: &[Linear]) -> bool
    ensures { result ≡ list_any (uses_place place) forms.now }
{
    forms.iter().any(|form| uses_place(place, form))
}

/// What is known of symbols and names at a place.
#[derive(Clone, Copy)]
pub struct View<'a> {
    pub symbols: &'a Symbols,
    pub spot: Spot,
    /// The index of the symbol that the place is.
    pub place: u32,
}

impl<'a> Known for View<'a> {
    ghost told = { λ view index. told_at view.symbols.now view.place view.spot index };

    ghost meant = { λ view written.
        number_of view.symbols.now (meant_name view.symbols.now.counts written) };

    ghost place = { λ view. view.place };

    fn look(&self, symbol: SymId) -> Look<'_> {
        if symbol.index() == self.place {
            Look::Label {
                stretch: self.spot.stretch,
                at: self.spot.at,
            }
        } else {
            self.symbols.look(symbol)
        }
    }

    fn symbol(&self, written: &Written) -> SymId {
        self.symbols.meant(written)
    }

    fn here(&self) -> SymId {
        SymId::new(self.place)
    }
}
