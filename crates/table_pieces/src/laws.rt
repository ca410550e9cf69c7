//! What the definitions come to.

ghost use Rattle.std.specs.Prelude.{◌≡◌, ℕ, List, IsSomeAnd, slice_get};
ghost use Rattle.asm_base.specs.declared.places.SectionPlace.{SectionPlace as PlaceValue};
ghost use Rattle.asm_base.specs.declared.positions.Pos.{Pos as PosValue};
ghost use Rattle.asm_frags.specs.Writing.{LooseSection};
ghost use Rattle.asm_symbols.specs.Interning.{number_of};
ghost use Rattle.asm_symbols.specs.SymbolMap.{SymbolMap};
ghost use Rattle.table_pieces.specs.declared.ends.SectionEnd.{SectionEnd as EndValue};
ghost use Rattle.table_pieces.specs.Counts.{PiecesAreCounted};
ghost use Rattle.table_pieces.specs.Ends.{behind_pieces, end_of};
ghost use Rattle.table_pieces.specs.Found.{IsReady, PiecesStand};
ghost use Rattle.table_pieces.specs.Labels.{GetsLabels, NamesPlace, PlacesAreLabels};
ghost use Rattle.table_pieces.specs.Marks.{HaveTwoTerms, place_name, with_label};
ghost use Rattle.table_pieces.specs.Pieces.{Piece, plain, Tables, Takes, piece_put, pieces_put};
ghost use Rattle.table_pieces.specs.Ready.{SectionsKeepPlaces};
ghost use Rattle.table_pieces.specs.Standing.{Extensions, OneExtends, Reaches};
ghost use Rattle.table_pieces.specs.StandingPlaces.{PiecesBringStanding};

use section_laws::puts_stay_within;

/// What is put stands behind all that was in its section, which stays as it is, and so do all other sections.
pub fn pieces_stand_behind()
    ensures pieces { (section : ℕ) (pos : PosValue) (pieces : List Piece) (tables : Tables)
        → OneExtends section tables.sections (pieces_put section pos pieces tables).sections }
    ensures extensions { Extensions }
{}

/// The end that is counted over pieces is the end of the section behind them. Behind plain bytes it is that of a section
/// whose last item is a run.
#[tactic(auto, using(crate::proofs::EndLemmas::pieces_reach, crate::proofs::EndLemmas::plain_reaches))]
pub fn ends_are_counted()
    ensures pieces { (section : ℕ) (pos : PosValue) (pieces : List Piece) (tables : Tables)
        → (end : EndValue) → Reaches section tables.sections end
        → Reaches section (pieces_put section pos pieces tables).sections
        (behind_pieces pieces end) }
    ensures plain { (section : ℕ) (pos : PosValue) (bytes : List ℕ) (tables : Tables)
        → Takes section tables.sections
        → Reaches section (piece_put section pos (plain bytes) tables).sections
        (end_of section (piece_put section pos (plain bytes) tables).sections) }
{}

/// The symbol that a form names for a place is a label there, if each symbol that has the name of a place is one; and so it
/// stays, since labels of places alone are added, behind all symbols.
pub fn places_are_named()
    ensures named { (map : SymbolMap) (at : PlaceValue) → PlacesAreLabels map
        → NamesPlace (with_label map at) (number_of map (place_name at)) at }
    ensures known { (before after : SymbolMap) → PlacesAreLabels before
        → GetsLabels before after → PlacesAreLabels after }
    ensures stays { (before after : SymbolMap) (number : ℕ) (at : PlaceValue)
        → GetsLabels before after → NamesPlace before number at → NamesPlace after number at }
    ensures pieces { (section : ℕ) (pos : PosValue) (pieces : List Piece) (tables : Tables)
        → GetsLabels tables.symbols (pieces_put section pos pieces tables).symbols }
    ensures same { (map : SymbolMap) → GetsLabels map map }
    ensures on { (before middle after : SymbolMap) → GetsLabels before middle
        → GetsLabels middle after → GetsLabels before after }
{}

/// Pieces that are put stand in their section in the end, whatever is put behind them: each where the end of the section
/// was.
pub fn pieces_are_found()
    ensures ready { (section : ℕ) (pos : PosValue) (pieces : List Piece) (tables : Tables)
        → (end : EndValue) → IsReady section tables.sections end → IsReady section
        (pieces_put section pos pieces tables).sections (behind_pieces pieces end) }
    ensures pieces { (section : ℕ) (pos : PosValue) (pieces : List Piece) (tables : Tables)
        → (end : EndValue) (last : List LooseSection) → IsReady section tables.sections end
        → OneExtends section (pieces_put section pos pieces tables).sections last
        → IsSomeAnd (slice_get last section)
        (λ held. PiecesStand held section pos end tables pieces) }
{
    puts_stay_within();
}

/// The form of a distance between marks with two symbols is the one symbol, less the other, and a number.
#[tactic(auto, using(crate::proofs::FormLemmas::two_terms))]
pub fn distances_have_two_terms()
    ensures { HaveTwoTerms }
{}

/// Where the places of pieces stand in their sections, so do those of the labels that the pieces bring.
#[tactic(auto, using(crate::proofs::StandingLabels::bring_standing))]
pub fn pieces_bring_standing_labels()
    ensures { PiecesBringStanding }
{}

/// Places stay in their sections where more is put behind them, and so do all symbols that have a place.
#[tactic(auto, using(crate::proofs::KeptPlaces::keep_places))]
pub fn sections_keep_places()
    ensures { SectionsKeepPlaces }
{}

/// A distance brings at most two labels, an address one; and how many plain bytes pieces have.
#[tactic(auto, using(crate::proofs::CountedPieces::are_counted))]
pub fn pieces_are_counted()
    ensures { PiecesAreCounted }
{}
