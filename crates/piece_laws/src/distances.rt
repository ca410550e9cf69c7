//! What holds of the distances and addresses of every table.

ghost use Rattle.piece_laws.specs.HeldDistances.{AddressesAreLinked, DistancesAreHeld, FormsAreExpanded, PlacesAreApart};
ghost use Rattle.piece_laws.specs.Pointers.{OneSymbolsStay};

/// In every layout the value of a distance between two marks of one section leads from the one to the other, modulo 2^64.
/// Its form names labels, and so no assigned symbol; between two places it does not name the field's own place. The field of
/// an address has no value: it is the linker's. A form of one symbol that is no assigned one, alone or less the field's own
/// place, is that of the field.
pub fn distances_are_held()
    ensures held { DistancesAreHeld }
    ensures expanded { FormsAreExpanded }
    ensures places { PlacesAreApart }
    ensures linked { AddressesAreLinked }
    ensures symbols { OneSymbolsStay }
{}
