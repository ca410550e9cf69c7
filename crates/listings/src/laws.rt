//! What holds of each listing.

ghost use Rattle.listings.specs.Listings.{AllBytesAreListed, OneListing};

/// The lines of a listing show all bytes of the byte string, in order, each once, and at its offset.
#[tactic(auto, using(crate::proofs::AllBytes::all_bytes))]
pub fn lists_all_bytes()
    ensures { AllBytesAreListed }
{}

/// A byte string has one listing: its offsets, its bytes and its instructions.
#[tactic(auto, using(crate::proofs::OneLists::one_listing))]
pub fn one_listing()
    ensures { OneListing }
{}
