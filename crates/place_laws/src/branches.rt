//! Where branches lead.

ghost use Rattle.place_laws.specs.Branches.{BranchesLead};
ghost use Rattle.place_laws.specs.Jumps.{JumpsLead, SpotsAreAddresses};

use crate::ends::ends_are_addresses;
use asm_relax::distances_lead_to_labels;

/// The value of the field of a branch to a label of its section, counted from the end of the
/// instruction, leads to the label: over plain bytes, as in the loop group, or in the item of a
/// jump.
pub fn branches_lead()
    ensures { BranchesLead }
{
    distances_lead_to_labels();
}

/// A label has the address of the place where it is put.
pub fn spots_are_addresses()
    ensures { SpotsAreAddresses }
{
    ends_are_addresses();
}

/// A direct jump to a label of its section leads to it, whichever size it has in the layout.
pub fn jumps_lead()
    ensures { JumpsLead }
{
    branches_lead();
    ends_are_addresses();
}
