//! How items and their nodes agree with what they are in bytes.

ghost use Rattle.scfi_laws.specs.LaidLaws.{NodesSuitItems, InnerJumpsArePlain, LoopsArePlain};

/// What is asked of calls and padding where items lie in bytes is so of each node in the graph of a
/// function.
#[tactic(auto, using(crate::proofs::Suiting::nodes_suit_items))]
pub fn nodes_suit_items()
    ensures { NodesSuitItems }
{}

/// The bytes of a direct jump that is no exit lead where it does, as in `1: nop; jmp 1b`.
#[tactic(auto, using(crate::proofs::Suiting::inner_jumps_are_plain, crate::proofs::Suiting::loops_are_plain))]
pub fn inner_jumps_are_plain()
    ensures plain { InnerJumpsArePlain }
    ensures worked { LoopsArePlain }
{}
