//! Running an entry's instructions.

ghost use Rattle.std.specs.Prelude.{◌≡◌, ◌-◌, ◌+◌, ◌*◌, ◌^◌, ◌<◌, ◌≤◌, IfSome, OnSome, length};
ghost use Rattle.std.specs.Option.{option_map};
ghost use Rattle.cfi_entries.specs.Places as spec;
ghost use Rattle.cfi_entries.specs.Walks.{walk_of, step, Steps, Continues};

use crate::changing::change;
use arrayvec::ArrayVec;
use cfi_rows::{CfaRow, Insn, next_insn};

/// How far the instructions are run.
#[derive(Drop)]
pub struct Running {
    /// The distance from the entry's start.
    place: u64,
    row: CfaRow,
    saved: ArrayVec<CfaRow, 16>,
    /// The last row that was not past the place asked for.
    found: CfaRow,
}

fn take_step(running: &mut Running, initial: &CfaRow, at: u64, insn: Insn) -> Option<()>
    requires { running.old.place + 2 ^ 32 ≤ 2 ^ 64 }
    ensures value { Steps (step initial.now at insn (walk_of running.old)) result
        (walk_of running.new) }
    ensures near { OnSome result (running.new.place < running.old.place + 2 ^ 32) }
{
    match insn {
        Insn::Nop => {}
        Insn::Advance(distance) => running.place += distance as u64,
        Insn::Op(op) => change(&mut running.row, &mut running.saved, initial, op)?,
    }
    if running.place <= at {
        running.found = running.row;
    }
    Some(())
}

/// Runs the first instruction of the bytes, and answers the others.
#[tactic(auto, using(crate::proofs::RunLemmas::ran_on, crate::proofs::RunLemmas::ran_stopped, crate::proofs::RunLemmas::ran_unread))]
fn run_first<'a>(
    running: &mut Running,
    initial: &CfaRow,
    at: u64,
    bytes: &'a [u8],
) -> Option<&'a [u8]>
    requires place { running.old.place + 2 ^ 32 ≤ 2 ^ 64 }
    requires some { 0 < length bytes.now }
    ensures value { Continues initial.now at bytes.now (walk_of running.old)
        (option_map (λ rest. rest.now) result) (walk_of running.new) }
    ensures near { OnSome result (running.new.place < running.old.place + 2 ^ 32) }
    ensures shorter { IfSome result (λ rest. length rest.now < length bytes.now) }
{
    let (insn, rest) = next_insn(bytes)?;
    take_step(running, initial, at, insn)?;
    Some(rest)
}

/// The row in force at a place, `initial` being the one before the instructions.
#[tactic(auto, using(crate::proofs::RunLemmas::ran_end, crate::proofs::PlacedLemmas::found_is_in_force))]
pub fn row_in_force(initial: &CfaRow, at: u64, bytes: &[u8]) -> Option<CfaRow>
    requires { length bytes.now < 2 ^ 32 - 1 }
    ensures { result ≡ spec.row_in_force initial.now at bytes.now }
{
    let mut running = Running {
        place: 0,
        row: *initial,
        saved: ArrayVec::new(),
        found: *initial,
    };
    let mut rest = bytes;
    for _i in 0..bytes.len() {
        if rest.is_empty() {
            break;
        }
        rest = run_first(&mut running, initial, at, rest)?;
    }
    Some(running.found)
}
