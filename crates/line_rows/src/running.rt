//! Running a line program.

ghost use Rattle.std.specs.Prelude.{◌≡◌, ◌+◌, ◌-◌, ◌^◌, ◌<◌, ◌≤◌, IfSome, OnSome, length};
ghost use Rattle.std.specs.Option.{option_map};
ghost use Rattle.line_rows.specs.Rows as spec;
ghost use Rattle.line_rows.specs.Walks.{seen, Sees, Continues};

use crate::machine::{Machine, start, step};
use crate::ops::next_op;
use crate::rows::{Line, LineOp, LineRow};

/// What was found of the row at a place of a sequence.
#[derive(Clone, Copy)]
pub enum Search {
    /// So many sequences end before it begins, and the last row of it at or before the place.
    Looking(u32, Option<LineRow>),
    /// The sequence is over.
    Done(Option<LineRow>),
}

fn see(search: &mut Search, at: u64, line: Line)
    ensures { search.new ≡ seen at line search.old }
{
    if let Search::Looking(left, found) = *search {
        *search = match line.1 {
            Some(row) => {
                if left == 0 && line.0 <= at {
                    Search::Looking(0, Some(row))
                } else {
                    Search::Looking(left, found)
                }
            }
            None => {
                if left > 0 {
                    Search::Looking(left - 1, None)
                } else if at < line.0 {
                    Search::Done(found)
                } else {
                    Search::Done(None)
                }
            }
        };
    }
}

/// How far a program is run.
#[derive(Clone, Copy)]
pub struct Walk {
    machine: Machine,
    search: Search,
}

fn take_step(walk: &mut Walk, at: u64, op: LineOp) -> Option<()>
    requires { walk.old.machine.address + 2 ^ 64 ≤ 2 ^ 128 }
    ensures value { Sees at op walk.old result walk.new }
    ensures near { OnSome result (walk.new.machine.address ≤ walk.old.machine.address + 2 ^ 64) }
{
    if let Some(line) = step(&mut walk.machine, op)? {
        see(&mut walk.search, at, line);
    }
    Some(())
}

/// Runs the first operation of the bytes, and answers the others.
#[tactic(auto, using(crate::proofs::RunLemmas::ran_on, crate::proofs::RunLemmas::ran_stopped, crate::proofs::RunLemmas::ran_unread))]
fn run_first<'a>(walk: &mut Walk, at: u64, bytes: &'a [u8]) -> Option<&'a [u8]>
    requires place { walk.old.machine.address + 2 ^ 64 ≤ 2 ^ 128 }
    requires some { 0 < length bytes.now }
    ensures value { Continues at bytes.now walk.old (option_map (λ rest. rest.now) result)
        walk.new }
    ensures near { OnSome result (walk.new.machine.address ≤ walk.old.machine.address + 2 ^ 64) }
    ensures shorter { IfSome result (λ rest. length rest.now < length bytes.now) }
{
    let (op, rest) = next_op(bytes)?;
    take_step(walk, at, op)?;
    Some(rest)
}

/// The row in force at a place of a program's sequence.
#[tactic(auto, using(crate::proofs::RunLemmas::ran_end, crate::proofs::RunLemmas::ran_start, crate::proofs::RunLemmas::none_found))]
pub fn row_in_program(program: &[u8], seq: u32, at: u64) -> Option<LineRow>
    requires { length program.now < 2 ^ 32 - 1 }
    ensures { result ≡ spec.row_in_program program.now seq at }
{
    let mut walk = Walk {
        machine: start(),
        search: Search::Looking(seq, None),
    };
    let mut rest = program;
    for _i in 0..program.len() {
        if rest.is_empty() {
            break;
        }
        rest = run_first(&mut walk, at, rest)?;
    }
    match walk.search {
        Search::Looking(_left, _found) => None,
        Search::Done(answer) => answer,
    }
}
