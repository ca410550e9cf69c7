//! The register from which the frame address is counted.

ghost use Rattle.std.specs.Prelude.{◌≡◌};
ghost use Rattle.stack_depths.specs.States.{distances_in};
ghost use Rattle.scfi_pass.specs.Rows as spec;

use crate::rows::Cfa;
use stack_depths::DepthTable;

/// Whether a distance is at most 0, as a signed number.
fn at_most_zero(distance: u64) -> bool
    ensures { result ≡ spec.at_most_zero distance }
{
    distance == 0 || distance >= 1 << 63
}

fn known_by(register: u8, distance: Option<u64>) -> Option<Cfa>
    ensures { result ≡ spec.known_by register distance }
{
    match distance {
        None => None,
        Some(distance) => Some(Cfa { register, distance }),
    }
}

fn low_by(register: u8, distance: Option<u64>) -> Option<Cfa>
    ensures { result ≡ spec.low_by register distance }
{
    match distance {
        None => None,
        Some(distance) => {
            if at_most_zero(distance) {
                Some(Cfa { register, distance })
            } else {
                None
            }
        }
    }
}

fn or_else(one: Option<Cfa>, other: Option<Cfa>) -> Option<Cfa>
    ensures { result ≡ spec.or_else one other }
{
    match one {
        None => other,
        Some(cfa) => Some(cfa),
    }
}

/// The frame address from the first of rbx, r12 to r15 that gives it.
#[inline(never)]
fn other_cfa(depths: &DepthTable, item: usize) -> Option<Cfa>
    ensures { result ≡ spec.other_cfa (distances_in depths.now item) }
{
    let rbx = low_by(1, depths.distance(item, 1));
    let r12 = low_by(3, depths.distance(item, 3));
    let r13 = low_by(4, depths.distance(item, 4));
    let r14 = low_by(5, depths.distance(item, 5));
    let r15 = low_by(6, depths.distance(item, 6));
    or_else(rbx, or_else(r12, or_else(r13, or_else(r14, r15))))
}

/// The frame address from rsp, or else from the others.
fn stack_cfa(depths: &DepthTable, item: usize) -> Option<Cfa>
    ensures { result ≡ spec.stack_cfa (distances_in depths.now item) }
{
    match known_by(0, depths.distance(item, 0)) {
        Some(cfa) => Some(cfa),
        None => other_cfa(depths, item),
    }
}

/// The frame address, from the first register that gives it.
pub(crate) fn cfa_of(depths: &DepthTable, item: usize) -> Option<Cfa>
    ensures { result ≡ spec.cfa_of (distances_in depths.now item) }
{
    match low_by(2, depths.distance(item, 2)) {
        Some(cfa) => Some(cfa),
        None => stack_cfa(depths, item),
    }
}
