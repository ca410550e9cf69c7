//! Distances.

ghost use Rattle.std.specs.Prelude.{◌<◌, ◌^◌};

/// A distance from the frame address, modulo 2^64.
#[derive(Clone, Copy)]
pub(crate) struct Distance {
    pub(crate) value: u64,
    ghost fits: { value < 2 ^ 64 },
}
