//! How far the plan of a layout has come.

/// How far the plan of a layout has come.
#[derive(Clone, Copy, PartialEq, Eq, Debug)]
pub enum PlanState {
    /// Nothing is laid out.
    Fresh,
    /// Each item has its address and its size.
    LaidOut,
    /// The layout has a fault.
    Refused,
}
