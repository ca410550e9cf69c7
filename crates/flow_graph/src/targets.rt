//! What direct jumps and calls lead to.

/// What a direct jump or call leads to.
#[derive(Clone, Copy)]
pub enum Target {
    /// A label of the function, at which this item begins. Another object may put its own definition
    /// in its place.
    Inside { item: u32, preemptible: bool },
    /// Another symbol.
    Outside,
    /// What is no symbol alone.
    Unknown,
}
