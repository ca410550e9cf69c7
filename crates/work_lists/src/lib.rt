//! A work list: states are carried over the edges of a graph until nothing changes.
#![tactic(auto)]

mod analyses;
mod carrying;
mod flowing;
mod following;
mod graphs;
mod spreading;

pub use analyses::Analysis;
pub use flowing::flow;
pub use graphs::Edges;
