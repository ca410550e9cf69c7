//! The end of a source, from what was placed to its object.
#![tactic(auto)]

mod ending;
mod laws;
mod synthesizing;

pub use ending::{Counts, NotedObject, finished, synthesized_object};
pub use laws::{
    ending_frames_are_ready, functions_are_ready, objects_are_finished, synthesis_is_one,
    the_end_is_no_reading,
};
