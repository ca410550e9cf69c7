//! How items of several levels grow in rounds: the one ranking of their levels, and what it comes to.
#![tactic(auto)]

mod laws;

pub use laws::{
    layouts_are_reached, layouts_take_few_rounds, levels_hold, levels_never_fall,
    levels_stay_within, one_ranking, one_round_more, raised_by_index, rounds_are_few,
    rounds_reach_the_layout, some_ranking,
};
