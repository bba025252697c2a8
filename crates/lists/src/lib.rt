//! Lists of calls given as slices, and a load to try a stream with: calls drawn from a seed, their
//! totals, and a model to play them on.
#![tactic(auto)]

pub mod run_calls;
pub mod try_load;
pub mod try_model;
pub mod try_notes;
pub mod try_play;
