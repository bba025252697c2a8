//! Arithmetic on rows and packed symmetric matrices, and the solver of the estimate.
#![tactic(auto)]

pub mod basics;
pub mod linear;
pub mod packed_matrix;
