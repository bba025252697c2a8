//! The Gaussians of a model: likelihoods of a frame, the leading posteriors, and the sums of a
//! batch over them.
#![tactic(auto)]

pub mod batch_sums;
pub mod diag_gmm;
pub mod leading;
pub mod posteriors;
pub mod table_sums;
