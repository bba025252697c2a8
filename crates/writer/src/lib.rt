//! A model written back as the bytes of its files.
#![tactic(auto)]

pub mod byte_writer;
pub mod model_bytes;
pub mod model_checks;
pub mod model_writer;
