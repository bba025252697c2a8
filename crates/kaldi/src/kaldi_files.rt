//! The model's three binary files: each checked from its start to its last item, with nothing
//! written. As `DiagGmm::parse`, `IvectorExtractor::parse` and the LDA's part of
//! `IvectorInfo::open` in the Rust.

pub mod checks;
pub mod parts;
