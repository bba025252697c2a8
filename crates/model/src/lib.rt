//! A model in lent tables: its load from the files' bytes, and how much memory it and a stream
//! need.
#![tactic(auto)]

pub mod ivector_info;
pub mod ivector_tables;
pub mod memory;
