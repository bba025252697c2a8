//! A stream behind a block of registers: one step for each command.
#![tactic(auto)]

pub mod register_bytes;
pub mod registers;
