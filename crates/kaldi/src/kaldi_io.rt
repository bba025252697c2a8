//! Reader of Kaldi's binary format, on lent bytes and a position: as `KaldiReader` in the Rust. A
//! block is checked where it stands; its numbers are read from there once everything is checked.

pub mod blocks;
mod items;
pub mod reader;
pub mod widths;

/// The most Gaussians.
pub const MAX_GAUSS: usize = 1024;

/// The most features.
pub const MAX_FEAT: usize = 64;

/// The longest i-vector.
pub const MAX_IVECTOR: usize = 128;

/// The most columns of an LDA.
pub const MAX_COLUMNS: usize = 1089;

/// The most numbers of a vector that is skipped, rows or columns of a matrix that is.
pub const MAX_SKIPPED: usize = 1_000_000;
