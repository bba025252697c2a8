//! Kaldi's files, binary and text, and the maker's settings texts: read and checked as they stand
//! in memory.
#![tactic(auto)]

pub mod kaldi_files;
pub mod kaldi_io;
pub mod kaldi_text;
pub mod settings;
