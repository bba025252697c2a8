//! The reader of Kaldi's binary format: lent bytes and a position, as `KaldiReader` in the Rust.
//! What it reads, the functions on bytes and a place read (items.rt); here the position moves
//! behind it.

ghost use Rattle.std.specs.Prelude.{◌≡◌, ◌<◌, ◌≤◌, IfOk};
ghost use Rattle.definition.specs.Options.{max_feat};
ghost use Rattle.floats.specs.Real.{by_width};
ghost use Rattle.definition.specs.Kaldi.{binary, word, token, dim, block_width, single, packed_matrix, vector, matrix, skipped};
ghost use Rattle.kaldi.specs.Widths.{format_of};
ghost use Rattle.kaldi.specs.Inner.KaldiIoGot.{parsed, list_of, as_read, numbers_in, matrix_in, packed_in};

use crate::kaldi_io::blocks::{Matrix, Numbers, Packed};
use crate::kaldi_io::items::{
    binary_at, dim_at, float_at, matrix_at, packed_at, skipped_at, vector_at, width_at, word_at,
};
use crate::kaldi_io::widths::Width;
use definition::{Refusal, need};
use floats::{KeepAs, Real};

/// The lent bytes, and the place of the next one.
#[derive(Clone, Copy)]
pub struct KaldiReader<'a> {
    pub src: &'a [u8],
    pub at: usize,
}

// Each method that moves says that the bytes stay the same ones (limit: same bytes).
impl<'a> KaldiReader<'a> {
    /// At the first byte.
    pub fn new(src: &'a [u8]) -> KaldiReader<'a>
        ensures { (result.src ≡ src.entry) × (result.at ≡ 0) }
    {
        KaldiReader { src, at: 0 }
    }

    /// The mark at the start of a file.
    pub fn binary(&mut self) -> Result<(), Refusal>
        ensures value { parsed as_read result self.new.at ≡ binary self.old.src.now self.old.at }
        ensures same_source { self.new.src ≡ self.old.src }
    {
        self.at = binary_at(self.src, self.at)?;
        Ok(())
    }

    /// The next word: blanks before it are skipped, and the one that ends it is read too.
    pub fn word(&mut self) -> Result<&'a [u8], Refusal>
        ensures value { parsed list_of result self.new.at ≡ word self.old.src.now self.old.at }
        ensures same_source { self.new.src ≡ self.old.src }
    {
        let (found, next) = word_at(self.src, self.at)?;
        self.at = next;
        Ok(found)
    }

    /// The next word, which has to be `want`.
    #[tactic(auto, unfolding(loops::specs::Refusal::first_of, definition::specs::Kaldi::token))]
    pub fn token(&mut self, want: &[u8]) -> Result<(), Refusal>
        ensures value { parsed as_read result self.new.at
            ≡ token want.now self.old.src.now self.old.at }
        ensures same_source { self.new.src ≡ self.old.src }
    {
        // by the word as it was read, which is faster than by a function on bytes and a place
        let found = self.word()?;
        need(found == want, Refusal::BadMark)
    }

    /// The size byte 4, and a number from `low` to `high`.
    pub fn dim(&mut self, low: usize, high: usize) -> Result<usize, Refusal>
        ensures value { parsed as_read result self.new.at
            ≡ dim low high self.old.src.now self.old.at }
        ensures range { IfOk result (λ n. (low ≤ n) × (n ≤ high)) }
        ensures four_bytes { IfOk result (λ n. n < 4294967296) }
        ensures same_source { self.new.src ≡ self.old.src }
    {
        let (n, next) = dim_at(self.src, self.at, low, high)?;
        self.at = next;
        Ok(n)
    }

    /// A block's tag: that of f32, or that of f64.
    pub fn width(&mut self, single: &[u8], double: &[u8]) -> Result<Width, Refusal>
        ensures value { parsed format_of result self.new.at
            ≡ block_width (by_width single.now double.now) self.old.src.now self.old.at }
        ensures same_source { self.new.src ≡ self.old.src }
    {
        let (width, next) = width_at(self.src, self.at, single, double)?;
        self.at = next;
        Ok(width)
    }

    /// The size byte 4 or 8, and a finite number of so many bytes.
    pub fn number(&mut self) -> Result<f64, Refusal>
        ensures value { parsed as_read result self.new.at ≡ single self.old.src.now self.old.at }
        ensures same_source { self.new.src ≡ self.old.src }
    {
        let (x, next) = float_at(self.src, self.at)?;
        self.at = next;
        Ok(x)
    }

    /// A symmetric matrix for a table of f64: its lower triangle, row after row.
    pub fn packed(&mut self) -> Result<Packed<'a>, Refusal>
        ensures value { parsed packed_in result self.new.at
            ≡ packed_matrix self.old.src.now self.old.at }
        ensures range { IfOk result (λ m. (1 ≤ m.dim) × (m.dim ≤ max_feat)) }
        ensures same_source { self.new.src ≡ self.old.src }
    {
        let (matrix, next) = packed_at(self.src, self.at)?;
        self.at = next;
        Ok(matrix)
    }

    /// A vector of at most `most` numbers, for a table of `K`; each above 0 where `positive` says
    /// so.
    pub fn vector<K: Real>(&mut self, positive: bool, most: usize) -> Result<Numbers<'a>, Refusal>
    where
        f32: KeepAs<K>,
        f64: KeepAs<K>,
        ensures value { parsed (numbers_in K.format) result self.new.at
            ≡ vector K.format positive most self.old.src.now self.old.at }
        ensures range { IfOk result (λ s. (1 ≤ s.count) × (s.count ≤ most)) }
        ensures same_source { self.new.src ≡ self.old.src }
    {
        let (numbers, next) = vector_at::<K>(self.src, self.at, positive, most)?;
        self.at = next;
        Ok(numbers)
    }

    /// A matrix, row after row, for a table of `K`; each number above 0 where `positive` says so.
    pub fn matrix<K: Real>(
        &mut self,
        positive: bool,
        most_rows: usize,
        most_cols: usize,
    ) -> Result<Matrix<'a>, Refusal>
    where
        f32: KeepAs<K>,
        f64: KeepAs<K>,
        requires { (most_rows ≤ 1000000) × (most_cols ≤ 1000000) }
        ensures value { parsed (matrix_in K.format) result self.new.at
            ≡ matrix K.format positive most_rows most_cols self.old.src.now self.old.at }
        ensures rows { IfOk result (λ m. (1 ≤ m.rows) × (m.rows ≤ most_rows)) }
        ensures cols { IfOk result (λ m. (1 ≤ m.cols) × (m.cols ≤ most_cols)) }
        ensures same_source { self.new.src ≡ self.old.src }
    {
        let (matrix, next) = matrix_at::<K>(self.src, self.at, positive, most_rows, most_cols)?;
        self.at = next;
        Ok(matrix)
    }

    /// A vector that is not kept: skipped by its length.
    pub fn skip(&mut self) -> Result<(), Refusal>
        ensures value { parsed as_read result self.new.at ≡ skipped self.old.src.now self.old.at }
        ensures same_source { self.new.src ≡ self.old.src }
    {
        self.at = skipped_at(self.src, self.at)?;
        Ok(())
    }
}
