//! The items of Kaldi's binary format. Each of these reads one from lent bytes at a place, as a
//! parser of the definition does: it gives the item and the place behind it, or says why it cannot.
//! A block's numbers are checked where they stand, and are read from there once everything is
//! checked.

ghost use Rattle.std.specs.Prelude.{◌≡◌, ◌+◌, ◌-◌, ◌<◌, ◌≤◌, not, ◌*◌, length, take, drop, IfOk, List, ℕ, from_bits};
ghost use Rattle.std.specs.Float.{binary32, binary64};
ghost use Rattle.std.specs.List.{prefix_len};
ghost use Rattle.definition.specs.Options.{max_feat};
ghost use Rattle.floats.specs.Real.{by_width, byte_width};
ghost use Rattle.definition.specs.Reader.{bytes, little_endian, floats};
ghost use Rattle.definition.specs.Kaldi.{binary, blank, word, dim, block_width, width_by, single, packed_matrix, vector, matrix, skipped};
ghost use Rattle.kaldi.specs.Widths.{format_of};
ghost use Rattle.kaldi.specs.Inner.KaldiIoGot.{parsed, parsed_at, passed, list_of, as_read, numbers_in, matrix_in, packed_in};

use crate::kaldi_io::blocks::{Matrix, Numbers, Packed, are_kept, is_kept};
use crate::kaldi_io::widths::Width;
use crate::kaldi_io::{MAX_FEAT, MAX_SKIPPED};
use definition::{Refusal, need};
use floats::{KeepAs, Real};

// ---- bytes

// The bytes from a place on.
fn rest(src: &[u8], at: usize) -> &[u8]
    ensures { result.now ≡ drop at src.now }
{
    src.get(at..).unwrap_or(&[])
}

// The next `n` bytes.
#[tactic(auto, unfolding(loops::specs::Refusal::first_of, definition::specs::Reader::bytes))]
fn bytes_at(src: &[u8], at: usize, n: usize) -> Result<(&[u8], usize), Refusal>
    ensures value { parsed_at list_of result ≡ bytes n src.now at }
    ensures count { IfOk result (λ r. length r.0.now ≡ n) }
{
    let found = rest(src, at).get(..n).ok_or(Refusal::CutShort)?;
    Ok((found, at + n))
}

// The mark at the start of a file.
#[tactic(auto, unfolding(loops::specs::Refusal::first_of, definition::specs::Kaldi::binary))]
pub(crate) fn binary_at(src: &[u8], at: usize) -> Result<usize, Refusal>
    ensures { passed result ≡ binary src.now at }
{
    let (mark, next) = bytes_at(src, at, 2)?;
    need(mark == b"\0B".as_slice(), Refusal::BadMark)?;
    Ok(next)
}

// ---- words

// Space, newline and tab.
#[tactic(auto, unfolding(definition::specs::Kaldi::blank))]
fn is_blank(b: u8) -> bool
    ensures { result ≡ blank b }
{
    matches!(b, b' ' | b'\n' | b'\t')
}

// How many bytes in front are blanks.
fn blanks_len(bytes: &[u8]) -> usize
    ensures value { result ≡ prefix_len blank bytes.now }
    ensures within { result ≤ length bytes.now }
{
    bytes.iter().take_while(|b| is_blank(**b)).count()
}

// How many are none.
fn letters_len(bytes: &[u8]) -> usize
    ensures { result ≡ prefix_len (λ b. not (blank b)) bytes.now }
{
    bytes.iter().take_while(|b| !is_blank(**b)).count()
}

// The next word: blanks before it are skipped, and the one that ends it is read too.
#[tactic(auto, unfolding(loops::specs::Refusal::first_of), using(crate::proofs::Words::words))]
pub(crate) fn word_at(src: &[u8], at: usize) -> Result<(&[u8], usize), Refusal>
    ensures { parsed_at list_of result ≡ word src.now at }
{
    let rest = rest(src, at);
    let from = blanks_len(rest);
    let rest = &rest[from..];
    let len = letters_len(rest);
    need(len < rest.len(), Refusal::CutShort)?;
    Ok((&rest[..len], at + from + len + 1))
}

// ---- numbers

// Four bytes, from low to high.
#[tactic(auto, unfolding(definition::specs::Reader::little_endian))]
fn u32_of(bytes: &[u8]) -> u32
    requires { length bytes.now ≡ 4 }
    ensures { result ≡ little_endian bytes.now }
{
    u32::from_le_bytes([bytes[0], bytes[1], bytes[2], bytes[3]])
}

// The size byte 4, and a number from `low` to `high`.
#[tactic(auto, unfolding(loops::specs::Refusal::first_of, definition::specs::Kaldi::dim))]
pub(crate) fn dim_at(
    src: &[u8],
    at: usize,
    low: usize,
    high: usize,
) -> Result<(usize, usize), Refusal>
    ensures value { parsed_at as_read result ≡ dim low high src.now at }
    ensures range { IfOk result (λ r. (low ≤ r.0) × (r.0 ≤ high)) }
    ensures four_bytes { IfOk result (λ r. r.0 < 4294967296) }
{
    let (size, next) = bytes_at(src, at, 1)?;
    need(size == [4].as_slice(), Refusal::BadMark)?;
    let (number, next) = bytes_at(src, next, 4)?;
    let n = u32_of(number) as usize;
    need((low..=high).contains(&n), Refusal::DimensionRange)?;
    Ok((n, next))
}

// The width whose mark it is.
#[tactic(auto, unfolding(loops::specs::Refusal::first_of, definition::specs::Kaldi::width_by))]
fn width_of(mark: &[u8], single: &[u8], double: &[u8]) -> Result<Width, Refusal>
    ensures { (s : List ℕ) (at : ℕ)
        → parsed format_of result at ≡ width_by (by_width single.now double.now) mark.now s at }
{
    if mark == single {
        return Ok(Width::Single);
    }
    need(mark == double, Refusal::BadMark)?;
    Ok(Width::Double)
}

// A block's tag: that of f32, or that of f64.
#[tactic(auto, unfolding(definition::specs::Kaldi::block_width, definition::specs::Kaldi::width_by))]
pub(crate) fn width_at(
    src: &[u8],
    at: usize,
    single: &[u8],
    double: &[u8],
) -> Result<(Width, usize), Refusal>
    ensures { parsed_at format_of result ≡ block_width (by_width single.now double.now) src.now at }
{
    let (tag, next) = word_at(src, at)?;
    let width = width_of(tag, single, double)?;
    Ok((width, next))
}

// A number of so many bytes.
#[tactic(auto, using(crate::proofs::Values::reads))]
fn f64_of(bytes: &[u8], width: Width) -> f64
    requires { length bytes.now ≡ byte_width (format_of width) }
    ensures { result ≡ from_bits (format_of width) (little_endian bytes.now) }
{
    match width {
        Width::Single => f32::read(bytes).widen(),
        Width::Double => f64::read(bytes),
    }
}

// The size byte 4 or 8, and a finite number of so many bytes.
#[tactic(auto, unfolding(loops::specs::Refusal::first_of, definition::specs::Kaldi::single, definition::specs::Kaldi::width_by, definition::specs::Reader::kept))]
pub(crate) fn float_at(src: &[u8], at: usize) -> Result<(f64, usize), Refusal>
    ensures { parsed_at as_read result ≡ single src.now at }
{
    let (size, next) = bytes_at(src, at, 1)?;
    let width = width_of(size, &[4], &[8])?;
    let (bytes, next) = bytes_at(src, next, width.bytes())?;
    let x = f64_of(bytes, width);
    need(is_kept(x, false), Refusal::BadNumber)?;
    Ok((x, next))
}

// ---- blocks

// `n` numbers, for a table of `K`: their whole extent, then each of them. `positive`, here and
// below, is the flag of the definition's `floats`.
#[tactic(auto, unfolding(loops::specs::Refusal::first_of, definition::specs::Reader::floats))]
fn numbers_at<K: Real>(
    src: &[u8],
    at: usize,
    width: Width,
    n: usize,
    positive: bool,
) -> Result<(Numbers<'_>, usize), Refusal>
where
    f32: KeepAs<K>,
    f64: KeepAs<K>,
    requires { n ≤ 1000000000000 }
    ensures value { parsed_at (numbers_in K.format) result
        ≡ floats K.format (format_of width) positive n src.now at }
    ensures count { IfOk result (λ r. r.0.count ≡ n) }
{
    let (bytes, next) = bytes_at(src, at, n * width.bytes())?;
    need(are_kept::<K>(bytes, width, n, positive), Refusal::BadNumber)?;
    Ok((
        Numbers {
            bytes,
            width,
            count: n,
        },
        next,
    ))
}

// A vector of at most `most` numbers, for a table of `K`.
#[tactic(auto, unfolding(loops::specs::Refusal::first_of, definition::specs::Kaldi::vector))]
pub(crate) fn vector_at<K: Real>(
    src: &[u8],
    at: usize,
    positive: bool,
    most: usize,
) -> Result<(Numbers<'_>, usize), Refusal>
where
    f32: KeepAs<K>,
    f64: KeepAs<K>,
    ensures value { parsed_at (numbers_in K.format) result
        ≡ vector K.format positive most src.now at }
    ensures range { IfOk result (λ r. (1 ≤ r.0.count) × (r.0.count ≤ most)) }
{
    let (width, next) = width_at(src, at, b"FV", b"DV")?;
    let (n, next) = dim_at(src, next, 1, most)?;
    numbers_at::<K>(src, next, width, n, positive)
}

// A matrix, row after row, for a table of `K`.
#[tactic(auto, unfolding(loops::specs::Refusal::first_of, definition::specs::Kaldi::matrix))]
pub(crate) fn matrix_at<K: Real>(
    src: &[u8],
    at: usize,
    positive: bool,
    most_rows: usize,
    most_cols: usize,
) -> Result<(Matrix<'_>, usize), Refusal>
where
    f32: KeepAs<K>,
    f64: KeepAs<K>,
    requires { (most_rows ≤ 1000000) × (most_cols ≤ 1000000) }
    ensures value { parsed_at (matrix_in K.format) result
        ≡ matrix K.format positive most_rows most_cols src.now at }
    ensures rows { IfOk result (λ r. (1 ≤ r.0.rows) × (r.0.rows ≤ most_rows)) }
    ensures cols { IfOk result (λ r. (1 ≤ r.0.cols) × (r.0.cols ≤ most_cols)) }
{
    let (width, next) = width_at(src, at, b"FM", b"DM")?;
    let (rows, next) = dim_at(src, next, 1, most_rows)?;
    let (cols, next) = dim_at(src, next, 1, most_cols)?;
    let (numbers, next) = numbers_at::<K>(src, next, width, rows * cols, positive)?;
    Ok((
        Matrix {
            rows,
            cols,
            numbers,
        },
        next,
    ))
}

// A symmetric matrix for a table of f64: its lower triangle, row after row.
#[tactic(auto, unfolding(definition::specs::Kaldi::packed_matrix))]
pub(crate) fn packed_at(src: &[u8], at: usize) -> Result<(Packed<'_>, usize), Refusal>
    ensures value { parsed_at packed_in result ≡ packed_matrix src.now at }
    ensures range { IfOk result (λ r. (1 ≤ r.0.dim) × (r.0.dim ≤ max_feat)) }
{
    let (width, next) = width_at(src, at, b"FP", b"DP")?;
    let (dim, next) = dim_at(src, next, 1, MAX_FEAT)?;
    let (numbers, next) = numbers_at::<f64>(src, next, width, dim * (dim + 1) / 2, false)?;
    Ok((Packed { dim, numbers }, next))
}

// A vector that is not kept: skipped by its length.
#[tactic(auto, unfolding(loops::specs::Refusal::first_of, definition::specs::Kaldi::skipped))]
pub(crate) fn skipped_at(src: &[u8], at: usize) -> Result<usize, Refusal>
    ensures { passed result ≡ skipped src.now at }
{
    let (width, next) = width_at(src, at, b"FV", b"DV")?;
    let (n, next) = dim_at(src, next, 0, MAX_SKIPPED)?;
    let (_, next) = bytes_at(src, next, n * width.bytes())?;
    Ok(next)
}
