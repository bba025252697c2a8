//! Blocks of numbers as they stand in a file, each number still to be read.

ghost use Rattle.std.specs.Prelude.{◌≡◌, true, ◌+◌, ◌*◌, ◌<◌, ◌≤◌, length, take, drop, from_bits};
ghost use Rattle.std.specs.Float.{binary32, binary64};
ghost use Rattle.std.specs.Float.Ieee.Scale.{finite};
ghost use Rattle.loops.specs.Lists.{all_of};
ghost use Rattle.floats.specs.Operators.{at};
ghost use Rattle.floats.specs.Real.{byte_width};
ghost use Rattle.definition.specs.Reader.{kept, little_endian, numbers};
ghost use Rattle.definition.specs.Kaldi.{triangle};
ghost use Rattle.kaldi.specs.Widths.{format_of, Whole, AllFinite};

use crate::kaldi_io::widths::Width;
use floats::{KeepAs, Real};

/// A run of finite numbers.
#[derive(Clone, Copy)]
pub struct Numbers<'a> {
    /// They, as they are written.
    pub bytes: &'a [u8],
    pub width: Width,
    pub count: usize,
    pub ghost whole: { Whole width count bytes.now },
    pub ghost finite: { AllFinite (format_of width) count bytes.now },
}

/// A matrix, row after row.
#[derive(Clone, Copy)]
pub struct Matrix<'a> {
    pub rows: usize,
    pub cols: usize,
    pub numbers: Numbers<'a>,
    pub ghost sized: { numbers.count ≡ rows * cols },
}

/// A symmetric matrix: its lower triangle, row after row.
#[derive(Clone, Copy)]
pub struct Packed<'a> {
    pub dim: usize,
    pub numbers: Numbers<'a>,
    pub ghost sized: { numbers.count ≡ triangle dim },
}

// ---- numbers at a width
// In each of these the count of numbers stands beside the bytes, which spares a division for each
// number; `positive` is the flag of the definition's `kept`; a part is cut by hand (limit: parts).
// The bits of each width have a function of their own, which is faster than by a float.

/// Whether a number is to be kept: finite, and above 0 where that is asked.
#[tactic(auto, unfolding(definition::specs::Reader::kept))]
pub(crate) fn is_kept<K: Real>(x: K, positive: bool) -> bool
    ensures { result ≡ kept positive (K.float x) }
{
    x.is_finite() && (!positive || x.is_above_zero())
}

// The bytes of number `i` of those that stand one after the other.
fn part<W: Real>(bytes: &[u8], i: usize) -> &[u8]
    requires { i * W.BYTES + W.BYTES ≤ length bytes.now }
    ensures value { result.now ≡ take (byte_width W.format)
        (drop (i * byte_width W.format) bytes.now) }
    ensures count { length result.now ≡ byte_width W.format }
{
    let from = i * W::BYTES;
    &bytes[from..from + W::BYTES]
}

// The number itself.
fn number_at<W: Real>(bytes: &[u8], i: usize) -> W
    requires { i * W.BYTES + W.BYTES ≤ length bytes.now }
    ensures { W.float result ≡ from_bits W.format
        (little_endian (take (byte_width W.format) (drop (i * byte_width W.format) bytes.now))) }
{
    W::read(part::<W>(bytes, i))
}

// A finite number of four bytes: with no test for a NaN.
#[tactic(auto, using(crate::proofs::Values::reads))]
fn single(bytes: &[u8]) -> f32
    requires count { length bytes.now ≡ 4 }
    requires good { finite (from_bits binary32 (little_endian bytes.now)) ≡ true }
    ensures { result ≡ from_bits binary32 (little_endian bytes.now) }
{
    f32::from_bits(u32::from_le_bytes([bytes[0], bytes[1], bytes[2], bytes[3]]))
}

// And of eight.
#[tactic(auto, using(crate::proofs::Values::reads))]
fn double(bytes: &[u8]) -> f64
    requires count { length bytes.now ≡ 8 }
    requires good { finite (from_bits binary64 (little_endian bytes.now)) ≡ true }
    ensures { result ≡ from_bits binary64 (little_endian bytes.now) }
{
    f64::from_bits(u64::from_le_bytes([
        bytes[0], bytes[1], bytes[2], bytes[3], bytes[4], bytes[5], bytes[6], bytes[7],
    ]))
}

/// Number `i` of `n` finite ones that are written at a width, as a table of `K` keeps it.
pub fn kept_at<W: Real, K: Real>(bytes: &[u8], i: usize, n: usize) -> K
where
    f32: KeepAs<K>,
    f64: KeepAs<K>,
    requires whole { length bytes.now ≡ n * byte_width W.format }
    requires finite { AllFinite W.format n bytes.now }
    requires inside { i < n }
    ensures { K.float result ≡ at (numbers K.format W.format n bytes.now) i }
{
    let bytes = part::<W>(bytes, i);
    if W::BYTES == 4 {
        single(bytes).keep()
    } else {
        double(bytes).keep()
    }
}

// Whether a number of four bytes is finite, by the bits of its exponent.
#[tactic(auto, using(crate::proofs::Values::reads))]
fn finite_single(bytes: &[u8]) -> bool
    requires { length bytes.now ≡ 4 }
    ensures { result ≡ finite (from_bits binary32 (little_endian bytes.now)) }
{
    let bits = u32::from_le_bytes([bytes[0], bytes[1], bytes[2], bytes[3]]);
    bits % 0x8000_0000 / 0x0080_0000 != 255
}

// And of eight.
#[tactic(auto, using(crate::proofs::Values::reads))]
fn finite_double(bytes: &[u8]) -> bool
    requires { length bytes.now ≡ 8 }
    ensures { result ≡ finite (from_bits binary64 (little_endian bytes.now)) }
{
    let bits = u64::from_le_bytes([
        bytes[0], bytes[1], bytes[2], bytes[3], bytes[4], bytes[5], bytes[6], bytes[7],
    ]);
    bits % 0x8000_0000_0000_0000 / 0x0010_0000_0000_0000 != 2047
}

fn is_finite<W: Real>(bytes: &[u8]) -> bool
    requires { length bytes.now ≡ byte_width W.format }
    ensures { result ≡ finite (from_bits W.format (little_endian bytes.now)) }
{
    if W::BYTES == 4 {
        finite_single(bytes)
    } else {
        finite_double(bytes)
    }
}

// Whether a number that a table keeps as it is written is to be kept.
#[tactic(auto, unfolding(definition::specs::Reader::kept))]
fn is_kept_whole<W: Real>(bytes: &[u8], positive: bool) -> bool
    requires { length bytes.now ≡ byte_width W.format }
    ensures { result ≡ kept positive (from_bits W.format (little_endian bytes.now)) }
{
    if !is_finite::<W>(bytes) {
        return false;
    }
    !positive || W::read(bytes).is_above_zero()
}

// Whether number `i` of `n` is to be kept in a table of `K`: one that is narrowed, as it is then.
#[tactic(auto, using(crate::proofs::Values::numbers_at))]
fn is_kept_at<W: KeepAs<K>, K: Real>(bytes: &[u8], i: usize, n: usize, positive: bool) -> bool
    requires whole { length bytes.now ≡ n * byte_width W.format }
    requires inside { i < n }
    ensures { result ≡ kept positive (at (numbers K.format W.format n bytes.now) i) }
{
    if K::BYTES < W::BYTES {
        is_kept::<K>(number_at::<W>(bytes, i).keep(), positive)
    } else {
        is_kept_whole::<W>(part::<W>(bytes, i), positive)
    }
}

// Whether a table of `K` keeps all of `n` numbers that are written at a width. By index (limit:
// parts).
fn all_kept<W: KeepAs<K>, K: Real>(bytes: &[u8], n: usize, positive: bool) -> bool
    requires { length bytes.now ≡ n * byte_width W.format }
    ensures { result ≡ all_of (kept positive) (numbers K.format W.format n bytes.now) }
{
    for i in 0..n {
        if !is_kept_at::<W, K>(bytes, i, n, positive) {
            return false;
        }
    }
    true
}

// The same, at the width that it says.
pub(crate) fn are_kept<K: Real>(bytes: &[u8], width: Width, n: usize, positive: bool) -> bool
where
    f32: KeepAs<K>,
    f64: KeepAs<K>,
    requires { Whole width n bytes.now }
    ensures { result ≡ all_of (kept positive) (numbers K.format (format_of width) n bytes.now) }
{
    match width {
        Width::Single => all_kept::<f32, K>(bytes, n, positive),
        Width::Double => all_kept::<f64, K>(bytes, n, positive),
    }
}

/// Numbers that are written at a width, into a room of f64 that they fill.
fn fill_kept<W: Real>(bytes: &[u8], out: &mut [f64])
    requires whole { length bytes.now ≡ length out.old * byte_width W.format }
    requires finite { AllFinite W.format (length out.old) bytes.now }
    ensures { out.new ≡ numbers binary64 W.format (length out.old) bytes.now }
{
    let n = out.len();
    for (i, x) in out.iter_mut().enumerate() {
        *x = kept_at::<W, f64>(bytes, i, n);
    }
}

// ---- a run

impl Numbers<'_> {
    /// Number `i`, as a table of `K` keeps it.
    pub fn get<K: Real>(&self, i: usize) -> K
    where
        f32: KeepAs<K>,
        f64: KeepAs<K>,
        requires { i < self.now.count }
        ensures { K.float result ≡ at
            (numbers K.format (format_of self.now.width) self.now.count self.now.bytes.now) i }
    {
        match self.width {
            Width::Single => kept_at::<f32, K>(self.bytes, i, self.count),
            Width::Double => kept_at::<f64, K>(self.bytes, i, self.count),
        }
    }

    /// All of them, into a room of f64 that they fill.
    pub fn fill(&self, out: &mut [f64])
        requires { length out.old ≡ self.now.count }
        ensures { out.new ≡ numbers binary64
            (format_of self.now.width) self.now.count self.now.bytes.now }
    {
        match self.width {
            Width::Single => fill_kept::<f32>(self.bytes, out),
            Width::Double => fill_kept::<f64>(self.bytes, out),
        }
    }
}
