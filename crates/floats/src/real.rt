//! What the two widths of a float share, so that code over both is written once: `Real`,
//! `Arithmetic`; and how a table of one width keeps a number that was written at another: `KeepAs`.

ghost use Rattle.std.specs.Prelude.{◌≡◌, true, ℕ, ◌^◌, ◌<◌, ◌≤◌, pos, from_bits, to_bits, length, Float};
ghost use Rattle.std.specs.Int.{Width, w32, w64, byte_len, from_le_bytes, to_le_bytes};
ghost use Rattle.std.specs.Float.{Format, binary32, binary64};
ghost use Rattle.std.specs.Float.Ieee.{prec, eq, lt, neg, mul, div, of_int};
ghost use Rattle.std.specs.Ordering.{partial_lt};
ghost use Rattle.std.specs.Float.Ieee.Scale.{finite};
ghost use Rattle.floats.specs.Operators.{zero₃₂};
ghost use Rattle.floats.specs.Decimal.{tens};
ghost use Rattle.floats.specs.Real.{by_width, byte_width, kept_as};
ghost use Rattle.loops.proofs.Comparing.{float_lt};
ghost use Rattle.std.proofs.Common.{rules};

use std::num::{
    f32_from_bits_with_nan, f32_to_bits_with_nan, f32_to_f64_with_nan, f64_from_bits_with_nan,
    f64_to_bits_with_nan,
};
use std::ops::{Div, Mul, Neg};

// The powers of ten that an f64 holds.
const TENS: [f64; 23] = [
    1.0,
    10.0,
    100.0,
    1000.0,
    10000.0,
    100000.0,
    1000000.0,
    10000000.0,
    100000000.0,
    1000000000.0,
    10000000000.0,
    100000000000.0,
    1000000000000.0,
    10000000000000.0,
    100000000000000.0,
    1000000000000000.0,
    10000000000000000.0,
    100000000000000000.0,
    1000000000000000000.0,
    10000000000000000000.0,
    100000000000000000000.0,
    1000000000000000000000.0,
    10000000000000000000000.0,
];

// Those that an f32 holds.
const TENS_F32: [f32; 11] = [
    1.0,
    10.0,
    100.0,
    1000.0,
    10000.0,
    100000.0,
    1000000.0,
    10000000.0,
    100000000.0,
    1000000000.0,
    10000000000.0,
];

/// A float of one width: `f32` or `f64`.
pub trait Real: Copy
    + PartialOrd
    + Neg<Output = Self>
    + Mul<Self, Output = Self>
    + Div<Self, Output = Self> {
    ghost format: { Format };

    ghost word: { Width };

    ghost float: { Self → Float };

    /// How many bytes a number has.
    const BYTES: usize;

    ghost BYTES: { ℕ };

    /// The letter that a file of a Kaldi model names the width by: `F` or `D`.
    const MARK: u8;

    ghost MARK: { ℕ };

    /// The number of these bytes, from low to high.
    fn read(s: &[u8]) -> Self
        requires { length s.now ≡ BYTES }
        ensures { float result ≡ from_bits format (from_le_bytes word s.now) };

    /// The pattern; that of every NaN is the quiet one's.
    fn to_pattern(self) -> u64
        ensures { result ≡ to_bits format (float self) };

    /// The pattern of a number that is finite: a width may give it with no test.
    fn finite_pattern(self) -> u64
        requires { finite (float self) ≡ true }
        ensures { result ≡ to_bits format (float self) }
    {
        self.to_pattern()
    }

    /// The number as bytes, from low to high.
    fn write(self, out: &mut [u8])
        requires { length out.old ≡ BYTES }
        ensures { out.new ≡ to_le_bytes word (to_bits format (float self)) };

    /// An f64 of the same value.
    fn widen(self) -> f64
        ensures { result ≡ float self };

    /// Whether it is neither a NaN nor an infinity.
    fn is_finite(self) -> bool
        ensures { result ≡ finite (float self) };

    /// Whether it is above zero.
    fn is_above_zero(self) -> bool
        ensures { result ≡ lt zero₃₂ (float self) };

    // the length in bytes is the format's, and the word's; the letter too
    ghost bytes: { BYTES ≡ byte_width format };

    ghost word_bytes: { byte_len word ≡ byte_width format };

    ghost mark: { MARK ≡ by_width 70 68 format };
}

impl Real for f32 {
    ghost format = { binary32 };

    ghost word = { w32 };

    ghost float = { λ x. x };

    const BYTES: usize = 4;

    ghost BYTES = { 4 };

    const MARK: u8 = b'F';

    ghost MARK = { 70 };

    ghost bytes = { Prim.search rules };

    ghost word_bytes = { Prim.search rules };

    ghost mark = { Prim.search rules };

    fn read(s: &[u8]) -> f32 {
        f32_from_bits_with_nan(u32::from_le_bytes([s[0], s[1], s[2], s[3]]))
    }

    fn to_pattern(self) -> u64 {
        u64::from(f32_to_bits_with_nan(self))
    }

    #[tactic(auto, using(crate::proofs::Finite::finite_number))]
    fn finite_pattern(self) -> u64 {
        u64::from(f32::to_bits(self))
    }

    fn write(self, out: &mut [u8]) {
        out.copy_from_slice(&f32_to_bits_with_nan(self).to_le_bytes());
    }

    fn widen(self) -> f64 {
        f32_to_f64_with_nan(self)
    }

    // Not the library's: a push asks this of each number of a frame, and the difference, a NaN
    // where x is not finite, is faster.
    #[tactic(auto, using(crate::proofs::Finite::less_itself))]
    fn is_finite(self) -> bool {
        let d = self - self;
        d == d
    }

    fn is_above_zero(self) -> bool {
        0.0f32 < self
    }
}

impl Real for f64 {
    ghost format = { binary64 };

    ghost word = { w64 };

    ghost float = { λ x. x };

    const BYTES: usize = 8;

    ghost BYTES = { 8 };

    const MARK: u8 = b'D';

    ghost MARK = { 68 };

    ghost bytes = { Prim.search rules };

    ghost word_bytes = { Prim.search rules };

    ghost mark = { Prim.search rules };

    fn read(s: &[u8]) -> f64 {
        f64_from_bits_with_nan(u64::from_le_bytes([s[0], s[1], s[2], s[3], s[4], s[5], s[6], s[7]]))
    }

    fn to_pattern(self) -> u64 {
        f64_to_bits_with_nan(self)
    }

    #[tactic(auto, using(crate::proofs::Finite::finite_number))]
    fn finite_pattern(self) -> u64 {
        f64::to_bits(self)
    }

    fn write(self, out: &mut [u8]) {
        out.copy_from_slice(&f64_to_bits_with_nan(self).to_le_bytes());
    }

    fn widen(self) -> f64 {
        self
    }

    // Not the library's: a push asks this of each number of a frame, and the difference, a NaN
    // where x is not finite, is faster.
    #[tactic(auto, using(crate::proofs::Finite::less_itself))]
    fn is_finite(self) -> bool {
        let e = self - self;
        e == e
    }

    fn is_above_zero(self) -> bool {
        0.0f64 < self
    }
}

/// A float to compare and to reckon with.
pub trait Arithmetic: Real
    + PartialOrd
    + Neg<Output = Self>
    + Mul<Self, Output = Self>
    + Div<Self, Output = Self> {
    /// A whole number that the format holds. A method of each type, since `as` takes no type
    /// parameter.
    fn whole(n: u64) -> Self
        requires { n < 2 ^ prec Self.format }
        ensures { Self.float result ≡ of_int Self.format (pos n) };

    /// 10^k, which the format holds.
    fn ten(k: u64) -> Self
        requires { k ≤ tens Self.format }
        ensures { Self.float result ≡ of_int Self.format (pos (10 ^ k)) };

    // comparisons and operators are the format's, each rounded once
    ghost eq_is: { (x y : Self) → Self.eq x y ≡ eq (Self.float x) (Self.float y) };

    ghost lt_is: { (x y : Self) → partial_lt Self.partial_cmp x y
        ≡ lt (Self.float x) (Self.float y) };

    ghost may_neg: { (x : Self) → Self.can_neg x };

    ghost neg_is: { (x z : Self) → Self.neg_gives x z → Self.float z ≡ neg (Self.float x) };

    ghost may_mul: { (x y : Self) → Self.can_mul x y };

    ghost mul_is: { (x y z : Self) → Self.mul_gives x y z
        → Self.float z ≡ mul Self.format (Self.float x) (Self.float y) };

    ghost may_div: { (x y : Self) → Self.can_div x y };

    ghost div_is: { (x y z : Self) → Self.div_gives x y z
        → Self.float z ≡ div Self.format (Self.float x) (Self.float y) };
}

impl Arithmetic for f32 {
    ghost eq_is = { Prim.search rules };

    ghost lt_is = { float_lt };

    ghost may_neg = { Prim.search rules };

    ghost neg_is = { Prim.search rules };

    ghost may_mul = { Prim.search rules };

    ghost mul_is = { Prim.search rules };

    ghost may_div = { Prim.search rules };

    ghost div_is = { Prim.search rules };

    #[tactic(auto, using(crate::proofs::Tens::whole_in))]
    fn whole(n: u64) -> f32 {
        n as f32
    }

    fn ten(k: u64) -> f32 {
        TENS_F32[k as usize]
    }
}

impl Arithmetic for f64 {
    ghost eq_is = { Prim.search rules };

    ghost lt_is = { float_lt };

    ghost may_neg = { Prim.search rules };

    ghost neg_is = { Prim.search rules };

    ghost may_mul = { Prim.search rules };

    ghost mul_is = { Prim.search rules };

    ghost may_div = { Prim.search rules };

    ghost div_is = { Prim.search rules };

    #[tactic(auto, using(crate::proofs::Tens::whole_in))]
    fn whole(n: u64) -> f64 {
        n as f64
    }

    fn ten(k: u64) -> f64 {
        TENS[k as usize]
    }
}

/// A number that is written at this width, as a table of width `K` keeps it: an f64 is narrowed for
/// a table of f32, and an f32 is an f64 as it stands.
pub trait KeepAs<K: Real>: Real {
    fn keep(self) -> K
        ensures { K.float result ≡ kept_as K.format Self.format (Self.float self) };
}

impl KeepAs<f32> for f32 {
    fn keep(self) -> f32 {
        self
    }
}

impl KeepAs<f64> for f32 {
    fn keep(self) -> f64 {
        f32_to_f64_with_nan(self)
    }
}

impl KeepAs<f32> for f64 {
    fn keep(self) -> f32 {
        crate::narrow(self)
    }
}

impl KeepAs<f64> for f64 {
    fn keep(self) -> f64 {
        self
    }
}
