//! Functions on floats: narrowing, root, logarithm, exponential, decimals, Rust's max, min, abs and
//! is_finite, and what the two widths share.
#![tactic(auto)]

ghost use Rattle.std.specs.Prelude.{◌≡◌, ◌+◌, ◌*◌, ◌^◌, ◌<◌, ◌≤◌, from_bits, to_bits};
ghost use Rattle.std.specs.Float.{binary32, binary64};
ghost use Rattle.std.specs.Float.Ieee.{prec};
ghost use Rattle.std.specs.Float.Ieee.Nearest.{closest};
ghost use Rattle.std.specs.Float.Ieee.Scale.{finite};
ghost use Rattle.floats.specs.Narrow.{narrowed};
ghost use Rattle.floats.specs.Sqrt.{square_root};
ghost use Rattle.floats.specs.Ln.{chained, ln_sum, ln_of, ln_narrow};
ghost use Rattle.floats.specs.Operators.{◌/₆₄◌, as_f64};
ghost use Rattle.floats.specs.Exp.{series, squares, wide_exp, exp_of};
ghost use Rattle.floats.specs.Extremes.{larger, smaller, absolute};
ghost use Rattle.floats.specs.Decimal.{scaled, tens};
ghost use Rattle.floats.specs.Inner.{mag_bits, IsSplit};

mod real;

pub use real::{Arithmetic, KeepAs, Real};

// Of an f64's pattern: the weight of the exponent's field.
const FIELD: u64 = 0x10_0000_0000_0000;

// An infinity.
const INFINITE: u64 = 0x7ff0_0000_0000_0000;

// The weight of the sign.
const SIGN: u64 = 0x8000_0000_0000_0000;

// The whole number nearest to a / 2^by, a tie to the even one: half a unit is added, less one where
// the whole part is even, and what is past the units is cut off. No branch waits for the digits.
fn shifted(a: u64, by: u64) -> u64
    requires { (0 < by) × (by < 64) × (a < 2 ^ 63) }
    ensures { result ≡ closest a (2 ^ by) }
{
    let q = a >> by;
    let half = 1u64 << (by - 1);
    (a + (half - 1) + q % 2) >> by
}

// The pattern of the f32 nearest to the f64 of the pattern a, which has no sign and is no NaN's: x
// is the exponent's field, q the digits with the leading one.
fn narrow_bits(a: u64) -> u32
    requires { a ≤ 0x7ff0_0000_0000_0000 }
    ensures { result ≡ mag_bits a }
{
    let x = a / FIELD;
    let q = a % FIELD + FIELD;
    if x >= 1151 {
        0x7f80_0000
    } else if x >= 897 {
        ((x - 897) * 0x80_0000 + shifted(q, 29)) as u32
    } else if x >= 863 {
        shifted(q, 926 - x) as u32
    } else {
        0
    }
}

/// The f32 nearest to x, a tie to the one whose last digit is even.
pub fn narrow(x: f64) -> f32
    ensures { result ≡ narrowed x }
{
    if x != x {
        return 0.0f32 / 0.0f32;
    }
    let b = f64::to_bits(x);
    if b >= SIGN {
        f32::from_bits(0x8000_0000 + narrow_bits(b - SIGN))
    } else {
        f32::from_bits(narrow_bits(b))
    }
}

// q * 2^e
#[derive(Clone, Copy)]
struct Digits {
    q: u64,
    e: u64,
}

// The f64 of the pattern a, which is above zero and finite, as q * 2^e / 2^1200, q having all its
// 53 digits.
fn split(a: u64) -> Digits
    requires { (0 < a) × (a < 0x7ff0_0000_0000_0000) }
    ensures { IsSplit a result.q result.e }
{
    let x = a / FIELD;
    let t = a % FIELD;
    let mut q = t;
    let mut e: u64 = 126;
    if x > 0 {
        q = t + FIELD;
        e = x + 125;
    }
    // Only a subnormal takes turns, and each keeps the value q * 2^e.
    while q < FIELD {
        q = q * 2;
        e = e - 1;
    }
    Digits { q, e }
}

/// The root of x, correctly rounded: of a zero that zero, and below zero a NaN.
pub fn sqrt(x: f64) -> f64
    ensures { result ≡ square_root x }
{
    x.sqrt()
}

// 1 + q * (1/3 + q * (1/5 + .. q * 1/35))
fn chain(q: f64) -> f64
    ensures { result ≡ chained 17 1 q }
{
    let mut h = 1.0 / 35.0;
    for n in (0u32..17).rev() {
        h = 1.0 / f64::from(n * 2 + 1) + q * h;
    }
    h
}

// The logarithm of m * 2^e, for 1 <= m < 2.
fn ln_sum(m: f64, e: f64) -> f64
    ensures { result ≡ ln_sum m e }
{
    let s = (m - 1.0) / (m + 1.0);
    let h = chain(s * s);
    e * 0.6931471805599453 + (2.0 * s) * h
}

// The logarithm of the f64 of the pattern a, which is above zero and finite.
fn ln_bits(a: u64) -> f64
    requires { (0 < a) × (a < 0x7ff0_0000_0000_0000) }
    ensures { result ≡ ln_of (from_bits binary64 a) }
{
    let d = split(a);
    let m = f64::from_bits(d.q + 0x3fe0_0000_0000_0000);
    let e = d.e as i32 - 1148;
    ln_sum(m, e as f64)
}

/// The logarithm of v: of a zero minus infinity, and below zero a NaN.
pub fn ln(v: f64) -> f64
    ensures { result ≡ ln_of v }
{
    if v != v {
        return v;
    }
    let b = f64::to_bits(v);
    if b >= SIGN {
        if b > SIGN {
            return 0.0 / 0.0;
        }
        return -1.0 / 0.0;
    }
    if b == 0 {
        return -1.0 / 0.0;
    }
    if b >= INFINITE {
        return v;
    }
    ln_bits(b)
}

/// The logarithm of x as an f64, rounded to an f32.
pub fn ln_f32(x: f32) -> f32
    ensures { result ≡ ln_narrow x }
{
    narrow(ln(std::num::f32_to_f64_with_nan(x)))
}

// 1 + y * (1 + y/2 * (1 + .. y/16))
fn powers(y: f64) -> f64
    ensures { result ≡ series 16 1 y }
{
    let mut h = 1.0;
    for k in (0u32..16).rev() {
        h = 1.0 + y / f64::from(k + 1) * h;
    }
    h
}

// h squared seven times: h^128.
fn squared(h: f64) -> f64
    ensures { result ≡ squares 7 h }
{
    let a = h * h;
    let b = a * a;
    let c = b * b;
    let d = c * c;
    let e = d * d;
    let f = e * e;
    f * f
}

/// x/128, which the series of the exponential is of.
pub fn exp_argument(x: f32) -> f64
    ensures { result ≡ x /₆₄ as_f64 128 }
{
    std::num::f32_to_f64_with_nan(x) / 128.0
}

/// What the exponential is narrowed from: the series of y, squared seven times. It has no test, so
/// that a loop of it is compiled to vector instructions.
pub fn exp_wide(y: f64) -> f64
    ensures { result ≡ wide_exp y }
{
    squared(powers(y))
}

/// The exponential of x, made from that: 0 below -104.
pub fn exp_narrow(x: f32, wide: f64) -> f32
    requires { wide ≡ wide_exp (x /₆₄ as_f64 128) }
    ensures { result ≡ exp_of x }
{
    if x < -104.0 {
        return 0.0;
    }
    narrow(wide)
}

/// The exponential of x.
pub fn exp(x: f32) -> f32
    ensures { result ≡ exp_of x }
{
    exp_narrow(x, exp_wide(exp_argument(x)))
}

/// The larger of a and b, or the other where one is a NaN.
#[tactic(auto, using(crate::proofs::Extremes::nan_by_eq), unfolding(crate::specs::Extremes::larger))]
pub fn max<W: Arithmetic>(a: W, b: W) -> W
    ensures { W.float result ≡ larger (W.float a) (W.float b) }
{
    if a != a {
        b
    } else if a < b {
        b
    } else {
        a
    }
}

/// The smaller of a and b, or the other where one is a NaN.
#[tactic(auto, using(crate::proofs::Extremes::nan_by_eq), unfolding(crate::specs::Extremes::smaller))]
pub fn min<W: Arithmetic>(a: W, b: W) -> W
    ensures { W.float result ≡ smaller (W.float a) (W.float b) }
{
    if a != a {
        b
    } else if b < a {
        b
    } else {
        a
    }
}

/// x without its sign.
#[tactic(auto, using(crate::proofs::Extremes::abs_std))]
pub fn abs(x: f32) -> f32
    ensures { result ≡ absolute x }
{
    x.abs()
}

/// Whether x is neither a NaN nor an infinity.
pub fn is_finite<W: Real>(x: W) -> bool
    ensures { result ≡ finite (W.float x) }
{
    x.is_finite()
}

/// The float nearest to ±m * 10^(up - down), a tie to the even one: by one product or quotient of
/// two numbers that the format holds.
pub fn decimal<W: Arithmetic>(minus: bool, m: u64, up: u64, down: u64) -> W
    requires m_bound { m < 2 ^ prec W.format }
    requires up_bound { (up ≤ down + tens W.format) × (down ≤ up + tens W.format) }
    ensures { W.float result ≡ scaled W.format minus m up down }
{
    let whole = W::whole(m);
    let x = if minus { -whole } else { whole };
    if down <= up {
        x * W::ten(up - down)
    } else {
        x / W::ten(down - up)
    }
}
