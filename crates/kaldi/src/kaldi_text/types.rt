//! The types whose fields keep a fact.

ghost use Rattle.std.specs.Prelude.{◌≤◌, length};

/// ±m * 10^(up - down), m at most 2^53: a number's digits and its power of ten, their limits still
/// to be tested.
#[derive(Clone, Copy)]
pub struct Decimal {
    pub minus: bool,
    pub m: u64,
    pub up: u64,
    pub down: u64,
    pub ghost up_bound: { up ≤ 200000 },
    pub ghost down_bound: { down ≤ 200000 },
}

/// Lent bytes, and how far they are read.
#[derive(Clone, Copy)]
pub struct TextReader<'a> {
    pub src: &'a [u8],
    pub at: usize,
    pub ghost in_text: { at ≤ length src.now },
}
