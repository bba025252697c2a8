//! Reads a script: its bytes from a reader, then its numbers, lists and lines, and the floats whose
//! bits it writes. Every program that plays scripts reads with it.
#![tactic(auto)]

ghost use Rattle.std.specs.Prelude.{◌≡◌, ◌<◌, ◌≤◌, ◌%◌, length, take, drop, get_or, IfOk, ◌+◌, ◌*◌};
ghost use Rattle.std.specs.Option.{MatchOption};
ghost use Rattle.std.specs.Io.KnownBytes.{Consumes, IsAtEnd};
ghost use Rattle.std.specs.Float.{binary32, binary64};
ghost use Rattle.std.specs.Float.Ieee.{of_bits, to_bits};
ghost use Rattle.script.specs.Scan.{digit_of, GoesOn, Ends, number_at, step_at, signed_at, line_at, lines_end, whole_lines, moved_by};

mod lines;
mod pattern;
mod session;
mod words;

pub use lines::{Lines, Script};
pub use pattern::{Pattern, print, print_list};
pub use session::{Files, Held, NO_FILES, not_here, print_answer};
use std::io::{self, Read};
use std::num::{
    f32_from_bits_with_nan, f32_to_bits_with_nan, f64_from_bits_with_nan, f64_to_bits_with_nan,
};
pub use words::{Item, Words, front, lend};

/// A number, and the place after the byte that ends it.
#[derive(Clone, Copy)]
pub struct Scan {
    pub value: usize,
    pub next: usize,
}

/// The same of a number that may have a minus sign.
#[derive(Clone, Copy)]
pub struct Signed {
    pub minus: bool,
    pub size: usize,
    pub next: usize,
}

// ---- input

/// Reads until the room is full or the input ends; how many bytes that are. A read that fails ends
/// it with that error: some bytes may be in the room by then, and nothing is said of how many.
pub fn read_full<R: Read>(reader: &mut R, room: &mut [u8]) -> io::Result<usize>
    ensures bound { IfOk result (λ n. n ≤ length room.new) }
    ensures bytes { IfOk result (λ n. Consumes (R.remaining reader.old) (R.remaining reader.new)
        (take n room.new)) }
    ensures end { IfOk result (λ n. n < length room.new → IsAtEnd (R.remaining reader.new)) }
{
    let mut n = 0;
    // No `for`: what a read took is the step.
    while n < room.len() {
        let read = reader.read(&mut room[n..])?;
        if read == 0 {
            break;
        }
        n += read;
    }
    Ok(n)
}

// ---- bytes

/// The byte at a place, 0 behind the text.
pub fn byte_at(text: &[u8], at: usize) -> u8
    ensures { result ≡ get_or text.now at 0 }
{
    text.get(at).copied().unwrap_or(0)
}

/// The place after, in the text.
#[tactic(auto, using(crate::proofs::Scanning::step_in, crate::proofs::Scanning::step_behind))]
pub fn step(text: &[u8], at: usize) -> usize
    ensures { result ≡ step_at text.now at }
{
    if at < text.len() { at + 1 } else { at }
}

// ---- numbers

// The digit that a byte stands for.
fn digit(b: u8) -> Option<usize>
    ensures { MatchOption result (digit_of b ≡ 16) (λ d. (d ≡ digit_of b) × (d < 16)) }
{
    match b {
        b'0'..=b'9' => Some(usize::from(b - b'0')),
        b'a'..=b'f' => Some(usize::from(b - b'a') + 10),
        _ => None,
    }
}

// A number with one digit more, where the byte is a digit of the base, and the number fits.
fn with_digit(value: usize, base: usize, b: u8) -> Option<usize>
    ensures { MatchOption result (Ends base value b) (λ n. GoesOn base value b
        × (n ≡ value * base + digit_of b)) }
{
    let d = digit(b).unwrap_or(16);
    if base <= d {
        return None;
    }
    value.checked_mul(base)?.checked_add(d)
}

/// The number at a place, in a base of at most 16.
pub fn number(text: &[u8], at: usize, base: usize) -> Scan
    ensures { result ≡ number_at base 0 (drop at text.now) at }
{
    let mut value = 0;
    // By index: the place where a byte ends the number is in the answer.
    for i in at..text.len() {
        match with_digit(value, base, text[i]) {
            Some(more) => value = more,
            None => return Scan { value, next: i + 1 },
        }
    }
    Scan {
        value,
        next: at.max(text.len()),
    }
}

/// The decimal number at a place, which may have a minus sign.
pub fn signed_number(text: &[u8], at: usize) -> Signed
    ensures { result ≡ signed_at text.now at }
{
    if byte_at(text, at) == b'-' {
        let n = number(text, step(text, at), 10);
        return Signed {
            minus: true,
            size: n.value,
            next: n.next,
        };
    }
    let n = number(text, at, 10);
    Signed {
        minus: false,
        size: n.value,
        next: n.next,
    }
}

/// n places more, or less where there is a minus sign; not below 0, and n where the sum is no
/// usize.
#[tactic(auto, unfolding(crate::specs::Scan::moved_by), using(crate::proofs::Scanning::moved_up, crate::proofs::Scanning::moved_not))]
pub fn moved(n: usize, by: Signed) -> usize
    ensures { result ≡ moved_by n by }
{
    if by.minus {
        return n.saturating_sub(by.size);
    }
    n.checked_add(by.size).unwrap_or(n)
}

// ---- lines

/// Where the line after a place begins.
pub fn next_line(text: &[u8], at: usize) -> usize
    ensures line { result ≡ line_at (drop at text.now) at }
    ensures bound { at ≤ length text.now → result ≤ length text.now }
    ensures further { at < length text.now → at < result }
{
    // By index: the place is the answer, also behind the text.
    for i in at..text.len() {
        if text[i] == 10 {
            return i + 1;
        }
    }
    at.max(text.len())
}

/// How many of the n bytes that were read into a room are lines to play: all where the room has
/// places left, else those up to the end of the last whole line.
pub fn whole_lines(text: &[u8], n: usize) -> usize
    ensures { (result ≡ whole_lines text.now n) × (result ≤ length text.now) }
{
    if n < text.len() {
        return n;
    }
    lines_end(text)
}

// Where the last line ends that is there to its end; 0 where none is.
fn lines_end(text: &[u8]) -> usize
    ensures end { result ≡ lines_end text.now (length text.now) }
    ensures bound { result ≤ length text.now }
{
    text.iter()
        .rposition(|&b| b == 10)
        .map_or(0, |last| last + 1)
}

// ---- floats and their bits

/// The f32 of a pattern, its lowest 32 bits.
pub fn float(bits: usize) -> f32
    ensures { result ≡ of_bits binary32 (bits % 0x1_0000_0000) }
{
    f32_from_bits_with_nan((bits % 0x1_0000_0000) as u32)
}

/// The f64 of a pattern.
pub fn double(bits: usize) -> f64
    ensures { result ≡ of_bits binary64 bits }
{
    f64_from_bits_with_nan(bits as u64)
}

/// The pattern of an f32; of a NaN always the same.
pub fn float_bits(x: f32) -> u64
    ensures { result ≡ to_bits binary32 x }
{
    u64::from(f32_to_bits_with_nan(x))
}

/// The pattern of an f64; of a NaN always the same.
pub fn double_bits(x: f64) -> u64
    ensures { result ≡ to_bits binary64 x }
{
    f64_to_bits_with_nan(x)
}
