//! What the answers to a script print of floats: the hexadecimal digits of their bits.

ghost use Rattle.std.specs.Prelude.{◌≡◌, ◌∷◌, ℕ, List, length, OnOk};
ghost use Rattle.std.specs.Io.KnownBytes.{Appends};
ghost use Rattle.std.specs.Float.{binary32, binary64};
ghost use Rattle.std.specs.Float.Ieee.{to_bits};
ghost use Rattle.script.specs.Lines.{spaced};

use super::{double_bits, float_bits};
use std::io::{self, Write};

/// What is printed by the digits of its bits.
pub trait Pattern: Copy {
    ghost bits: { Self → ℕ };

    /// How many digits are printed.
    const DIGITS: usize;

    /// Its bits.
    fn pattern(self) -> u64
        ensures { result ≡ bits self };
}

impl Pattern for f32 {
    ghost bits = { to_bits binary32 };

    const DIGITS: usize = 8;

    fn pattern(self) -> u64 {
        float_bits(self)
    }
}

impl Pattern for f64 {
    ghost bits = { to_bits binary64 };

    const DIGITS: usize = 16;

    fn pattern(self) -> u64 {
        double_bits(self)
    }
}

/// The bits of a float.
impl Pattern for u32 {
    ghost bits = { λ x. x };

    const DIGITS: usize = 8;

    fn pattern(self) -> u64 {
        u64::from(self)
    }
}

/// A space, and the digits.
pub fn print<W: Write, T: Pattern>(writer: &mut W, x: T) -> io::Result<()>
    ensures { OnOk result ((digits : List ℕ)
        × Appends (W.contents writer.old) (W.contents writer.new) (32 ∷ digits)) }
{
    let digits = T::DIGITS;
    let bits = x.pattern();
    write!(writer, " {bits:0digits$x}")
}

/// Each of them, behind a space.
pub fn print_list<W: Write, T: Pattern>(writer: &mut W, items: &[T]) -> io::Result<()>
    ensures { OnOk result ((all : List (List ℕ)) × (length all ≡ length items.now)
        × Appends (W.contents writer.old) (W.contents writer.new) (spaced all)) }
{
    for x in items {
        print(writer, *x)?;
    }
    Ok(())
}
