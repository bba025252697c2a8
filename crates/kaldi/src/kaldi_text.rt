//! The text matrix of the global CMVN statistics: as `parse_text_matrix` in the Rust, but the
//! numbers are read again once everything is checked. `TextReader` goes through a text; what it
//! reads is what the definition's parsers read at the same place.

ghost use Rattle.std.specs.Prelude.{◌≡◌, ℕ, if◌then◌else◌, List, IfOk, not, ◌&&◌, ◌||◌, ◌+◌, ◌-◌, ◌^◌, ◌≤◌, ◌<◌, min, length, drop, eqb, leb};
ghost use Rattle.std.specs.Float.{Format, binary64};
ghost use Rattle.floats.specs.Operators.{zero₆₄};
ghost use Rattle.definition.specs.Options.{within};
ghost use Rattle.definition.specs.Reader.{read, run, here};
ghost use Rattle.definition.specs.Text.{sign, digits, fraction, digits_value, exponent, to_nearest, number, space, stop, skip, row, line, bracket, ending, cmvn_rows, cmvn};
ghost use Rattle.kaldi.specs.Inner.KaldiTextGot.{parsed, given, peeked};
ghost use Rattle.kaldi.specs.Inner.KaldiTextAnswers.{cmvn_of, cmvn_in, RowIn, cells};
ghost use Rattle.kaldi.specs.Inner.KaldiText.{is_digit, is_sign, is_minus, is_point, is_exponent, is_blank, gap, capped, power_of, nearest_of, Outlines};

mod types;

use definition::{Refusal, need};
pub use types::{Decimal, TextReader};

// The longest text.
const MOST_BYTES: usize = 65536;

// What the digits of a number count up to: 2^53, past every limit.
const MOST_DIGITS: u64 = 9_007_199_254_740_992;

// ---- bytes

/// What a byte is in a number: a sign says whether it is a minus.
#[derive(Clone, Copy, Debug, PartialEq, Eq)]
pub enum Kind {
    Digit,
    Sign { minus: bool },
    Point,
    Exponent,
    Blank,
    Other,
}

#[tactic(auto, unfolding(definition::specs::Text::space))]
fn kind_of(b: u8) -> Kind
    ensures digit { is_digit result ≡ within 48 57 b }
    ensures sign { is_sign result ≡ (eqb b 43 || eqb b 45) }
    ensures minus { is_minus result ≡ eqb 45 b }
    ensures point { is_point result ≡ eqb 46 b }
    ensures exponent { is_exponent result ≡ (eqb b 69 || eqb b 101) }
    ensures blank { is_blank result ≡ space b }
{
    match b {
        b'0'..=b'9' => Kind::Digit,
        b'+' => Kind::Sign { minus: false },
        b'-' => Kind::Sign { minus: true },
        b'.' => Kind::Point,
        b'e' | b'E' => Kind::Exponent,
        b' ' | 9..=13 => Kind::Blank,
        _ => Kind::Other,
    }
}

// Runs of digits and of blanks are counted by tests of their own, which are faster than `kind_of`.
fn is_digit(b: u8) -> bool
    ensures { result ≡ within 48 57 b }
{
    matches!(b, b'0'..=b'9')
}

/// What a digit stands for.
pub fn digit_value(b: u8) -> u64
    ensures value { result ≡ b - 48 }
    ensures small { result < 256 }
{
    u64::from(b.saturating_sub(b'0'))
}

/// A blank: a space, or a byte from 9 to 13.
#[tactic(auto, unfolding(definition::specs::Text::space))]
pub fn is_space(b: u8) -> bool
    ensures { result ≡ space b }
{
    matches!(b, b' ' | 9..=13)
}

// A blank that ends no row.
fn is_gap(b: u8) -> bool
    ensures { result ≡ gap b }
{
    b != b'\n' && is_space(b)
}

// What ends a row.
#[tactic(auto, unfolding(definition::specs::Text::stop))]
fn is_stop(b: u8) -> bool
    ensures { result ≡ stop b }
{
    b == b'\n' || b == b']'
}

// What stands behind a number.
fn is_end(b: u8) -> bool
    ensures { result ≡ (space b || stop b) }
{
    is_space(b) || is_stop(b)
}

// ---- counts of bytes in front
// Each of these says that its count is in the text, by which callers cut.

/// How many bytes in front are digits.
pub fn digits_len(s: &[u8]) -> usize
    ensures value { result ≡ run (within 48 57) s.now }
    ensures in_bounds { result ≤ length s.now }
{
    s.iter().take_while(|b| is_digit(**b)).count()
}

/// How many are blanks.
pub fn spaces_len(s: &[u8]) -> usize
    ensures value { result ≡ run space s.now }
    ensures in_bounds { result ≤ length s.now }
{
    s.iter().take_while(|b| is_space(**b)).count()
}

// How many are blanks that end no row.
fn gaps_len(s: &[u8]) -> usize
    ensures value { result ≡ run gap s.now }
    ensures in_bounds { result ≤ length s.now }
{
    s.iter().take_while(|b| is_gap(**b)).count()
}

// ---- the value of digits

/// The whole number that digits stand for, after m: at most `cap`.
pub fn value_of(digits: &[u8], m: u64, cap: u64) -> u64
    requires m_le_cap { m ≤ cap }
    requires cap_bound { cap ≤ 2 ^ 53 }
    ensures { result ≡ min (digits_value m digits.now) cap }
{
    let mut x = m;
    for &b in digits {
        x = (x * 10 + digit_value(b)).min(cap);
    }
    x
}

// ---- a number

/// An exponent: whether it is below zero, and its magnitude.
#[derive(Clone, Copy, Debug, Default, PartialEq, Eq)]
pub struct Power {
    pub under: bool,
    pub magnitude: u64,
}

impl Decimal {
    // The nearest f64, where the limits are kept.
    #[tactic(auto, unfolding(definition::specs::Text::to_nearest, loops::specs::Refusal::first_of))]
    fn nearest(self) -> Result<f64, Refusal>
        ensures { (s : List ℕ) (at : ℕ)
            → given result at ≡ to_nearest binary64 self.minus self.m self.up self.down s at }
    {
        need(self.m < MOST_DIGITS, Refusal::CmvnForm)?;
        need(self.up <= self.down + 22, Refusal::CmvnForm)?;
        need(self.down <= self.up + 22, Refusal::CmvnForm)?;
        Ok(floats::decimal(self.minus, self.m, self.up, self.down))
    }
}

// ---- the reader

/// A row: how many numbers, and the last.
#[derive(Clone, Copy, Debug, PartialEq)]
pub struct Row {
    pub len: usize,
    pub last: f64,
}

// Each method that moves says that the bytes stay the same ones (limit: same bytes). That a text
// has at most 65,536 bytes is asked where numbers are read: readers of longer texts read none.
impl<'a> TextReader<'a> {
    /// At the first byte.
    pub fn new(src: &'a [u8]) -> TextReader<'a>
        ensures bytes { result.src.now ≡ src.now }
        ensures front { result.at ≡ 0 }
    {
        TextReader { src, at: 0 }
    }

    // What is left to read.
    fn rest(&self) -> &'a [u8]
        ensures { result.now ≡ drop self.now.at self.now.src.now }
    {
        &self.src[self.at..]
    }

    // The next byte.
    fn peek(&self) -> Option<u8>
        ensures { result ≡ peeked self.now.src.now self.now.at }
    {
        self.src.get(self.at).copied()
    }

    // What the next byte is: past the end, `Other`.
    #[tactic(auto, unfolding(definition::specs::Reader::here))]
    fn kind(&self) -> Kind
        ensures digit { is_digit result ≡ here (within 48 57) self.now.src.now self.now.at }
        ensures sign { is_sign result ≡ here
            (λ b. eqb b 43 || eqb b 45) self.now.src.now self.now.at }
        ensures minus { is_minus result ≡ here (eqb 45) self.now.src.now self.now.at }
        ensures point { is_point result ≡ here (eqb 46) self.now.src.now self.now.at }
        ensures exponent { is_exponent result
            ≡ here (λ b. eqb b 69 || eqb b 101) self.now.src.now self.now.at }
        ensures blank { is_blank result ≡ here space self.now.src.now self.now.at }
    {
        self.peek().map_or(Kind::Other, kind_of)
    }

    // Whether a row ends here.
    #[tactic(auto, unfolding(definition::specs::Reader::here))]
    fn stops(&self) -> bool
        ensures { result ≡ here stop self.now.src.now self.now.at }
    {
        self.peek().is_some_and(is_stop)
    }

    // Whether a number ends here.
    #[tactic(auto, unfolding(definition::specs::Reader::here))]
    fn ends(&self) -> bool
        ensures { result ≡ here (λ b. space b || stop b) self.now.src.now self.now.at }
    {
        self.peek().is_some_and(is_end)
    }

    /// Whether nothing is left but blanks.
    pub fn is_done(&self) -> bool
        ensures { result ≡ leb (length self.now.src.now)
            (self.now.at + run space (drop self.now.at self.now.src.now)) }
    {
        self.src.len() <= self.at + spaces_len(self.rest())
    }

    /// Past blanks.
    #[tactic(auto, unfolding(definition::specs::Text::skip))]
    pub fn skip_spaces(&mut self)
        ensures value { read tt self.new.at ≡ skip space self.old.src.now self.old.at }
        ensures same_bytes { self.new.src.now ≡ self.old.src.now }
    {
        self.at += spaces_len(self.rest());
    }

    // Past blanks within a row.
    #[tactic(auto, unfolding(definition::specs::Text::skip))]
    fn skip_gaps(&mut self)
        ensures value { read tt self.new.at ≡ skip gap self.old.src.now self.old.at }
        ensures same_bytes { self.new.src.now ≡ self.old.src.now }
    {
        self.at += gaps_len(self.rest());
    }

    /// Past a byte, where it comes next.
    #[tactic(auto, unfolding(definition::specs::Reader::here))]
    pub fn skip_byte(&mut self, b: u8)
        ensures value { self.new.at ≡ (if here (eqb b) self.old.src.now self.old.at
            then self.old.at + 1 else self.old.at) }
        ensures same_bytes { self.new.src.now ≡ self.old.src.now }
    {
        if self.peek() == Some(b) {
            self.at += 1;
        }
    }

    /// The digits that come next.
    #[tactic(auto, unfolding(definition::specs::Text::digits))]
    pub fn digits(&mut self) -> &'a [u8]
        ensures value { read result.now self.new.at ≡ digits self.old.src.now self.old.at }
        ensures same_bytes { self.new.src.now ≡ self.old.src.now }
        ensures in_bounds { length result.now ≤ length self.old.src.now }
    {
        let rest = self.rest();
        let n = digits_len(rest);
        self.at += n;
        &rest[..n]
    }

    // A sign, if any: whether it is a minus.
    #[tactic(auto, unfolding(definition::specs::Text::sign, definition::specs::Reader::here))]
    fn sign(&mut self) -> bool
        ensures value { read result self.new.at ≡ sign self.old.src.now self.old.at }
        ensures same_bytes { self.new.src.now ≡ self.old.src.now }
    {
        match self.kind() {
            Kind::Sign { minus } => {
                self.at += 1;
                minus
            }
            _ => false,
        }
    }

    // The digits after a point, if any.
    #[tactic(auto, unfolding(definition::specs::Text::fraction, definition::specs::Reader::here))]
    fn fraction(&mut self) -> &'a [u8]
        ensures value { read result.now self.new.at ≡ fraction self.old.src.now self.old.at }
        ensures same_bytes { self.new.src.now ≡ self.old.src.now }
        ensures in_bounds { length result.now ≤ length self.old.src.now }
    {
        match self.kind() {
            Kind::Point => {
                self.at += 1;
                self.digits()
            }
            _ => &[],
        }
    }

    // An exponent, if any. A magnitude above 100,000 is given as that: it is refused all the same.
    #[tactic(auto, unfolding(definition::specs::Text::exponent, definition::specs::Text::signed_digits, definition::specs::Reader::here, loops::specs::Refusal::first_of))]
    fn exponent(&mut self) -> Result<Power, Refusal>
        ensures value { parsed power_of result self.new.at
            ≡ capped (exponent self.old.src.now self.old.at) }
        ensures same_bytes { self.new.src.now ≡ self.old.src.now }
        ensures bound { IfOk result (λ p. p.magnitude ≤ 100000) }
    {
        match self.kind() {
            Kind::Exponent => {
                self.at += 1;
                let under = self.sign();
                let digits = self.digits();
                need(!digits.is_empty(), Refusal::CmvnForm)?;
                Ok(Power {
                    under,
                    magnitude: value_of(digits, 0, 100_000),
                })
            }
            _ => Ok(Power::default()),
        }
    }

    /// The digits and the power of a number, for either format.
    pub fn decimal(&mut self) -> Result<Decimal, Refusal>
        requires { length self.old.src.now ≤ 65536 }
        ensures value { (f : Format) → nearest_of f result self.new.at
            ≡ number f self.old.src.now self.old.at }
        ensures same_bytes { self.new.src.now ≡ self.old.src.now }
    {
        let minus = self.sign();
        let whole = self.digits();
        let part = self.fraction();
        need(whole.len() + part.len() > 0, Refusal::CmvnForm)?;
        let power = self.exponent()?;
        let m = value_of(part, value_of(whole, 0, MOST_DIGITS), MOST_DIGITS);
        let behind = part.len() as u64;
        if power.under {
            return Ok(Decimal {
                minus,
                m,
                up: 0,
                down: power.magnitude + behind,
            });
        }
        Ok(Decimal {
            minus,
            m,
            up: power.magnitude,
            down: behind,
        })
    }

    // A number, as the nearest f64.
    fn number(&mut self) -> Result<f64, Refusal>
        requires { length self.old.src.now ≤ 65536 }
        ensures value { given result self.new.at ≡ number binary64 self.old.src.now self.old.at }
        ensures same_bytes { self.new.src.now ≡ self.old.src.now }
    {
        self.decimal()?.nearest()
    }

    // A bracket, blanks aside.
    #[tactic(auto, unfolding(definition::specs::Text::bracket, definition::specs::Text::byte, definition::specs::Reader::here, loops::specs::Refusal::first_of))]
    fn bracket(&mut self, b: u8) -> Result<(), Refusal>
        ensures value { given result self.new.at ≡ bracket b self.old.src.now self.old.at }
        ensures same_bytes { self.new.src.now ≡ self.old.src.now }
    {
        self.skip_spaces();
        need(self.peek() == Some(b), Refusal::CmvnForm)?;
        self.at += 1;
        Ok(())
    }

    // Nothing more, blanks aside.
    #[tactic(auto, unfolding(definition::specs::Text::ending, loops::specs::Refusal::first_of))]
    fn ending(&self) -> Result<(), Refusal>
        ensures { given result self.now.at ≡ ending self.now.src.now self.now.at }
    {
        need(self.is_done(), Refusal::CmvnForm)
    }

    // A row of at most 65 numbers.
    fn row(&mut self) -> Result<Row, Refusal>
        requires { length self.old.src.now ≤ 65536 }
        ensures value { parsed (λ r. cells (row 66 self.old.src.now self.old.at)) result self.new.at
            ≡ row 66 self.old.src.now self.old.at }
        ensures outline { IfOk result (Outlines (cells (row 66 self.old.src.now self.old.at))) }
        ensures same_bytes { self.new.src.now ≡ self.old.src.now }
    {
        let mut last = 0.0;
        // how many numbers are read is the answer
        for len in 0..66 {
            self.skip_gaps();
            if self.stops() {
                return Ok(Row { len, last });
            }
            last = self.number()?;
            need(self.ends(), Refusal::CmvnForm)?;
        }
        Err(Refusal::CmvnForm)
    }

    // The same after blanks and blank rows.
    #[tactic(auto, unfolding(definition::specs::Text::line))]
    fn line(&mut self) -> Result<Row, Refusal>
        requires { length self.old.src.now ≤ 65536 }
        ensures value { parsed (λ r. cells (line self.old.src.now self.old.at)) result self.new.at
            ≡ line self.old.src.now self.old.at }
        ensures outline { IfOk result (Outlines (cells (line self.old.src.now self.old.at))) }
        ensures same_bytes { self.new.src.now ≡ self.old.src.now }
    {
        self.skip_spaces();
        self.row()
    }
}

// ---- the matrix

/// The first row of a text that was checked.
#[derive(Clone, Copy, Debug, PartialEq, Eq)]
pub struct Cmvn {
    /// How many numbers.
    pub len: usize,
    /// Where it is looked for.
    pub from: usize,
    /// Where the text ends, but for blanks.
    pub next: usize,
}

// Two equal rows between brackets.
#[tactic(auto, unfolding(definition::specs::Text::cmvn_rows, loops::specs::Refusal::first_of))]
fn check_rows(s: &[u8]) -> Result<Cmvn, Refusal>
    requires { length s.now ≤ 65536 }
    ensures value { cmvn_of s.now result ≡ cmvn_rows s.now 0 }
    ensures cmvn_in { cmvn_in s.now result }
{
    let mut r = TextReader::new(s);
    r.bracket(b'[')?;
    let from = r.at;
    let first = r.line()?;
    let second = r.line()?;
    r.bracket(b']')?;
    r.ending()?;
    need(2 <= first.len, Refusal::CmvnForm)?;
    need(first.len == second.len, Refusal::CmvnForm)?;
    need(0.0 < first.last, Refusal::CmvnForm)?;
    Ok(Cmvn {
        len: first.len,
        from,
        next: r.at,
    })
}

/// The text's form; where it is kept, the first row.
#[tactic(auto, unfolding(definition::specs::Text::cmvn, loops::specs::Refusal::first_of))]
pub fn check_cmvn(s: &[u8]) -> Result<Cmvn, Refusal>
    ensures value { cmvn_of s.now result ≡ cmvn s.now 0 }
    ensures cmvn_in { cmvn_in s.now result }
{
    need(s.len() <= MOST_BYTES, Refusal::CmvnForm)?;
    check_rows(s)
}

/// The first row's numbers, once the text is checked, into a room that they fill.
pub fn fill_row(s: &[u8], from: usize, out: &mut [f64])
    requires { RowIn s.now (length out.old) from }
    ensures { out.new ≡ cells (line s.now from) }
{
    let mut r = TextReader { src: s, at: from };
    r.skip_spaces();
    // By index: a turn may end the fill, which leaves the places from i on as they were.
    for i in 0..out.len() {
        r.skip_gaps();
        match r.number() {
            Ok(x) => out[i] = x,
            // does not happen: the text was checked
            Err(_) => return,
        }
    }
}
