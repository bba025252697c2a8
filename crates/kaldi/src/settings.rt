//! The options from the maker's settings texts, splice.conf and online_cmvn.conf: as `conf_int`,
//! `conf_float` and the first half of `IvectorInfo::open` in the Rust.

ghost use Rattle.std.specs.Prelude.{◌≡◌, true, false, MatchOption, not, List, ℕ, ◌+◌, ◌≤◌, length, take, drop, eqb, leb};
ghost use Rattle.loops.specs.Lists.{all_of};
ghost use Rattle.std.specs.Float.{binary32};
ghost use Rattle.definition.specs.Reader.{run, same};
ghost use Rattle.definition.specs.Text.{digits_value, number, to_nearest};
ghost use Rattle.kaldi.specs.Inner.KaldiTextGot.{given};
ghost use Rattle.kaldi.specs.Settings.{lines, trim_end, trim as trimmed, value as value_of, whole, read_or, options_of, plain, settings_of};
ghost use Rattle.kaldi.specs.Inner.Settings.{below64};

use crate::kaldi_text::{Decimal, TextReader, digit_value, is_space, spaces_len};
use definition::{IvectorOptions, Refusal, need};

// ---- lines
// Each of these says that what it gives is in the text, by which callers cut.

// How long the first line is: up to a byte 10, or to the end.
fn line_len(s: &[u8]) -> usize
    ensures value { result ≡ run (λ b. not (eqb b 10)) s.now }
    ensures in_bounds { result ≤ length s.now }
{
    s.iter().take_while(|b| **b != b'\n').count()
}

// How many bytes are left without the blanks at the end.
fn trim_end(s: &[u8]) -> usize
    ensures in_bounds { result ≤ length s.now }
    ensures value { take result s.now ≡ trim_end s.now }
{
    s.len() - s.iter().rev().take_while(|b| is_space(**b)).count()
}

// A text without the blanks at both ends.
fn trim(s: &[u8]) -> &[u8]
    ensures value { result.now ≡ trimmed s.now }
    ensures in_bounds { length result.now ≤ length s.now }
{
    // by hand: the library's `trim_ascii` leaves byte 11, which is a blank in the definition
    let t = &s[spaces_len(s)..];
    &t[..trim_end(t)]
}

// What stands behind a key, if a line begins with it.
fn after_key<'a>(line: &'a [u8], key: &[u8]) -> Option<&'a [u8]>
    ensures { MatchOption result (same (take (length key.now) line.now) key.now ≡ false)
        (λ v. (same (take (length key.now) line.now) key.now ≡ true)
        × (v.now ≡ drop (length key.now) line.now) × (length v.now ≤ length line.now)) }
{
    line.strip_prefix(key)
}

// The value on the first line with the key.
fn value<'a>(s: &'a [u8], key: &[u8]) -> &'a [u8]
    ensures value { result.now ≡ value_of key.now (lines s.now) }
    ensures in_bounds { length result.now ≤ length s.now }
{
    let mut at = 0;
    // No `for`: the step is a line's length, and a proof is over the lines from a place on.
    while at <= s.len() {
        let end = at + line_len(&s[at..]);
        let line = trim(&s[at..end]);
        if let Some(v) = after_key(line, key) {
            return trim(v);
        }
        at = end + 1;
    }
    &[]
}

// ---- values
// Each of these that moves a reader says that its bytes stay the same ones (limit: same bytes).

// The number that digits stand for, where it is below 2^64.
fn below_64_bits(digits: &[u8]) -> Option<usize>
    ensures { result ≡ below64 (digits_value 0 digits.now) }
{
    let mut x: usize = 0;
    for &b in digits {
        x = x.checked_mul(10)?.checked_add(digit_value(b) as usize)?;
    }
    Some(x)
}

// A plus, if any, and digits.
#[tactic(auto, unfolding(crate::specs::Settings::whole, crate::specs::Settings::plus, loops::specs::Refusal::first_of))]
fn whole(r: &mut TextReader<'_>) -> Result<usize, Refusal>
    ensures value { given result r.new.at ≡ whole r.old.src.now r.old.at }
    ensures same_bytes { r.new.src.now ≡ r.old.src.now }
{
    r.skip_byte(b'+');
    let digits = r.digits();
    need(!digits.is_empty(), Refusal::CmvnForm)?;
    below_64_bits(digits).ok_or(Refusal::CmvnForm)
}

// The nearest f32, where its format's limits are kept.
#[tactic(auto, unfolding(definition::specs::Text::to_nearest, loops::specs::Refusal::first_of))]
fn nearest(d: Decimal) -> Result<f32, Refusal>
    ensures { (s : List ℕ) (at : ℕ)
        → given result at ≡ to_nearest binary32 d.minus d.m d.up d.down s at }
{
    need(d.m < 16_777_216, Refusal::CmvnForm)?;
    need(d.up <= d.down + 10, Refusal::CmvnForm)?;
    need(d.down <= d.up + 10, Refusal::CmvnForm)?;
    Ok(floats::decimal(d.minus, d.m, d.up, d.down))
}

// A number, as the nearest f32.
fn number(r: &mut TextReader<'_>) -> Result<f32, Refusal>
    requires { length r.old.src.now ≤ 65536 }
    ensures value { given result r.new.at ≡ number binary32 r.old.src.now r.old.at }
    ensures same_bytes { r.new.src.now ≡ r.old.src.now }
{
    nearest(r.decimal()?)
}

// What was read up to a place, if that is the end of the value.
fn all_or<T: Copy>(read: Result<T, Refusal>, at: usize, end: usize, default: T) -> T
    ensures { result ≡ read_or default end (given read at) }
{
    match read {
        Ok(x) if at == end => x,
        _ => default,
    }
}

// ---- the options

// The whole number of a key, or the default where it cannot be read.
fn int_setting(s: &[u8], key: &[u8], default: usize) -> usize
    ensures { (
        let v : List ℕ = value_of key.now (lines s.now) in
        result ≡ read_or default (length v) (whole v 0)) }
{
    let v = value(s, key);
    let mut r = TextReader::new(v);
    let n = whole(&mut r);
    all_or(n, r.at, v.len(), default)
}

// The float of a key, or the default.
fn float_setting(s: &[u8], key: &[u8], default: f32) -> f32
    requires { length s.now ≤ 65536 }
    ensures { (
        let v : List ℕ = value_of key.now (lines s.now) in
        result ≡ read_or default (length v) (number binary32 v 0)) }
{
    let v = value(s, key);
    let mut r = TextReader::new(v);
    let x = number(&mut r);
    all_or(x, r.at, v.len(), default)
}

// The options of two texts: the defaults where they say nothing, or nothing that can be read.
fn options_of(splice: &[u8], cmvn: &[u8]) -> IvectorOptions
    requires { length cmvn.now ≤ 65536 }
    ensures { result ≡ options_of splice.now cmvn.now }
{
    let left_context = int_setting(splice, b"--left-context=", 3);
    let right_context = int_setting(splice, b"--right-context=", 3);
    let cmn_window = int_setting(cmvn, b"--cmn-window=", 600);
    let global_frames = int_setting(cmvn, b"--global-frames=", 200);
    let min_energy = float_setting(cmvn, b"--cmn-min-energy=", 50.0);
    IvectorOptions {
        left_context,
        right_context,
        cmn_window,
        global_frames,
        num_gselect: 5,
        num_cg_iters: 15,
        min_post: 0.025,
        posterior_scale: 0.1,
        max_count: 100.0,
        min_energy,
    }
}

#[tactic(auto, unfolding(loops::specs::Lists::all_of))]
fn is_ascii(s: &[u8]) -> bool
    ensures { result ≡ all_of (λ b. leb b 127) s.now }
{
    s.iter().all(|&b| b <= 127)
}

// ASCII, and at most 65,536 bytes.
#[tactic(auto, unfolding(crate::specs::Settings::plain))]
fn is_plain(s: &[u8]) -> bool
    ensures value { result ≡ plain s.now }
    ensures short { result ≡ true → length s.now ≤ 65536 }
{
    s.len() <= 65536 && is_ascii(s)
}

/// The options of splice.conf and online_cmvn.conf, whether they are in their ranges or not; a
/// missing file is an empty text.
#[tactic(auto, unfolding(crate::specs::Settings::settings_of, loops::specs::Refusal::first_of))]
pub fn read_settings(splice: &[u8], online_cmvn: &[u8]) -> Result<IvectorOptions, Refusal>
    ensures { given result 0 ≡ settings_of splice.now online_cmvn.now }
{
    need(is_plain(splice), Refusal::SettingsText)?;
    need(is_plain(online_cmvn), Refusal::SettingsText)?;
    Ok(options_of(splice, online_cmvn))
}
