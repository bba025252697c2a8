//! Whose voice it is: the nearest of 1 to 32 enrolled vectors to a given one, where it is near
//! enough. Distances are squared Euclidean, and ties go to the lowest index.

ghost use Rattle.std.specs.Prelude.{◌≡◌, ◌+◌, ◌*◌, ◌≤◌, ◌||◌, eqb, false, length, not};
ghost use Rattle.std.specs.Float.Ieee.{lt};
ghost use Rattle.std.specs.Float.Ieee.Scale.{finite};
ghost use Rattle.floats.specs.Operators.{f32, zero₃₂};
ghost use Rattle.definition.specs.Number.{refused_by, numbered};
ghost use Rattle.rounds.specs.Voice.{distance as distance_of, any_not_finite, voice_refusal, nearest_voice, voice_answer};

use definition::{Refusal, need};

/// The nearest voice.
#[derive(Clone, Copy, Debug, PartialEq)]
pub struct Voice {
    /// Which enrolled vector, from 0.
    pub index: usize,
    /// The sum of the squared differences.
    pub distance: f32,
}

/// The answer as the record that C gets.
#[repr(C)]
#[derive(Clone, Copy, Debug, Default, PartialEq)]
pub struct VoiceAnswer {
    /// The refusal's number, 0 where the call was taken.
    pub refusal: usize,
    /// Whether a voice is near enough; without one the index and the distance are 0.
    pub found: bool,
    pub index: usize,
    pub distance: f32,
}

// The squared differences of the vector and enrolled vector i, added in order. By index:
// `from_bits` wants a pattern that is no NaN's, which is known place by place.
fn distance(dim: usize, vector: &[u32], enrolled: &[u32], i: usize) -> f32
    requires { (dim ≤ length vector.now) × (i * dim + dim ≤ length enrolled.now) × (any_not_finite vector.now ≡ false) × (any_not_finite enrolled.now ≡ false) }
    ensures { result ≡ distance_of dim vector.now enrolled.now i }
{
    let from = i * dim;
    let mut sum = 0.0f32;
    for k in 0..dim {
        let d = f32::from_bits(vector[k]) - f32::from_bits(enrolled[from + k]);
        sum = sum + d * d;
    }
    sum
}

// Whether a pattern is of no finite number, by the bits of its exponent: no pattern of a NaN
// becomes a float.
#[tactic(auto, using(crate::proofs::Patterns::fault_is))]
fn not_finite(b: u32) -> bool
    ensures { result ≡ not (finite (f32 b)) }
{
    b % 2147483648 / 8388608 == 255
}

#[tactic(auto, unfolding(loops::specs::Lists::any_of))]
fn any_not_finite(bits: &[u32]) -> bool
    ensures { result ≡ any_not_finite bits.now }
{
    bits.iter().any(|&b| not_finite(b))
}

// Whether `len` numbers are `count` rows of `dim`. A product past 64 bits is no list's length.
fn are_rows(len: usize, count: usize, dim: usize) -> bool
    ensures { result ≡ eqb len (count * dim) }
{
    match count.checked_mul(dim) {
        Some(n) => len == n,
        None => false,
    }
}

// Whether the vector has `dim` numbers, and the enrolled ones `count` times as many.
fn are_sized(dim: usize, vector: &[u32], count: usize, enrolled: &[u32]) -> bool
    ensures { not result ≡ (not (eqb (length vector.now) dim) || not (eqb (length enrolled.now) (count * dim))) }
{
    vector.len() == dim && are_rows(enrolled.len(), count, dim)
}

// Whether all numbers and the limit are finite, and the limit is not below 0.
fn are_numbers(vector: &[u32], enrolled: &[u32], limit: f32) -> bool
    ensures { not result ≡ (any_not_finite vector.now || any_not_finite enrolled.now || not (finite limit) || lt limit zero₃₂) }
{
    !any_not_finite(vector)
        && !any_not_finite(enrolled)
        && floats::is_finite(limit)
        && !(limit < 0.0)
}

// What `nearest_voice` refuses.
#[tactic(auto, unfolding(crate::specs::Voice::voice_refusal, loops::specs::Refusal::first_of))]
fn check(
    dim: usize,
    vector: &[u32],
    count: usize,
    enrolled: &[u32],
    limit: f32,
) -> Result<(), Refusal>
    ensures { refused_by result ≡ voice_refusal dim vector.now count enrolled.now limit }
{
    need((1..=32).contains(&count), Refusal::VoiceCount)?;
    need(
        are_sized(dim, vector, count, enrolled),
        Refusal::VectorLength,
    )?;
    need(are_numbers(vector, enrolled, limit), Refusal::VectorNumber)
}

/// The enrolled vector whose distance to `vector` is least, where that is at most `limit`; `None`
/// where nobody is near enough. Of equally near ones the lowest index.
///
/// Vectors have `dim` numbers each, as f32 bits, which a fetch gives out. `enrolled` holds `count`
/// of them, one after the other.
///
/// # Errors
///
/// - `VoiceCount`: not 1 to 32 enrolled vectors.
/// - `VectorLength`: a length that is not `dim`, or `count * dim`.
/// - `VectorNumber`: a number that is not finite, or a limit below 0.
pub fn nearest_voice(
    dim: usize,
    vector: &[u32],
    count: usize,
    enrolled: &[u32],
    limit: f32,
) -> Result<Option<Voice>, Refusal>
    ensures { numbered result ≡ nearest_voice dim vector.now count enrolled.now limit }
{
    check(dim, vector, count, enrolled, limit)?;
    let mut index = 0;
    let mut shortest = distance(dim, vector, enrolled, 0);
    // by index: where `dim` is 0 there are `count` rows without a number
    for i in 1..count {
        let d = distance(dim, vector, enrolled, i);
        if d < shortest {
            index = i;
            shortest = d;
        }
    }
    if shortest <= limit {
        return Ok(Some(Voice {
            index,
            distance: shortest,
        }));
    }
    Ok(None)
}

/// The record that C gets. A refusal is given by its number.
#[tactic(auto, unfolding(crate::specs::Voice::voice_answer))]
pub fn voice_answer(a: Result<Option<Voice>, usize>) -> VoiceAnswer
    ensures { result ≡ voice_answer a }
{
    match a {
        Ok(Some(voice)) => VoiceAnswer {
            refusal: 0,
            found: true,
            index: voice.index,
            distance: voice.distance,
        },
        Ok(None) => VoiceAnswer::default(),
        Err(refusal) => VoiceAnswer {
            refusal,
            ..VoiceAnswer::default()
        },
    }
}

impl From<Result<Option<Voice>, Refusal>> for VoiceAnswer {
    ghost from_gives = { λ a r. r ≡ voice_answer (numbered a) };

    fn from(a: Result<Option<Voice>, Refusal>) -> VoiceAnswer {
        voice_answer(definition::numbered(a))
    }
}
