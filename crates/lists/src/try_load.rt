//! A load to try a stream with: a generator of 32 bits, the calls that it draws into lent lists,
//! and the program's input.

ghost use Rattle.std.specs.Prelude.{◌≡◌, ℕ, IfErr, ◌+◌, ◌-◌, ◌*◌, ◌%◌, ◌^◌, ◌<◌, ◌≤◌, length, eqb, if◌then◌else◌};
ghost use Rattle.loops.specs.Lists.{build};
ghost use Rattle.loops.specs.Refusal.{taken};
ghost use Rattle.loops.specs.Ring.{put};
ghost use Rattle.definition.specs.Number.{number_of as refusal_number, refused_by};
ghost use Rattle.kaldi.specs.Inner.KaldiTextGot.{given};
ghost use Rattle.lists.specs.Draws.{draw as draw_of, draws, number_of, numbers_of, frame_of, weight_of, state_after, drawing_at, DrawnLists, drawn_lists, filled, size_refusal, list_refusal, fill_refusal};
ghost use Rattle.lists.specs.Input.{a_number, asked_of};
ghost use Rattle.lists.specs.Inner.TryLoad.{capped, asked_by};

use definition::{Refusal, need};
use kaldi::kaldi_text::{TextReader, value_of};

/// The generator's next result, which is its new state.
pub fn draw(s: u32) -> u32
    ensures { result ≡ draw_of s }
{
    let a = s ^ (s << 13);
    let b = a ^ (a >> 17);
    b ^ (b << 5)
}

/// A number of a frame, or a weight: -125 to 125 in steps of an eighth.
pub fn number(r: u32) -> f32
    ensures { result ≡ number_of r }
{
    ((r % 2001) as f32 - 1000.0) / 8.0
}

// ---- a call by the number of its kind

/// The frame that a call of a kind names, 0 where it names none. `pushes` were drawn before. A kind
/// is a number: 0 push, 1 finish, 2 change, 3 forget, 4 fetch.
#[tactic(auto, unfolding(crate::specs::Draws::frame_of))]
pub fn frame_of(kind: u32, s: u32, pushes: usize) -> usize
    requires { pushes ≤ 10000 }
    ensures { result ≡ frame_of kind s pushes }
{
    match kind {
        2 => draw(s) as usize % (pushes + 16),
        3 | 4 => draw(s) as usize % (pushes + 1),
        _ => 0,
    }
}

/// The weight of a change; 0 for another kind.
#[tactic(auto, unfolding(crate::specs::Draws::weight_of, crate::specs::Draws::draws, loops::specs::Loop::iter))]
pub fn weight_of(kind: u32, s: u32) -> f32
    ensures { result ≡ weight_of kind s }
{
    match kind {
        2 => number(draw(draw(s))),
        _ => 0.0,
    }
}

// The numbers of a push.
fn put_frame(s: u32, numbers: &mut [f32])
    ensures { numbers.new ≡ build (length numbers.old) (λ i. number_of (draws (i + 1) s)) }
{
    let mut t = s;
    for x in numbers.iter_mut() {
        t = draw(t);
        *x = number(t);
    }
}

/// Writes the numbers of a push from place `at` on; for another kind, nothing.
pub fn put_numbers(dim: usize, kind: u32, state: u32, frames: &mut [f32], at: usize)
    requires { at + length (numbers_of dim kind state) ≤ length frames.old }
    ensures { frames.new ≡ put at (numbers_of dim kind state) frames.old }
{
    if kind == 0 {
        put_frame(state, &mut frames[at..at + dim]);
    }
}

// The state after n draws.
fn skip(n: usize, s: u32) -> u32
    ensures { result ≡ draws n s }
{
    let mut t = s;
    for i in 0..n {
        t = draw(t);
    }
    t
}

// n, plus one after a push.
fn pushes_after(n: usize, kind: u32) -> usize
    requires { n < 10000 }
    ensures { (result ≡ n + (if eqb kind 0 then 1 else 0)) × (result ≤ n + 1) }
{
    match kind {
        0 => n + 1,
        _ => n,
    }
}

// The state after a call of a kind.
#[tactic(auto, unfolding(crate::specs::Draws::state_after, crate::specs::Draws::draws, loops::specs::Loop::iter))]
fn after(dim: usize, kind: u32, s: u32) -> u32
    ensures { result ≡ state_after dim kind s }
{
    match kind {
        0 => skip(dim, s),
        1 => s,
        2 => draw(draw(s)),
        _ => draw(s),
    }
}

/// What stands between two calls: the generator's state, and how many pushes were drawn.
#[derive(Clone, Copy)]
pub struct Place {
    pub state: u32,
    pub pushes: usize,
}

/// The place after one call more.
pub fn next_place(dim: usize, p: Place) -> Place
    requires { p.pushes < 10000 }
    ensures { (result.state ≡ state_after dim (draw_of p.state % 5) (draw_of p.state))
        × (result.pushes ≡ p.pushes + (if eqb (draw_of p.state % 5) 0 then 1 else 0)) }
{
    let s = draw(p.state);
    let kind = s % 5;
    let state = after(dim, kind, s);
    let pushes = pushes_after(p.pushes, kind);
    Place { state, pushes }
}

// How many of `count` calls are pushes.
fn pushes_of(seed: u32, dim: usize, count: usize) -> usize
    requires { count ≤ 10000 }
    ensures { (result ≡ (drawing_at dim seed count).pushes) × (result ≤ count) }
{
    let mut p = Place {
        state: seed,
        pushes: 0,
    };
    for i in 0..count {
        p = next_place(dim, p);
    }
    p.pushes
}

// ---- the lists

/// `TrySizes` for a seed of 0 or above 32 bits, a base dimension outside 1 to 64, and a count of
/// calls outside 1 to 10,000.
#[tactic(auto, unfolding(crate::specs::Draws::size_refusal, loops::specs::Refusal::first_of))]
pub fn size_refusal(seed: usize, dim: usize, count: usize) -> Result<(), Refusal>
    ensures value { refused_by result ≡ size_refusal seed dim count }
    ensures one_number { IfErr result (λ e. refusal_number e ≡ 33) }
{
    need(0 < seed && seed <= 4_294_967_295, Refusal::TrySizes)?;
    need(0 < dim && dim <= 64, Refusal::TrySizes)?;
    need(0 < count && count <= 10_000, Refusal::TrySizes)
}

// `TrySizes` where a lent list is too short for what is drawn.
#[tactic(auto, unfolding(crate::specs::Draws::list_refusal, loops::specs::Refusal::first_of))]
fn list_refusal(
    seed: u32,
    dim: usize,
    count: usize,
    frames: usize,
    kinds: usize,
    named: usize,
    weights: usize,
) -> Result<(), Refusal>
    requires { (dim ≤ 64) × (count ≤ 10000) }
    ensures { refused_by result ≡ list_refusal seed dim count frames kinds named weights }
{
    need(
        pushes_of(seed, dim, count) * dim <= frames,
        Refusal::TrySizes,
    )?;
    need(count <= kinds, Refusal::TrySizes)?;
    need(count <= named, Refusal::TrySizes)?;
    need(count <= weights, Refusal::TrySizes)
}

// Draws all calls into lists that are long enough.
fn fill_lists(
    seed: u32,
    dim: usize,
    count: usize,
    frames: &mut [f32],
    kinds: &mut [u8],
    named: &mut [usize],
    weights: &mut [f32],
)
    requires { (dim ≤ 64) × (count ≤ 10000)
        × ((drawing_at dim seed count).pushes * dim ≤ length frames.old)
        × (count ≤ length kinds.old) × (count ≤ length named.old) × (count ≤ length weights.old) }
    ensures { drawn_lists frames.new kinds.new named.new weights.new
        ≡ filled dim seed count (drawn_lists frames.old kinds.old named.old weights.old) }
{
    let mut p = Place {
        state: seed,
        pushes: 0,
    };
    // by index: three lists are written at one index
    for i in 0..count {
        let s = draw(p.state);
        let kind = s % 5;
        put_numbers(dim, kind, s, frames, p.pushes * dim);
        kinds[i] = kind as u8;
        named[i] = frame_of(kind, s, p.pushes);
        weights[i] = weight_of(kind, s);
        p = next_place(dim, p);
    }
}

/// Draws `count` calls from a seed. `frames` gets the numbers of the pushes, one frame after the
/// other. Of each call `kinds` gets its kind (0 push, 1 finish, 2 change, 3 forget, 4 fetch),
/// `named` its frame and `weights` its weight.
///
/// # Errors
///
/// `TrySizes` for a size outside its limits, or a list that is too short. Then nothing is written.
#[tactic(auto, unfolding(crate::specs::Draws::fill_refusal))]
pub fn fill(
    seed: usize,
    dim: usize,
    count: usize,
    frames: &mut [f32],
    kinds: &mut [u8],
    named: &mut [usize],
    weights: &mut [f32],
) -> Result<(), Refusal>
    ensures { (
        let l : DrawnLists = drawn_lists frames.old kinds.old named.old weights.old in
        (refused_by result ≡ fill_refusal seed dim count (length l.frames) (length l.kinds)
        (length l.named) (length l.weights))
        × (drawn_lists frames.new kinds.new named.new weights.new
        ≡ taken (refused_by result) (filled dim seed count l) l)) }
{
    size_refusal(seed, dim, count)?;
    let state = seed as u32;
    list_refusal(
        state,
        dim,
        count,
        frames.len(),
        kinds.len(),
        named.len(),
        weights.len(),
    )?;
    fill_lists(state, dim, count, frames, kinds, named, weights);
    Ok(())
}

// ---- the input

// Blanks, and digits after them; 2^32 stands for every higher number.
#[tactic(auto, unfolding(crate::specs::Input::a_number, loops::specs::Refusal::first_of))]
fn read_number(r: &mut TextReader<'_>) -> Result<usize, Refusal>
    ensures value { given result r.new.at ≡ capped (a_number r.old.src.now r.old.at) }
    ensures same_bytes { r.new.src.now ≡ r.old.src.now }
{
    r.skip_spaces();
    let digits = r.digits();
    need(!digits.is_empty(), Refusal::TrySizes)?;
    Ok(value_of(digits, 0, 4_294_967_296) as usize)
}

/// What a program's input asks for.
#[derive(Clone, Copy, Debug, PartialEq, Eq)]
pub struct LoadSizes {
    pub seed: usize,
    pub dim: usize,
    pub count: usize,
}

/// The seed, the base dimension and the count of calls in a text of at most 100 bytes. Any other
/// text is refused with `TrySizes`.
pub fn read_input(text: &[u8]) -> Result<LoadSizes, Refusal>
    ensures { asked_by result ≡ asked_of text.now }
{
    need(text.len() <= 100, Refusal::TrySizes)?;
    let mut r = TextReader::new(text);
    let seed = read_number(&mut r)?;
    let dim = read_number(&mut r)?;
    let count = read_number(&mut r)?;
    need(r.is_done(), Refusal::TrySizes)?;
    size_refusal(seed, dim, count)?;
    Ok(LoadSizes { seed, dim, count })
}
